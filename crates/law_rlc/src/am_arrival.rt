//! Laws of what has arrived of an acknowledged flow, told by its PDUs. They speak of the
//! definitions that `rlc_am_tx` and `rlc_am_rx` meet, and do nothing.

ghost use Rattle.law_rlc.specs.AmArrival.Arrival.{PdusTellWhatArrives};

/// Of the SDUs that the sender was offered exactly those have arrived, by their places, of which
/// each octet lies in a data PDU that came: the PDUs that were written tell where the data field of
/// each number stands in the stream of the SDUs.
#[tactic(auto, using(crate::proofs::AmArrival::Laws::tell_what_arrives))]
pub fn pdus_tell_what_arrives()
    ensures { PdusTellWhatArrives }
{}
