//! A STATUS is written.

ghost use Rattle.std.specs.Prelude.{◌≡◌, ◌%◌, ◌^◌, ◌<◌, ◌≤◌, take, drop, length, OnOk, IfOk};
ghost use Rattle.std.specs.Prelude.{IsTrue};
ghost use Rattle.l2_bits.specs.Bits.{bits_of, number};
ghost use Rattle.rlc_am_rx.specs.Status.{may_write, ack, nacks};
ghost use Rattle.rlc_am_rx.specs.Machine.{written};
ghost use Rattle.bearer.specs.Acknowledged.Reports.{octets_in, status_octets};
ghost use Rattle.l2_bits.specs.declared.limits.TheConstants.{OCTETS_LIMIT};
ghost use Rattle.rlc_pdu.specs.declared.constants.TheConstants.{AM_MODULUS};

use l2_bits::{Bytes, NoMemory, field};
use rlc_am_rx::AmRx;

/// Writes a STATUS of at most so many octets, and answers its ACK_SN too.
#[tactic(auto, using(crate::proofs::StatusOctets::steps))]
pub(crate) fn write_status(rx: &mut AmRx, size: u32) -> Result<(Bytes, u32), NoMemory>
    requires due { IsTrue (may_write rx.old.state) }
    requires low { 2 ≤ size }
    requires high { size ≤ 9421 }
    ensures pdu { IfOk result
        (λ r. r.0 ≡ status_octets (ack rx.old.state size % AM_MODULUS) (nacks rx.old.state size)) }
    ensures ack { IfOk result (λ r. r.1 ≡ ack rx.old.state size % AM_MODULUS) }
    ensures some { IfOk result (λ r. 1 ≤ length r.0) }
    ensures within { IfOk result (λ r. length r.0 ≤ size) }
    ensures state { OnOk result (rx.new.state ≡ written rx.old.state) }
{
    let pdu = rx.write_status(size)?;
    let ack = ack_of(pdu.as_slice());
    Ok((pdu, ack))
}

// ACK_SN, which has 10 bits behind D/C and CPT (TS 36.322 6.2.1.6); and the octets are those that
// the bits write.
fn ack_of(pdu: &[u8]) -> u32
    requires some { 2 ≤ length pdu.now }
    requires few { length pdu.now < OCTETS_LIMIT }
    ensures value { result ≡ number (take 10 (drop 4 (bits_of pdu.now))) }
    ensures octets { pdu.now ≡ octets_in (length pdu.now) (bits_of pdu.now) }
{
    field(pdu, 4, 10)
}
