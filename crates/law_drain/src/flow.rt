//! One acknowledged flow in a drain, its sender at one end and its receiver at the other. The law
//! speaks of the machines that `rlc_am_tx` and `rlc_am_rx` meet.

ghost use Rattle.law_drain.specs.Flow.{RoundsCost};

/// Three times what the sender owes, what is pending at the receiver and whether the sender is
/// quiet: this measure of a flow falls in a round by one for each data PDU, and rises with no call
/// but an offer. Without data it falls as what was pending settles, and as the poll timer of a
/// quiet sender expires.
pub fn rounds_cost()
    ensures { RoundsCost }
{}
