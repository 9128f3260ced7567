//! Laws of delivery: both ends of a bearer of acknowledged data through lives, with what is under
//! way between them. They speak of the definitions that `bearer` meets, and do nothing.

ghost use Rattle.law_deliver.specs.AmDelivery.Arrival.{DeliversWhatCame};
ghost use Rattle.law_deliver.specs.AmDelivery.Delivery.{BearersArePdcpFlows, DeliversInOrder};
ghost use Rattle.law_deliver.specs.AmDelivery.Drained.{DrainedHasDelivered};
ghost use Rattle.law_deliver.specs.AmDelivery.Ends.{EndsAreReached, DeliversSubmitted};

/// In each direction, through all lives and between any two steps, PDCP's sender at an end and
/// PDCP's receiver at the other are those of a flow, whatever is lost, repeated and delayed: its
/// SDUs are those that the one took for the first time, and what went up of it is what went up at
/// the other.
pub fn bearers_are_pdcp_flows()
    ensures { BearersArePdcpFlows }
{}

/// So what went up at an end are the SDUs that the other took first: in their order, each once and
/// unchanged.
pub fn delivers_in_order()
    ensures { DeliversInOrder }
{}

/// An end holds none of them back that has come: what went up are exactly the SDUs before the first
/// whose COUNT hasn't come, all octets of its PDU, whole in a life that ended, or with all before
/// it in the one that runs. What has come is told by the PDUs that were written and that came, and
/// by those that PDCP gave.
pub fn delivers_what_came()
    ensures { DeliversWhatCame }
{}

/// Each end is what its bearer comes to by its own calls, as it is configured, and by the ends of
/// its lives.
pub fn ends_are_reached()
    ensures { EndsAreReached }
{}

/// Where an end discarded no SDU, what went up at the other are the SDUs that were submitted first:
/// in their order, each once and unchanged.
pub fn delivers_what_was_submitted()
    ensures { DeliversSubmitted }
{}

/// Once an end is drained, and its sender hasn't failed, all SDUs that it took have gone up at the
/// other: in their order, each once and unchanged. None waits, so where it discarded none they are
/// all that were submitted.
pub fn drained_has_delivered()
    ensures { DrainedHasDelivered }
{}
