//! Laws of the losses of unacknowledged channels: what `um_losses` makes of the steps of two ends,
//! which records tell, is what the premises of delivery ask for. They speak of the definitions that
//! `l2_node` and `um_losses` meet, and do nothing.

ghost use Rattle.law_deliver.specs.UmGaps.Delivery.{LossesAreTold, ChannelsDeliverAsTold};

/// Two ends that have added a bearer of unacknowledged data under one configuration and the same
/// keys: whatever calls they get, and from cell to cell where both move under the same keys, where
/// the flow that is told of a direction, from the PDUs that are written, those that come and the
/// expiries of the reordering timer, has no long gap, the losses in that direction are short: each
/// PDU that comes has a number less than a window above the highest that came, and RLC hands up
/// PDUs with fewer COUNTs between them than PDCP has sequence numbers.
#[tactic(auto, using(crate::proofs::UmGaps::Delivery::losses_are_told))]
pub fn losses_are_told()
    ensures { LossesAreTold }
{}

/// So what goes up on the channel at an end are some of the SDUs that were submitted at the other:
/// in order, each once and unchanged.
pub fn channels_deliver_as_told()
    ensures { ChannelsDeliverAsTold }
{}
