//! Laws of the acknowledged channels of a link: what goes up on them, through lives. They speak of
//! the definitions that `l2_node` meets, and do nothing.

ghost use Rattle.law_deliver.specs.AmChannel.Arrival.{ChannelsDeliverWhatCame};
ghost use Rattle.law_deliver.specs.AmChannel.Arrival.{ChannelsDeliverWhatCameUndiscarded};
ghost use Rattle.law_deliver.specs.AmChannel.Delivery.{EndsGoByCalls, ChannelsBegin};
ghost use Rattle.law_deliver.specs.AmChannel.Delivery.{ChannelsDeliverInOrder};
ghost use Rattle.law_deliver.specs.AmChannel.Delivery.{ChannelsDeliverWhatIsTaken};
ghost use Rattle.law_deliver.specs.AmChannel.Delivery.{ChannelsDeliverUndiscarded};
ghost use Rattle.law_deliver.specs.AmChannel.Delivery.{UnsetDiscardsNone, ChannelsDeliver};
ghost use Rattle.law_deliver.specs.AmChannel.Leaving.{ChannelsTellWhatIsTaken};
ghost use Rattle.law_deliver.specs.AmChannel.Drained.{DrainedChannelsHaveDelivered};
ghost use Rattle.law_deliver.specs.AmChannel.Drained.{DrainedEndsHaveDelivered};

/// What the steps of a link make of an end is what its calls in them make of it.
#[tactic(auto, using(crate::proofs::AmChannel::Ends::ends_go_by_calls))]
pub fn ends_go_by_calls()
    ensures { EndsGoByCalls }
{}

/// A channel begins at an end as a bearer is added where there is none.
#[tactic(auto, using(crate::proofs::AmChannel::Delivery::channels_begin))]
pub fn channels_begin()
    ensures { ChannelsBegin }
{}

/// Two ends that have added a bearer of acknowledged data under one configuration and the same
/// keys: whatever calls they get, and from cell to cell where both move under the same keys, what
/// goes up on the channel at an end are SDUs that were submitted at the other, in their order, each
/// once and unchanged. HARQ may lose, repeat and delay blocks; it brings only those that the other
/// end built in this life, and a new one is built only when the blocks under way are those that
/// processes hold.
pub fn channels_deliver_in_order()
    ensures { ChannelsDeliverInOrder }
{}

/// Of those that the bearer takes for the first time none is left out in between.
pub fn channels_deliver_what_is_taken()
    ensures { ChannelsDeliverWhatIsTaken }
{}

/// Nor of those that are submitted, where the end discards none.
pub fn channels_deliver_undiscarded()
    ensures { ChannelsDeliverUndiscarded }
{}

/// An end discards none on a channel on which no discard timer is set; so what goes up at the other
/// is then the front of what is submitted there.
pub fn channels_deliver()
    ensures unset { UnsetDiscardsNone }
    ensures front { ChannelsDeliver }
{}

/// An end holds none of them back that has come: what went up at the other end are exactly the SDUs
/// before the first whose COUNT hasn't come, all octets of its PDU, whole in a life that ended, or
/// with all before it in the one that runs; of those that the bearer took, and where the end
/// discarded none of those that were submitted. What has come is told by the blocks that were built
/// and that came, and by what the end tells as it builds them.
pub fn channels_deliver_what_came()
    ensures taken { ChannelsDeliverWhatCame }
    ensures submitted { ChannelsDeliverWhatCameUndiscarded }
{}

/// Which of the SDUs that are submitted its bearer takes is told as they leave the queue: one that
/// is taken for the first time has the next COUNT, and one that is discarded none. None leaves it
/// that wasn't submitted.
pub fn channels_tell_what_is_taken()
    ensures { ChannelsTellWhatIsTaken }
{}

/// Once a channel is drained at an end, and its sender there hasn't failed, what went up at the
/// other end are all SDUs that its bearer took, and where the end discarded none all that were
/// submitted: in their order, each once and unchanged.
pub fn drained_channels_have_delivered()
    ensures { DrainedChannelsHaveDelivered }
{}

/// So on each such channel of an end that is drained, where its sender hasn't failed.
pub fn drained_ends_have_delivered()
    ensures { DrainedEndsHaveDelivered }
{}
