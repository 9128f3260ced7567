//! Laws of the signalling channels of a link: what goes up on them in each life. They speak of the
//! definitions that `l2_node` meets, and do nothing.

ghost use Rattle.law_deliver.specs.SrbChannel.Delivery.{ChannelsDeliverTheFront};
ghost use Rattle.law_deliver.specs.SrbChannel.Delivery.{DrainedChannelsHaveDelivered};
ghost use Rattle.law_deliver.specs.SrbChannel.Delivery.{NothingGoesUpBetween, NothingIsLost};
ghost use Rattle.law_deliver.specs.SrbChannel.Delivery.{ChannelsDeliverInSequence};

/// Two ends that have added a signalling bearer under one configuration and the same keys: whatever
/// calls they get, and from cell to cell where both move under the same keys, what has gone up on
/// the channel at an end in the running life are the SDUs that were submitted first at the other in
/// it: in their order, each once and unchanged, and none left out. HARQ may lose, repeat and delay
/// blocks; it brings only those that the other end built in this life, and a new one is built only
/// when the blocks under way are those that processes hold.
pub fn channels_deliver_the_front()
    ensures { ChannelsDeliverTheFront }
{}

/// They are exactly those before the first whose PDU hasn't come since the life began, as the
/// blocks tell: those that the one end built, and those that came to the other.
pub fn channels_deliver_in_sequence()
    ensures { ChannelsDeliverInSequence }
{}

/// Once the channel is drained at an end, and its sender there hasn't failed, they are all that
/// were submitted there in the life.
pub fn drained_channels_have_delivered()
    ensures { DrainedChannelsHaveDelivered }
{}

/// As a life ends nothing goes up on it.
pub fn nothing_goes_up_between()
    ensures { NothingGoesUpBetween }
{}

/// In no life a PDU of PDCP is lost as an end receives it: each can be read, its MAC-I agrees, and
/// its COUNT is the one that is awaited; nor as a life ends.
pub fn nothing_is_lost()
    ensures { NothingIsLost }
{}
