//! Laws of the unacknowledged channels of a link: what goes up on them while losses are short,
//! through lives. They speak of the definitions that `l2_node` meets, and do nothing.

ghost use Rattle.law_deliver.specs.UmChannel.Delivery.{ChannelsDeliverWhatCame};
ghost use Rattle.law_deliver.specs.UmChannel.Delivery.{ChannelsDeliverInOrder};

/// Two ends that have added a bearer of unacknowledged data under one configuration and the same
/// keys: whatever calls they get, and from cell to cell where both move under the same keys, what
/// goes up on the channel at an end are just the SDUs whose PDUs RLC hands up there, told by their
/// places among those that the other end took, as long as losses are short in that direction: in
/// their order, each once and unchanged. HARQ may lose, repeat and delay blocks; it brings only
/// those that the other end built in this life, and a new one is built only when the blocks under
/// way are those that processes hold.
#[tactic(auto, using(crate::proofs::UmChannel::Delivery::channels_deliver_what_came))]
pub fn channels_deliver_what_came()
    ensures { ChannelsDeliverWhatCame }
{}

/// So they are some of the SDUs that were submitted at the other: in order, each once and
/// unchanged.
#[tactic(auto, using(crate::proofs::UmChannel::Delivery::channels_deliver_in_order))]
pub fn channels_deliver_in_order()
    ensures { ChannelsDeliverInOrder }
{}
