use bearer_types::Events;
use l2_bits::Packets;

/// What a bearer writes into a block.
#[derive(Drop)]
pub struct Written {
    /// Its RLC PDUs, a STATUS first.
    pub pdus: Packets,
    /// The whole number of its data PDU, counted from 0 in the life; a transparent bearer tells
    /// none.
    pub number: Option<u64>,
    /// What that tells.
    pub events: Events,
}
