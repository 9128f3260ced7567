//! What the words of `specs/` promise, proved as the contract of a function that does nothing.
ghost use Rattle.std.specs.Prelude.{ℕ, List};
ghost use Rattle.rlc_queue.specs.Laws.{IsFitting};

/// A new PDU fits its size, its elements and what is left are the octets that waited, and a further
/// SDU gives it one element more exactly where `has_room` says so.
pub fn new_pdu_fits()
    ensures { (head size : ℕ) (sdus : List (List ℕ)) → IsFitting head size sdus }
{}
