//! Laws of the unacknowledged machines of `rlc_um`, over any list of calls, each proved as the
//! contract of a function that does nothing.

ghost use Rattle.std.specs.Prelude.{List, ℕ, ◌<◌, ◌≤◌, Option};
ghost use Rattle.rlc_pdu.specs.Pdus.{UmdPdu, IsUmBits};
ghost use Rattle.rlc_um.specs.Joined.{Parts};
ghost use Rattle.rlc_um.specs.Sender.{width_of};
ghost use Rattle.law_rlc.specs.UmPair.Run.{Call, run_um_receiver, fresh, IsEdge, IsHandedUp};
ghost use Rattle.law_rlc.specs.UmPair.Run.{IsFinished};
ghost use Rattle.law_rlc.specs.UmPair.Run.{IsBounded, IsTimed};
ghost use Rattle.law_rlc.specs.UmPair.Send.{Step, flow, at_first, IsWhole};
ghost use Rattle.law_rlc.specs.UmPair.Loss.{IsOrdered};
ghost use Rattle.law_rlc.specs.UmPair.Search.{IsSearch};
ghost use Rattle.law_rlc.specs.UmPair.Air.{GoUpInOrder, ReadsTrueNumbers};
ghost use Rattle.law_rlc.specs.UmPair.Read.{ReadsNumbers};
ghost use Rattle.law_rlc.specs.UmPair.Which.{HandsUpWhatCame, MoreGoUpLater};

/// Whatever calls come, VR(UR) is the least number at or above the base that isn't accepted, and
/// VR(UH) is one above the greatest number that was read.
pub fn edge_is_least()
    ensures { (width reorder : ℕ) → 0 < width → (calls : List Call)
        → IsEdge (run_um_receiver calls (fresh width reorder)) }
{}

/// Whatever calls come, no more PDUs are kept than the window has numbers.
pub fn keeps_a_window()
    ensures { (width reorder : ℕ) → 0 < width → (calls : List Call)
        → IsBounded (run_um_receiver calls (fresh width reorder)) }
{}

/// Whatever calls come, the reordering timer runs exactly while a number below VR(UH) is missing.
pub fn timer_runs_at_a_gap()
    ensures { (width reorder : ℕ) → 0 < width → (calls : List Call)
        → IsTimed (run_um_receiver calls (fresh width reorder)) }
{}

/// What went up and what may go up are the joined SDUs of the accepted numbers below VR(UR), in
/// order, each once.
pub fn joined_is_handed_up()
    ensures { (width reorder : ℕ) → 0 < width → (calls : List Call)
        → IsHandedUp (run_um_receiver calls (fresh width reorder)) }
{}

/// As a receiver ends, what went up and what it hands over are the joined SDUs of all accepted
/// numbers.
pub fn all_is_joined()
    ensures { (width reorder : ℕ) → 0 < width → (calls : List Call)
        → IsFinished (run_um_receiver calls (fresh width reorder)) }
{}

/// Joining is the search for elements that follow each other, in PDUs of which none between is
/// missing, from one that begins an SDU to the next one that ends it.
pub fn joining_is_a_search()
    ensures { (numbers : List (Option Parts)) → IsSearch numbers }
{}

/// A sequence number is read as the one number in the window around the top that has it.
pub fn number_is_read()
    ensures { ReadsNumbers }
{}

/// Whatever is offered and taken, the PDUs, numbered from 0, join to the SDUs that were offered,
/// each once and unchanged, up to those that wait.
pub fn joined_is_offered()
    ensures { (bits : ℕ) (steps : List Step) → IsWhole bits (flow steps (at_first bits)) }
{}

/// Whatever numbers are lost, what is joined are some of the SDUs that were offered, in order and
/// unchanged.
pub fn joined_is_in_order()
    ensures { (bits : ℕ) (steps : List Step) → IsOrdered (flow steps (at_first bits)) }
{}

/// Over an air that loses, repeats and turns about a sender's PDUs, but keeps each near the top,
/// the SDUs that go up, also as the receiver ends, are some of those that were offered, in order,
/// each once and unchanged.
pub fn delivered_in_order()
    ensures { GoUpInOrder }
{}

/// Over such an air each PDU is read as the number that it has.
pub fn reads_true_numbers()
    ensures { ReadsTrueNumbers }
{}

/// Over such an air the SDUs that go up are just those all of whose elements came in numbers below
/// VR(UR), and as the receiver ends those all of whose elements came.
pub fn hands_up_what_came()
    ensures { HandsUpWhatCame }
{}

/// Whatever is offered, taken and called later, the SDUs that came whole so far stay those, and
/// others only follow them.
pub fn more_go_up_later()
    ensures { MoreGoUpLater }
{}
