//! What the words of `specs/` promise, each proved as the contract of a function that does nothing.
ghost use Rattle.std.specs.Prelude.{◌≡◌, ℕ, ◌+◌, ◌*◌, ◌<◌, List, Option};
ghost use Rattle.l2_num.specs.Ascending.{IsAscending};
ghost use Rattle.pdcp_pdu.specs.Grammar.{bit_of};
ghost use Rattle.pdcp_rx.specs.Held.{is_held, bitmap};
ghost use Rattle.pdcp_rx.specs.Laws.{Call, gone_up};
ghost use Rattle.pdcp_rx.specs.State.{State};

/// Whatever calls come in a life, the SDUs go up in ascending order of their COUNTs, each COUNT
/// once, and none below the next COUNT as it was before the calls.
pub fn goes_up_in_order()
    ensures { (s : State) (calls : List Call) → IsAscending s.next (gone_up s calls) }
{}

/// Each bit of a bitmap tells whether an SDU is held at its place.
pub fn reports_what_is_held()
    ensures { (held : List (Option (List ℕ))) (at n k : ℕ) → k < 8 * n
        → bit_of (bitmap held at n) k ≡ is_held held (at + k) }
{}
