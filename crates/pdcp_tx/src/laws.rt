//! Laws of the machine that the calls meet. The functions do nothing.

ghost use Rattle.std.specs.Prelude.{◌≡◌, List, drop};
ghost use Rattle.l2_num.specs.Ascending.{IsAscending};
ghost use Rattle.pdcp_tx.specs.State.{State, offers, took};
ghost use Rattle.pdcp_tx.specs.Runs.{Call, taken, IsOrdered};

/// The law that each take is the head of what may be taken, and leaves the rest of it.
pub fn takes_the_head()
    ensures { (s : State) → offers (took s) ≡ drop 1 (offers s) }
{}

/// The law that the COUNTs that are taken in a life ascend, whatever calls come; so none is taken
/// twice.
pub fn takes_in_order()
    ensures { (s : State) (calls : List Call) → IsOrdered s → IsAscending 0 (taken s calls) }
{}
