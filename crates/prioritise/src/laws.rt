//! What the shares of a grant promise, proved as the contract of a function that does nothing.
ghost use Rattle.std.specs.Prelude.{ℕ, List};
ghost use Rattle.prioritise.specs.Shares.{Bucketed};
ghost use Rattle.prioritise.specs.ShareLaws.{IsSound, IsShared};

/// Shares add up to at most the grant, and none exceeds its need. Round one takes no more from a
/// bucket of a finite rate than it has, and the bucket falls by that. Where the grant is enough for
/// all, each need is met; where it isn't, it is used up. An LCID that isn't there gets 0.
pub fn grant_is_shared()
    ensures { (b : Bucketed) (needs : List ℕ) (grant : ℕ) → IsSound b → IsShared b needs grant }
{}
