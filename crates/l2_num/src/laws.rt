//! What the words of `specs/` promise, each proved as the contract of a function that does nothing.
ghost use Rattle.std.specs.Prelude.{◌≡◌, ℕ, ◌<◌, ◌≤◌, ◌+◌, ◌^◌, ◌%◌, ◌==◌, Bool, true, false, suc};
ghost use Rattle.std.specs.Prelude.{Some};
ghost use Rattle.l2_num.specs.Numbers.{recovered};
ghost use Rattle.l2_num.specs.Least.{IsLeast, past};
ghost use Rattle.l2_num.specs.Timers.{Clock, begun, ends, after_ticks};

/// A number within a window is recovered from its reduced form, for every count of bits and every
/// width up to the whole circle.
pub fn reduced_number_is_recovered()
    ensures { (next n bits width : ℕ) → next ≤ n → n < next + width → width ≤ 2 ^ bits
        → recovered next (n % 2 ^ bits) bits width ≡ Some n }
{}

/// The first number from `p` on that a test refuses: a search finds it, there is one alone, it
/// never falls where the test accepts more or the search begins later, accepting another number
/// leaves it, and where it is accepted itself the search goes on behind it.
pub fn least_number()
    ensures found { (passes : ℕ → Bool) (p fuel : ℕ) → passes (p + fuel) ≡ false
        → IsLeast passes p (past passes fuel p) }
    ensures one { (passes : ℕ → Bool) (p q r : ℕ) → IsLeast passes p q → IsLeast passes p r
        → q ≡ r }
    ensures grows { (passes more : ℕ → Bool) (p q r : ℕ)
        → ((n : ℕ) → passes n ≡ true → more n ≡ true) → IsLeast passes p q → IsLeast more p r
        → q ≤ r }
    ensures later { (passes : ℕ → Bool) (p p' q r : ℕ) → p ≤ p' → IsLeast passes p q
        → IsLeast passes p' r → q ≤ r }
    ensures stays { (passes more : ℕ → Bool) (p q : ℕ) → ((n : ℕ) → passes n ≡ true → more n ≡ true)
        → more q ≡ false → IsLeast passes p q → IsLeast more p q }
    ensures moves { (passes more : ℕ → Bool) (p q r : ℕ)
        → ((n : ℕ) → passes n ≡ true → more n ≡ true) → IsLeast passes p q → more q ≡ true
        → IsLeast more (q + 1) r → IsLeast more p r }
{}

/// A timer that was set reaches its end at the tick that its length counts, and at no other: with
/// length 0 at none.
pub fn timer_ends_once()
    ensures { (c : Clock) (k : ℕ) → ends (after_ticks k (begun c)) ≡ (suc k == c.length) }
{}
