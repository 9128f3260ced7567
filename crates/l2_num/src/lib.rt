//! Modular numbers, COUNTs and timers.
//!
//! PDUs carry numbers that are reduced modulo a power of two. What is kept is the true number,
//! counted from 0 without end; these functions read one from the other.
#![tactic(auto)]

ghost use Rattle.std.specs.Prelude.{◌≡◌, ℕ, ◌<◌, ◌≤◌, ◌+◌, ◌-◌, ◌^◌, ◌↔◌, IsTrue, IfSome, Some};
ghost use Rattle.l2_num.specs.Numbers.{ahead, recovered, IsRecovered, IsSeenAs};

mod count;
pub mod laws;
mod timer;

pub use count::Count;
pub use timer::Timer;

/// How far `x` lies above `base`: `x - base` modulo `size`, for both below `size`.
pub fn ahead(x: u32, base: u32, size: u32) -> u32
    requires x { x < size }
    requires base { base < size }
    ensures value { result ≡ ahead x base size }

    // Of two true numbers less than `size` apart it is the difference.
    ensures difference { (low n : ℕ) → IsSeenAs low n size base x → result ≡ n - low }
{
    if base <= x {
        x - base
    } else {
        size - (base - x)
    }
}

/// Whether `x` lies less than `width` above `base`, modulo `size`, for both below `size`.
pub fn in_window(x: u32, base: u32, width: u32, size: u32) -> bool
    requires x { x < size }
    requires base { base < size }
    ensures value { IsTrue result ↔ (ahead x base size < width) }

    // Of two true numbers less than `size` apart: the one lies in the window that the other begins.
    ensures window { (low n : ℕ) → IsSeenAs low n size base x
        → (IsTrue result ↔ (n < low + width)) }
{
    ahead(x, base, size) < width
}

/// The true number that `sn` stands for: the one with that SN of `bits` bits at or above `next`
/// and below `next + width`. None exactly where there is none.
///
/// `bits` is 1 to 31, `sn` below 2^`bits`, `width` at most 2^`bits` and `next` below 2^63.
pub fn recover(next: u64, sn: u32, bits: u32, width: u64) -> Option<u64>
    requires bits { (1 ≤ bits) × (bits ≤ 31) }
    requires sn { sn < 2 ^ bits }
    requires width { width ≤ 2 ^ bits }
    requires next { next < 2 ^ 63 }
    ensures value { result ≡ recovered next sn bits width }
    ensures sound { IfSome result (IsRecovered next sn bits width) }
    ensures complete { (n : ℕ) → IsRecovered next sn bits width n → result ≡ Some n }
{
    let size = power(bits);
    let ahead = distance(next % size, sn as u64, size);
    if ahead < width {
        Some(next + ahead)
    } else {
        None
    }
}

// From `low` up to `sn`, modulo `size`.
fn distance(low: u64, sn: u64, size: u64) -> u64
    requires low { low < size }
    requires sn { sn < size }
    requires size { size < 2 ^ 32 }
    ensures value { result ≡ ahead sn low size }
    ensures within { result < size }
{
    if low <= sn { sn - low } else { sn + size - low }
}

fn power(bits: u32) -> u64
    requires { bits ≤ 31 }
    ensures value { result ≡ 2 ^ bits }
    ensures small { result < 2 ^ 32 }
{
    1u64 << bits
}

#[cfg(test)]
mod tests {
    use super::*;
    use std::test::Fail;

    // Each row is next, the SN, its bits, the width, and the number that is wanted.
    #[test]
    fn recovers_numbers_of_each_width(rt: HostRuntime) -> Result<(), Fail> {
        let rows = [
            (31, 0, 5, 32, Some(32)),
            (40, 7, 5, 16, None),
            (130, 1, 7, 128, Some(257)),
            (1500, 987, 10, 512, Some(2011)),
            (1500, 988, 10, 512, None),
            (4095, 0, 12, 2048, Some(4096)),
            (1, 0, 12, 2048, None),
            (32767, 16382, 15, 16384, Some(49150)),
            (32767, 16383, 15, 16384, None),
        ];
        for (next, sn, bits, width, want) in rows {
            assert_eq!(rt; recover(next, sn, bits, width), want, "SN {sn} from {next}");
        }
        assert_eq!(rt; ahead(3, 1020, 1024), 7);
        assert!(rt; in_window(3, 1020, 8, 1024) && !in_window(3, 1020, 7, 1024));
        Ok(())
    }

    #[test]
    fn counts_to_the_last_and_no_further(rt: HostRuntime) -> Result<(), Fail> {
        let count = Count::from_whole(0x12fff, 12);
        assert_eq!(rt;
            (count.hfn, count.sn, count.whole()),
            (0x12, 0xfff, 0x12fff)
        );
        assert_eq!(rt;
            count.next().map(|after| (after.hfn, after.sn)),
            Some((0x13, 0))
        );
        assert_eq!(rt; Count::from_whole(u32::MAX, 7).next(), None);
        Ok(())
    }

    #[test]
    fn ends_at_the_tick_of_its_length(rt: HostRuntime) -> Result<(), Fail> {
        let mut timer = Timer::new(3);
        timer.begin();
        assert!(rt;
            !timer.tick() && !timer.tick() && timer.tick() && !timer.tick() && timer.runs()
        );
        timer.cease();
        assert!(rt; !timer.runs() && !timer.tick());
        Ok(())
    }
}
