ghost use Rattle.std.specs.Prelude.{◌≡◌, ◌<◌, ◌≤◌, ℕ, List, Option, length, take, IfOk, OnErr};
ghost use Rattle.l2_io.specs.Known.{before, IsAtEnd, HasRisen};

/// A read that failed.
#[derive(Clone, Copy, Debug, PartialEq, Eq)]
pub struct Failed;

/// Gives octets, piece by piece.
pub trait Source {
    /// The octets left, where they are known.
    ghost left: { Self → Option (List ℕ) };

    /// How often it has failed. The count never falls, and where it stands at 2^64 - 1 it is read
    /// as having risen.
    ghost faults: { Self → ℕ };

    /// Gives some of the octets left, and tells how many. `Ok(0)` is the end. A fault takes none.
    fn read(&mut self, into: &mut [u8]) -> Result<usize, Failed>
        requires { 0 < length into.old }
        ensures bound { IfOk result (λ n. n ≤ length into.new) }
        ensures given { IfOk result (λ n. left self.old ≡ before (take n into.new) (left self.new)) }
        ensures end { IfOk result (λ n. n ≡ 0 → IsAtEnd (left self.new)) }
        ensures kept { OnErr result (left self.new ≡ left self.old) }
        ensures cause { OnErr result (HasRisen (faults self.old) (faults self.new)) }
        ensures count { faults self.old ≤ faults self.new };

    /// Whether octets are at hand, so that the next read waits for nothing. A source that doesn't
    /// know says no.
    fn is_ready(&self) -> bool {
        false
    }
}
