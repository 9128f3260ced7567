ghost use Rattle.std.specs.Prelude.{◌≡◌, ◌≤◌, ℕ, List, [], Option, IsOk};
ghost use Rattle.l2_io.specs.Known.{after, HasRisen};
ghost use Rattle.l2_io.specs.Put.{Leaves};

/// Why a put was not done.
#[derive(Clone, Copy, Debug, PartialEq, Eq)]
pub enum PutFault {
    /// The sink failed.
    Failed,
    /// The sink had no memory for the piece.
    NoMemory,
}

impl From<l2_bits::NoMemory> for PutFault {
    ghost use Rattle.l2_io.specs.declared.sink.PutFault.TheVariants.{NoMemory};

    ghost from_gives = { λ _ e. e ≡ NoMemory };

    fn from(_: l2_bits::NoMemory) -> Self {
        PutFault::NoMemory
    }
}

/// Takes octets, piece by piece.
pub trait Sink {
    /// The octets written, where they are known.
    ghost written: { Self → Option (List ℕ) };

    /// How often it has failed. The count never falls, and where it stands at 2^64 - 1 it is read
    /// as having risen.
    ghost faults: { Self → ℕ };

    /// How often it had no memory, counted likewise.
    ghost shortages: { Self → ℕ };

    /// Writes the whole piece, or at `Failed` a front of it, or at `NoMemory` nothing. An empty
    /// piece is always written.
    fn put(&mut self, piece: &[u8]) -> Result<(), PutFault>
        ensures put { (text : List ℕ)
            × Leaves piece.now (HasRisen (faults self.old) (faults self.new))
            (HasRisen (shortages self.old) (shortages self.new)) text result
            × (written self.new ≡ after (written self.old) text) }
        ensures empty { piece.now ≡ [] → IsOk result }
        ensures count { faults self.old ≤ faults self.new }
        ensures shortages { shortages self.old ≤ shortages self.new };
}
