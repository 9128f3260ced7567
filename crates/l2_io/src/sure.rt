ghost use Rattle.std.specs.Prelude.{◌≡◌, ◌≢◌, ◌<◌, ◌≤◌, ℕ, Some, Err, List, [], length, take, drop};
ghost use Rattle.std.specs.Prelude.{IfOk, IsOk, OnErr};
ghost use Rattle.l2_io.specs.Known.{before, after, IsAtEnd, HasRisen};
ghost use Rattle.l2_io.specs.Put.{Leaves};
ghost use Rattle.l2_io.specs.Machines.{Keeper, kept, given_count};
ghost use Rattle.l2_io.specs.declared.sink.PutFault.TheVariants as faults;

use super::give::give;
use super::{Failed, PutFault, Sink, Source};
use l2_bits::{Bytes, NoMemory};
use std::alloc::Global;
use std::marker::Model;

/// A source over octets in memory that doesn't fail.
#[derive(Drop)]
pub struct SureSource {
    octets: Bytes,
    at: usize,
    most: usize,
}

impl Model for SureSource {
    ghost use Rattle.std.specs.Prelude.{length, drop, ◌≤◌, ◌<◌};
    ghost use Rattle.l2_io.specs.Machines.{SureGiver};

    ghost Value = { SureGiver };

    ghost view = { λ s. record { octets = drop s.at s.octets; most = s.most } };

    ghost invariant = { λ s. (s.at ≤ length s.octets) × (0 < s.most) };
}

impl SureSource {
    /// A source of these octets, of which one read gives at most `chunk`.
    pub fn new(alloc: Global, octets: &[u8], chunk: usize) -> Result<SureSource, NoMemory>
        requires { 0 < chunk }
        ensures { IfOk result (λ s. s ≡ record { octets = octets.now; most = chunk }) }
    {
        Ok(SureSource {
            octets: Bytes::from_slice(alloc, octets)?,
            at: 0,
            most: chunk,
        })
    }
}

impl Source for SureSource {
    ghost left = { λ s. Some s.octets };

    ghost faults = { λ _. 0 };

    fn read(&mut self, into: &mut [u8]) -> Result<usize, Failed>
        requires { 0 < length into.old }
        ensures bound { IfOk result (λ n. n ≤ length into.new) }
        ensures given { IfOk result (λ n. Some self.old.octets
            ≡ before (take n into.new) (Some self.new.octets)) }
        ensures end { IfOk result (λ n. n ≡ 0 → IsAtEnd (Some self.new.octets)) }
        ensures kept { OnErr result (Some self.new.octets ≡ Some self.old.octets) }
        ensures cause { OnErr result (HasRisen 0 0) }
        ensures count { 0 ≤ 0 }
        ensures fails { IsOk result }
        ensures read { IfOk result
            (λ n. (n ≡ given_count self.old.octets self.old.most (length into.old))
            × (self.new ≡ record self.old { octets = drop n self.old.octets })) }
    {
        let count = give(self.octets.as_slice(), self.at, self.most, into);
        self.at += count;
        Ok(count)
    }
}

/// A sink in memory that doesn't fail.
#[derive(Drop)]
pub struct SureSink {
    octets: Bytes,
    shortages: u64,
}

impl Model for SureSink {
    ghost use Rattle.l2_io.specs.Machines.{Keeper};

    ghost Value = { Keeper };

    ghost view = { λ s. record { octets = s.octets; shortages = s.shortages } };
}

impl SureSink {
    /// A sink with nothing written. It takes no memory.
    pub fn new(alloc: Global) -> SureSink
        ensures { result ≡ record { octets = []; shortages = 0 } }
    {
        SureSink {
            octets: Bytes::new(alloc),
            shortages: 0,
        }
    }

    /// The octets written.
    pub fn written(&self) -> &[u8]
        ensures { result.now ≡ self.now.octets }
    {
        self.octets.as_slice()
    }

    /// Takes out all that was written, and keeps the memory for what comes.
    pub fn clear(&mut self)
        ensures { self.new ≡ record self.old { octets = [] } }
    {
        self.octets.clear();
    }
}

impl Sink for SureSink {
    ghost written = { λ s. Some s.octets };

    ghost faults = { λ _. 0 };

    ghost shortages = { λ s. s.shortages };

    fn put(&mut self, piece: &[u8]) -> Result<(), PutFault>
        ensures put { (text : List ℕ)
            × Leaves piece.now (HasRisen 0 0) (HasRisen self.old.shortages self.new.shortages) text
            result
            × (Some self.new.octets ≡ after (Some self.old.octets) text) }
        ensures empty { piece.now ≡ [] → IsOk result }
        ensures count { 0 ≤ 0 }
        ensures shortages { self.old.shortages ≤ self.new.shortages }
        ensures fails { result ≢ Err faults.Failed }
        ensures kept { self.new ≡ kept self.old piece.now result }
    {
        if piece.is_empty() {
            return Ok(());
        }
        if self.octets.append(piece).is_err() {
            self.shortages = self.shortages.saturating_add(1);
            return Err(PutFault::NoMemory);
        }
        Ok(())
    }
}
