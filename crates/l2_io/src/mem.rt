ghost use Rattle.std.specs.Prelude.{◌≡◌, ◌↔◌, ◌+◌, ◌<◌, ◌≤◌, ℕ, Some, Err, List, [], length, take};
ghost use Rattle.std.specs.Prelude.{drop, IfOk, IsOk, OnErr, IsErr, Contains, IsTrue};
ghost use Rattle.l2_io.specs.Known.{before, after, IsAtEnd, HasRisen};
ghost use Rattle.l2_io.specs.Put.{Leaves};
ghost use Rattle.l2_io.specs.Machines.{Giver, Taker, given_count, gave, gave_none, took, IsFailing};
ghost use Rattle.l2_io.specs.declared.sink.PutFault.TheVariants as faults;

use super::give::give;
use super::{Failed, PutFault, Sink, Source};
use l2_bits::{Bytes, NoMemory};
use std::alloc::Global;
use std::marker::Model;

/// A source over octets in memory, whose listed reads fail, counted from 0.
#[derive(Drop)]
pub struct MemSource {
    octets: Bytes,
    at: usize,
    most: usize,
    calls: u64,
    fails: Vec<u32>,
    faults: u64,
}

impl Model for MemSource {
    ghost use Rattle.std.specs.Prelude.{◌<◌, ◌≤◌, length, drop};
    ghost use Rattle.l2_io.specs.Machines.{Giver};

    ghost Value = { Giver };

    ghost view = { λ m. record {
      octets = drop m.at m.octets;
      most = m.most;
      calls = m.calls;
      fails = m.fails.items;
      faults = m.faults;
    } };

    ghost invariant = { λ m. (m.at ≤ length m.octets) × (0 < m.most) };
}

impl MemSource {
    /// A source of these octets. One read gives at most `chunk` of them, and the reads with the
    /// numbers of `fail_at` fail.
    pub fn new(
        alloc: Global,
        octets: &[u8],
        chunk: usize,
        fail_at: &[u32],
    ) -> Result<MemSource, NoMemory>
        requires { 0 < chunk }
        ensures { IfOk result (λ m. m ≡ record {
          octets = octets.now;
          most = chunk;
          calls = 0;
          fails = fail_at.now;
          faults = 0;
        }) }
    {
        Ok(MemSource {
            octets: Bytes::from_slice(alloc, octets)?,
            at: 0,
            most: chunk,
            calls: 0,
            fails: Vec::from_slice(alloc, fail_at)?,
            faults: 0,
        })
    }
}

fn is_listed(fails: &[u32], call: u64) -> bool
    ensures { IsTrue result ↔ Contains fails.now call }
{
    fails.iter().any(|at| u64::from(*at) == call)
}

impl Source for MemSource {
    ghost left = { λ m. Some m.octets };

    ghost faults = { λ m. m.faults };

    fn read(&mut self, into: &mut [u8]) -> Result<usize, Failed>
        requires { 0 < length into.old }
        ensures bound { IfOk result (λ n. n ≤ length into.new) }
        ensures given { IfOk result (λ n. Some self.old.octets
            ≡ before (take n into.new) (Some self.new.octets)) }
        ensures end { IfOk result (λ n. n ≡ 0 → IsAtEnd (Some self.new.octets)) }
        ensures kept { OnErr result (Some self.new.octets ≡ Some self.old.octets) }
        ensures cause { OnErr result (HasRisen self.old.faults self.new.faults) }
        ensures count { self.old.faults ≤ self.new.faults }

        // Just the listed reads fail.
        ensures fails { IsErr result ↔ Contains self.old.fails self.old.calls }
        ensures failed { OnErr result (self.new ≡ gave_none self.old) }
        ensures read { IfOk result
            (λ n. (n ≡ given_count self.old.octets self.old.most (length into.old))
            × (self.new ≡ gave self.old n)) }
    {
        let call = self.calls;
        self.calls = call.saturating_add(1);
        if is_listed(&self.fails, call) {
            self.faults = self.faults.saturating_add(1);
            return Err(Failed);
        }
        let count = give(self.octets.as_slice(), self.at, self.most, into);
        self.at += count;
        Ok(count)
    }
}

/// A sink in memory, whose listed puts fail, counted from 0.
#[derive(Drop)]
pub struct MemSink {
    octets: Bytes,
    calls: u64,
    fails: Vec<u32>,
    faults: u64,
    shortages: u64,
}

impl Model for MemSink {
    ghost use Rattle.l2_io.specs.Machines.{Taker};

    ghost Value = { Taker };

    ghost view = { λ m. record {
      octets = m.octets;
      calls = m.calls;
      fails = m.fails.items;
      faults = m.faults;
      shortages = m.shortages;
    } };
}

impl MemSink {
    /// A sink with nothing written. The puts with the numbers of `fail_at` fail, but for those of
    /// an empty piece, and write nothing.
    pub fn new(alloc: Global, fail_at: &[u32]) -> Result<MemSink, NoMemory>
        ensures { IfOk result (λ m. m ≡ record {
          octets = [];
          calls = 0;
          fails = fail_at.now;
          faults = 0;
          shortages = 0;
        }) }
    {
        Ok(MemSink {
            octets: Bytes::new(alloc),
            calls: 0,
            fails: Vec::from_slice(alloc, fail_at)?,
            faults: 0,
            shortages: 0,
        })
    }

    /// The octets written.
    pub fn written(&self) -> &[u8]
        ensures { result.now ≡ self.now.octets }
    {
        self.octets.as_slice()
    }
}

impl Sink for MemSink {
    ghost written = { λ m. Some m.octets };

    ghost faults = { λ m. m.faults };

    ghost shortages = { λ m. m.shortages };

    fn put(&mut self, piece: &[u8]) -> Result<(), PutFault>
        ensures put { (text : List ℕ)
            × Leaves piece.now (HasRisen self.old.faults self.new.faults)
            (HasRisen self.old.shortages self.new.shortages) text result
            × (Some self.new.octets ≡ after (Some self.old.octets) text) }
        ensures empty { piece.now ≡ [] → IsOk result }
        ensures count { self.old.faults ≤ self.new.faults }
        ensures shortages { self.old.shortages ≤ self.new.shortages }

        // Just the listed puts fail.
        ensures fails { (result ≡ Err faults.Failed) ↔ IsFailing self.old piece.now }
        ensures took { self.new ≡ took self.old piece.now result }
    {
        let call = self.calls;
        self.calls = call.saturating_add(1);
        if piece.is_empty() {
            return Ok(());
        }
        if is_listed(&self.fails, call) {
            self.faults = self.faults.saturating_add(1);
            return Err(PutFault::Failed);
        }
        if self.octets.append(piece).is_err() {
            self.shortages = self.shortages.saturating_add(1);
            return Err(PutFault::NoMemory);
        }
        Ok(())
    }
}
