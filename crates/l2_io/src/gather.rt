ghost use Rattle.std.specs.Prelude.{◌≡◌, ◌≤◌, ◌↔◌, ℕ, Some, List, [], length, IsTrue, IsOk};
ghost use Rattle.l2_io.specs.Known.{after, HasRisen};
ghost use Rattle.l2_io.specs.Put.{Leaves};
ghost use Rattle.l2_io.specs.Machines.{Keeper, kept, held_after};

use super::{PutFault, Sink, SureSink};
use std::alloc::Global;
use std::marker::Model;

/// So many octets are worth a put.
const PIECE: usize = 65_536;

/// A sink that gathers what is put to it, so that a sink below takes it in large pieces.
///
/// What it holds follows what the sink below has written. Its puts never fail but for want of
/// memory, and only [`flush`](Self::flush) puts to the sink below.
#[derive(Drop)]
pub struct GatherSink {
    held: SureSink,
}

impl Model for GatherSink {
    ghost use Rattle.l2_io.specs.Machines.{Keeper};

    ghost Value = { Keeper };

    ghost view = { λ g. g.held };
}

impl GatherSink {
    /// A sink that holds nothing. It takes no memory.
    pub fn new(alloc: Global) -> GatherSink
        ensures { result ≡ record { octets = []; shortages = 0 } }
    {
        GatherSink {
            held: SureSink::new(alloc),
        }
    }

    /// The octets held.
    pub fn held(&self) -> &[u8]
        ensures { result.now ≡ self.now.octets }
    {
        self.held.written()
    }

    /// Whether so much is held that it is worth a put: 65,536 octets.
    pub fn is_full(&self) -> bool
        ensures { IsTrue result ↔ (65536 ≤ length self.now.octets) }
    {
        PIECE <= self.held().len()
    }

    /// Puts all that is held to the sink below, in one piece, and nothing where nothing is held.
    ///
    /// After `Failed` nothing is held either, since it isn't known what the sink below has written
    /// of it, and nothing may be put twice. After `NoMemory` all is still held.
    pub fn flush<K: Sink>(&mut self, below: &mut K) -> Result<(), PutFault>
        ensures put { (text : List ℕ)
            × Leaves self.old.octets (HasRisen (K.faults below.old) (K.faults below.new))
            (HasRisen (K.shortages below.old) (K.shortages below.new)) text result
            × (K.written below.new ≡ after (K.written below.old) text) }
        ensures held { self.new ≡ record self.old { octets = held_after self.old.octets result } }
        ensures empty { self.old.octets ≡ [] → IsOk result × (below.new ≡ below.old) }
        ensures count { K.faults below.old ≤ K.faults below.new }
        ensures shortages { K.shortages below.old ≤ K.shortages below.new }
    {
        if self.held().is_empty() {
            return Ok(());
        }
        let answer = below.put(self.held());
        if answer != Err(PutFault::NoMemory) {
            self.held.clear();
        }
        answer
    }
}

impl Sink for GatherSink {
    ghost written = { λ g. Some g.octets };

    ghost faults = { λ _. 0 };

    ghost shortages = { λ g. g.shortages };

    fn put(&mut self, piece: &[u8]) -> Result<(), PutFault>
        ensures put { (text : List ℕ)
            × Leaves piece.now (HasRisen 0 0) (HasRisen self.old.shortages self.new.shortages) text
            result
            × (Some self.new.octets ≡ after (Some self.old.octets) text) }
        ensures empty { piece.now ≡ [] → IsOk result }
        ensures count { 0 ≤ 0 }
        ensures shortages { self.old.shortages ≤ self.new.shortages }
        ensures kept { self.new ≡ kept self.old piece.now result }
    {
        self.held.put(piece)
    }
}
