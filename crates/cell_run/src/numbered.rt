ghost use Rattle.std.specs.Prelude.{◌≡◌, ◌<◌, ◌≤◌, ◌^◌, ◌++◌, [], OnOk, IfSome, MatchOption};
ghost use Rattle.l2_io.specs.Feeds.{from_feed, IsFeedAt};
ghost use Rattle.l2_io.specs.Known.{HasRisen};
ghost use Rattle.cell_run.specs.Acting.{PutsText};
ghost use Rattle.cell_run.specs.Entries.{numbered};
ghost use Rattle.cell_text.specs.declared.line.TheConstants.{MOST_USERS};

use crate::fault::CellFault;
use l2_bits::{Bytes, NoMemory};
use l2_io::{PutFault, Sink, SureSink};
use memchr::memchr_iter;
use std::alloc::Global;

/// Room for the text of one terminal's records, as its run writes it, and for its lines numbered.
///
/// All terminals share it, so that what a line writes stays in the processor's caches.
#[derive(Drop)]
pub struct Room {
    pub records: SureSink,
    numbered: Bytes,
}

impl Room {
    /// It takes no memory.
    pub fn new(alloc: Global) -> Room {
        Room {
            records: SureSink::new(alloc),
            numbered: Bytes::new(alloc),
        }
    }

    /// Puts the lines of the records, each with a terminal's digit and a space before it.
    #[tactic(auto, using(line_player::proofs::Nothing::front_none))]
    pub fn put_numbered<K: Sink>(&mut self, user: u32, out: &mut K) -> Result<(), CellFault>
        requires { user < MOST_USERS }
        ensures put { PutsText (numbered user self.old.records.octets) (K.written out.old)
            (K.written out.new) (HasRisen (K.faults out.old) (K.faults out.new)) result }
        ensures count { K.faults out.old ≤ K.faults out.new }
    {
        self.numbered.clear();
        append_numbered(&mut self.numbered, user, self.records.written())?;
        put(self.numbered.as_slice(), out)
    }
}

fn put<K: Sink>(text: &[u8], out: &mut K) -> Result<(), CellFault>
    ensures put { PutsText text.now (K.written out.old) (K.written out.new)
        (HasRisen (K.faults out.old) (K.faults out.new)) result }
    ensures count { K.faults out.old ≤ K.faults out.new }
{
    match out.put(text) {
        Ok(()) => Ok(()),
        Err(PutFault::Failed) => Err(CellFault::WriteFault),
        Err(PutFault::NoMemory) => Err(CellFault::NoMemory),
    }
}

// The first of the iterator's places is found sooner in a short line than by `memchr`.
#[tactic(auto, using(crate::proofs::Feeding::no_feed, crate::proofs::Feeding::first_feed))]
fn feed_at(octets: &[u8]) -> Option<usize>
    ensures feed { MatchOption result (from_feed octets.now ≡ []) (IsFeedAt octets.now) }
    ensures fits { IfSome result (λ at. at < 2 ^ 63) }
{
    memchr_iter(b'\n', octets).next()
}

/// Adds the lines of a text, each with a terminal's digit and a space before it.
pub fn append_numbered(out: &mut Bytes, user: u32, text: &[u8]) -> Result<(), NoMemory>
    requires { user < MOST_USERS }
    ensures { OnOk result (out.new ≡ out.old ++ numbered user text.now) }
{
    let digit = b'0' + user as u8;
    let mut rest = text;
    while let Some(at) = feed_at(rest) {
        let (line, behind) = rest.split_at(at + 1);
        out.push(digit)?;
        out.push(b' ')?;
        out.append(line)?;
        rest = behind;
    }
    Ok(())
}
