ghost use Rattle.std.specs.Prelude.{◌≡◌, ◌≤◌, ℕ, None, IfOk, IfSome, length};

use super::{Failed, PutFault, Sink, Source};
use l2_bits::NoMemory;
use std::alloc::Global;
use std::io::{BufReader, ErrorKind, Read, Write};
use std::marker::Model;

/// A source over a reader, of whose octets nothing is known. Contracts see its count of faults.
#[derive(Drop)]
pub struct StdSource<R> {
    inner: R,
    faults: u64,
}

impl<R> Model for StdSource<R> {
    ghost use Rattle.std.specs.Prelude.{ℕ};

    ghost Value = { ℕ };

    ghost view = { λ s. s.faults };
}

impl<R: Read + Drop> StdSource<R> {
    /// A source that gives what the reader gives. A read that a signal interrupts is done again.
    pub fn new(inner: R) -> StdSource<R>
        ensures { result ≡ 0 }
    {
        StdSource { inner, faults: 0 }
    }
}

impl<R: Read + Drop> Source for StdSource<R> {
    ghost left = { λ _. None };

    ghost faults = { λ s. s };

    fn read(&mut self, into: &mut [u8]) -> Result<usize, Failed> {
        let Some(count) = read_retrying(&mut self.inner, into) else {
            self.faults = self.faults.saturating_add(1);
            return Err(Failed);
        };
        Ok(count)
    }
}

/// A source over a reader that is read ahead, in pieces of a fixed size. Of its octets nothing is
/// known, but whether some are at hand.
#[derive(Drop)]
pub struct AheadSource<R> {
    source: StdSource<BufReader<R>>,
}

impl<R> Model for AheadSource<R> {
    ghost use Rattle.std.specs.Prelude.{ℕ};

    ghost Value = { ℕ };

    ghost view = { λ s. s.source };
}

impl<R: Read + Drop> AheadSource<R> {
    /// A source that reads at most `piece` octets of the reader at a time, into a buffer of that
    /// size.
    pub fn new(alloc: Global, piece: usize, inner: R) -> Result<AheadSource<R>, NoMemory>
        ensures { IfOk result (λ s. s ≡ 0) }
    {
        let Ok(reader) = BufReader::with_capacity(alloc, piece, inner) else {
            return Err(NoMemory);
        };
        Ok(AheadSource {
            source: StdSource::new(reader),
        })
    }
}

impl<R: Read + Drop> Source for AheadSource<R> {
    ghost left = { λ _. None };

    ghost faults = { λ s. s };

    fn read(&mut self, into: &mut [u8]) -> Result<usize, Failed> {
        self.source.read(into)
    }

    fn is_ready(&self) -> bool {
        !self.source.inner.buffer().is_empty()
    }
}

// Reads once, and again where a signal came between.
fn read_retrying<R: Read>(inner: &mut R, into: &mut [u8]) -> Option<usize>
    ensures { IfSome result (λ n. n ≤ length into.new) }
{
    for _ in 0..u64::MAX {
        match inner.read(into) {
            Ok(count) => return Some(count),
            Err(e) => {
                if e.kind() != ErrorKind::Interrupted {
                    return None;
                }
            }
        }
    }
    None
}

/// A sink over a writer, of whose octets nothing is known. Contracts see its count of faults.
#[derive(Drop)]
pub struct StdSink<W> {
    inner: W,
    faults: u64,
}

impl<W> Model for StdSink<W> {
    ghost use Rattle.std.specs.Prelude.{ℕ};

    ghost Value = { ℕ };

    ghost view = { λ s. s.faults };
}

impl<W: Write + Drop> StdSink<W> {
    /// A sink that hands each piece to the writer. A writer that takes nothing of a piece has
    /// failed.
    pub fn new(inner: W) -> StdSink<W>
        ensures { result ≡ 0 }
    {
        StdSink { inner, faults: 0 }
    }
}

impl<W: Write + Drop> Sink for StdSink<W> {
    ghost written = { λ _. None };

    ghost faults = { λ s. s };

    ghost shortages = { λ _. 0 };

    fn put(&mut self, piece: &[u8]) -> Result<(), PutFault> {
        if piece.is_empty() {
            return Ok(());
        }
        match self.inner.write_all(piece) {
            Ok(()) => Ok(()),
            Err(_) => {
                self.faults = self.faults.saturating_add(1);
                Err(PutFault::Failed)
            }
        }
    }
}
