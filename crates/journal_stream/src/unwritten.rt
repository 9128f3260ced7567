// The octets of the stream that aren't written yet.
ghost use Rattle.std.specs.Prelude.{◌≡◌, ◌++◌, [], ◌≤◌, length, take, drop, OnOk, OnErr};
ghost use Rattle.std.specs.Str.{bytes_eq};

use l2_bits::{Bytes, NoMemory};
use std::alloc::Global;
use std::marker::Model;

/// So many octets that are written may stand before those that aren't.
const MOST_WRITTEN: usize = 65_536;

// A buffer, and how many octets of it are written.
#[derive(Drop)]
pub(crate) struct Unwritten {
    alloc: Global,
    octets: Bytes,
    written: usize,
}

impl Model for Unwritten {
    ghost use Rattle.std.specs.Prelude.{◌≤◌, ℕ, List, length, drop};

    ghost Value = { List ℕ };

    ghost view = { λ u. drop u.written u.octets };

    ghost invariant = { λ u. u.written ≤ length u.octets };
}

impl Unwritten {
    pub(crate) fn new(alloc: Global) -> Unwritten
        ensures { result ≡ [] }
    {
        Unwritten {
            alloc,
            octets: Bytes::new(alloc),
            written: 0,
        }
    }

    // Adds octets at the end. An `Err` changes nothing.
    pub(crate) fn append(&mut self, octets: &[u8]) -> Result<(), NoMemory>
        ensures ok { OnOk result (self.new ≡ self.old ++ octets.now) }
        ensures err { OnErr result (self.new ≡ self.old) }
    {
        self.settle()?;
        self.octets.append(octets)
    }

    // Whether these octets come first.
    pub(crate) fn begins_with(&self, octets: &[u8]) -> bool
        ensures { result ≡ bytes_eq (take (length octets.now) self.now) octets.now }
    {
        let left = &self.octets.as_slice()[self.written..];
        if left.len() < octets.len() {
            return false;
        }
        &left[..octets.len()] == octets
    }

    // So many are written.
    pub(crate) fn pass(&mut self, many: usize)
        requires { many ≤ length self.old }
        ensures { self.new ≡ drop many self.old }
    {
        let left = self.octets.as_slice().len() - self.written;
        self.written += many.min(left);
    }

    // Takes out the written octets where they are many.
    fn settle(&mut self) -> Result<(), NoMemory>
        ensures { self.new ≡ self.old }
    {
        if self.written == self.octets.as_slice().len() {
            self.octets.clear();
            self.written = 0;
        } else if self.written > MOST_WRITTEN {
            let left = &self.octets.as_slice()[self.written..];
            self.octets = Bytes::from_slice(self.alloc, left)?;
            self.written = 0;
        }
        Ok(())
    }
}
