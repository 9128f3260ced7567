// The text of a record of few octets.
ghost use Rattle.std.specs.Prelude.{◌≡◌, ◌≤◌, ◌<◌, ◌+◌, ◌++◌, ◌∷◌, [], length, OnOk};

use l2_bits::{Bytes, NoMemory};
use std::marker::Model;

/// The most octets of a short text.
pub(crate) const ROOM: usize = 144;

/// The most octets of a piece of one: a space and a number of 64 bits.
pub(crate) const PIECE: usize = 21;

/// A text that takes no memory. A record is gathered in one and then added to a list at once, since
/// whatever is added to a list by itself asks whether that has to grow.
#[derive(Drop)]
pub(crate) struct ShortText {
    octets: [u8; ROOM],
    len: usize,
}

impl Model for ShortText {
    ghost use Rattle.std.specs.Prelude.{◌≤◌, ℕ, List, take};
    ghost use Rattle.air_record.specs.declared.short_text.TheConstants.{ROOM};

    ghost Value = { List ℕ };

    ghost view = { λ t. take t.len t.octets };

    ghost invariant = { λ t. t.len ≤ ROOM };
}

impl ShortText {
    #[inline(always)]
    pub(crate) fn new() -> ShortText
        ensures { result ≡ [] }
    {
        ShortText {
            octets: [0; ROOM],
            len: 0,
        }
    }

    /// Adds octets at the end.
    #[inline(always)]
    pub(crate) fn add(&mut self, piece: &[u8])
        requires { length self.old + length piece.now ≤ ROOM }
        ensures { self.new ≡ self.old ++ piece.now }
    {
        let end = self.len + piece.len();
        self.octets[self.len..end].copy_from_slice(piece);
        self.len = end;
    }

    /// Adds it to a list.
    #[inline(always)]
    pub(crate) fn append_to(&self, text: &mut Bytes) -> Result<(), NoMemory>
        ensures { OnOk result (text.new ≡ text.old ++ self.now) }
    {
        text.append(&self.octets[..self.len])
    }

    /// Adds a line feed, and then all of it to a list.
    #[inline(always)]
    pub(crate) fn end_line(&mut self, text: &mut Bytes) -> Result<(), NoMemory>
        requires { length self.old < ROOM }
        ensures { OnOk result (text.new ≡ text.old ++ (self.old ++ 10 ∷ [])) }
    {
        self.add(b"\n");
        self.append_to(text)
    }
}
