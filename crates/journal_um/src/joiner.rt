// Joins pieces to SDUs.
ghost use Rattle.std.specs.Prelude.{◌≡◌, ◌+◌, OnOk, nat_le, slice_get};
ghost use Rattle.journal_um.specs.UmJoiner.{nothing_joined, opened, with_part, with_sdu, closed};
ghost use Rattle.journal_um.specs.UmJoiner.{with_piece, with_pieces, with_pdu, life_joined};
ghost use Rattle.journal_um.specs.UmJoiner.{one_taken};

use crate::pieces::{JoinedSdu, Piece, Pieces};
use l2_bits::{Bytes, Items, NoMemory};
use std::alloc::Global;
use std::marker::Model;

#[derive(Drop)]
pub(crate) struct Joiner {
    many: u64,
    part: Option<Bytes>,
    next: u64,
    long: bool,
    ready: Items<JoinedSdu>,
}

impl Model for Joiner {
    ghost use Rattle.journal_um.specs.UmJoiner.{UmJoiner};

    ghost Value = { UmJoiner };

    ghost view = { λ j. record {
      many = j.many;
      part = j.part;
      next = j.next;
      long = j.long;
      ready = j.ready;
    } };
}

impl Joiner {
    // Nothing was joined yet; PDCP has so many SNs.
    pub(crate) fn new(alloc: Global, many: u64) -> Joiner
        ensures { result ≡ nothing_joined many }
    {
        Joiner {
            many,
            part: None,
            next: 0,
            long: false,
            ready: Items::new(alloc),
        }
    }

    // Whether so many SDUs were left out before one that goes up.
    pub(crate) fn is_long(&self) -> bool
        ensures { result ≡ self.now.long }
    {
        self.long
    }

    // Takes the next SDU that goes up.
    pub(crate) fn take_next(&mut self) -> Option<JoinedSdu>
        ensures value { result ≡ slice_get self.old.ready 0 }
        ensures rest { self.new ≡ one_taken self.old }
    {
        self.ready.pop_front()
    }

    // A number is passed: its pieces are joined, or what was open is lost.
    pub(crate) fn pass(&mut self, pdu: Option<Pieces>) -> Result<(), NoMemory>
        ensures { OnOk result (self.new ≡ with_pdu pdu self.old) }
    {
        match pdu {
            Some(pieces) => self.join_all(pieces),
            None => {
                self.part = None;
                Ok(())
            }
        }
    }

    // The life ends.
    pub(crate) fn end_life(&mut self)
        ensures { self.new ≡ life_joined self.old }
    {
        self.part = None;
        self.next = 0;
    }

    fn join_all(&mut self, mut pieces: Pieces) -> Result<(), NoMemory>
        ensures { OnOk result (self.new ≡ with_pieces pieces self.old) }
    {
        'pieces: while let Some(piece) = pieces.pop_front() {
            self.join(piece)?;
        }
        Ok(())
    }

    fn join(&mut self, piece: Piece) -> Result<(), NoMemory>
        ensures { OnOk result (self.new ≡ with_piece piece self.old) }
    {
        let (ends, place) = (piece.ends, piece.place);
        self.open(piece)?;
        if ends {
            self.close(place)?;
        }
        Ok(())
    }

    // A piece that begins an SDU is moved; one that goes on with it is added to it.
    fn open(&mut self, piece: Piece) -> Result<(), NoMemory>
        ensures { OnOk result (self.new ≡ with_part (opened piece self.old.part) self.old) }
    {
        if piece.begins {
            self.part = Some(piece.octets);
            return Ok(());
        }
        match &mut self.part {
            Some(part) => part.append(piece.octets.as_slice()),
            None => Ok(()),
        }
    }

    // What is open ends, as the SDU of a place.
    fn close(&mut self, place: u64) -> Result<(), NoMemory>
        ensures { OnOk result (self.new ≡ closed place self.old.part self.old) }
    {
        match self.part.take() {
            Some(octets) => self.hand_up(JoinedSdu { place, octets }),
            None => Ok(()),
        }
    }

    fn hand_up(&mut self, sdu: JoinedSdu) -> Result<(), NoMemory>
        ensures { OnOk result (self.new ≡ with_sdu sdu self.old) }
    {
        if leaves_out(self.next, self.many, sdu.place) {
            self.long = true;
        }
        self.next = sdu.place.checked_add(1).ok_or(NoMemory)?;
        self.ready.push(sdu)
    }
}

// Whether so many or more lie between the next place and another.
fn leaves_out(next: u64, many: u64, place: u64) -> bool
    ensures { result ≡ nat_le (next + many) place }
{
    next <= place && many <= place - next
}
