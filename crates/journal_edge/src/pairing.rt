// What is read in a group beside what its `up` records tell.
ghost use Rattle.std.specs.Prelude.{◌≡◌, OnOk};
ghost use Rattle.journal_edge.specs.Pairing.{nothing_paired, with_read, with_up, is_even};

use l2_bits::{Bytes, NoMemory};
use std::alloc::Global;
use std::collections::VecDeque;
use std::marker::Model;

/// SDUs that are read and SDUs that go up are compared as they come; those wait whose like hasn't
/// come yet. Behind an `Err` nothing is known.
#[derive(Drop)]
pub(crate) struct Pairing {
    alloc: Global,
    same: bool,
    read: VecDeque<Bytes>,
    up: VecDeque<Bytes>,
}

impl Model for Pairing {
    ghost use Rattle.journal_edge.specs.Pairing.{Pairing};

    ghost Value = { Pairing };

    ghost view = { λ p. record { same = p.same; read = p.read.items; up = p.up.items } };
}

impl Pairing {
    pub(crate) fn new(alloc: Global) -> Pairing
        ensures { result ≡ nothing_paired }
    {
        Pairing {
            alloc,
            same: true,
            read: VecDeque::new(alloc),
            up: VecDeque::new(alloc),
        }
    }

    /// An SDU is read.
    pub(crate) fn read(&mut self, sdu: Bytes) -> Result<(), NoMemory>
        ensures { OnOk result (self.new ≡ with_read sdu self.old) }
    {
        match self.up.pop_front() {
            Some(up) => self.same = self.same && sdu.as_slice() == up.as_slice(),
            None => self.read.push_back(sdu)?,
        }
        Ok(())
    }

    /// An SDU goes up.
    pub(crate) fn go_up(&mut self, sdu: &[u8]) -> Result<(), NoMemory>
        ensures { OnOk result (self.new ≡ with_up sdu.now self.old) }
    {
        match self.read.pop_front() {
            Some(read) => self.same = self.same && read.as_slice() == sdu,
            None => self.up.push_back(Bytes::from_slice(self.alloc, sdu)?)?,
        }
        Ok(())
    }

    /// Whether each has its like.
    pub(crate) fn is_even(&self) -> bool
        ensures { result ≡ is_even self.now }
    {
        self.same && self.read.is_empty() && self.up.is_empty()
    }

    /// The next group begins.
    pub(crate) fn clear(&mut self)
        ensures { self.new ≡ nothing_paired }
    {
        self.same = true;
        self.read.clear();
        self.up.clear();
    }
}
