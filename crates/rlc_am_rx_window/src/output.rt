//! SDUs put together in sequence.
ghost use Rattle.std.specs.Prelude.{◌≡◌, ℕ, [], ◌++◌, ◌<◌, length, map, drop, slice_get, true};
ghost use Rattle.std.specs.Prelude.{OnOk, Some, None};
ghost use Rattle.rlc_am_rx_window.specs.Piece.{element_cells};
ghost use Rattle.rlc_am_rx_window.specs.Joined.{Joined, empty, opened, extended, closed, joined};
ghost use Rattle.rlc_am_rx_window.specs.Joined.{broken, pending};

use l2_bits::{Bytes, NoMemory, Packets};
use std::alloc::Global;
use std::marker::Model;
use std::mem;

/// The SDUs that are whole and haven't gone up, and what has come of the next.
#[derive(Drop)]
pub struct Output {
    alloc: Global,
    ready: Packets,
    part: Option<Bytes>,
}

impl Model for Output {
    ghost use Rattle.rlc_am_rx_window.specs.Joined.{Joined};

    ghost Value = { Joined };

    ghost view = { λ o. record { ready = o.ready; part = o.part } };
}

impl Output {
    /// Nothing has come, and an SDU begins.
    pub fn new(alloc: Global) -> Output
        ensures { result ≡ empty }
    {
        Output {
            alloc,
            ready: Packets::new(alloc),
            part: Some(Bytes::new(alloc)),
        }
    }

    /// Takes out the first SDU that is whole; `None` exactly where there is none.
    pub fn up(&mut self) -> Option<Bytes>
        ensures value { result ≡ slice_get self.old.ready 0 }
        ensures rest { self.new ≡ record self.old { ready = drop 1 self.old.ready } }
    {
        self.ready.pop_front()
    }

    /// The SDUs that are whole.
    pub fn into_ready(self) -> Packets
        ensures { result ≡ self.ready }
    {
        self.ready
    }

    /// A gap follows.
    pub(crate) fn break_off(&mut self)
        ensures { self.new ≡ broken self.old }
    {
        self.part = None;
    }

    /// Goes on with octets of one element.
    #[tactic(auto, using(crate::proofs::JoinLemmas::elements))]
    pub(crate) fn add(&mut self, octets: &[u8], begins: bool, ends: bool) -> Result<(), NoMemory>
        requires { 0 < length octets.now }
        ensures { OnOk result
            (self.new ≡ joined self.old (map (λ c. Some c) (element_cells begins ends octets.now))) }
    {
        self.open(begins);
        if ends {
            self.close(octets)
        } else {
            self.extend(octets)
        }
    }

    /// Goes on with octets of one element, which aren't copied where an SDU begins with them.
    #[tactic(auto, using(crate::proofs::JoinLemmas::elements))]
    pub(crate) fn take(&mut self, octets: Bytes, begins: bool, ends: bool) -> Result<(), NoMemory>
        requires { 0 < length octets }
        ensures { OnOk result
            (self.new ≡ joined self.old (map (λ c. Some c) (element_cells begins ends octets))) }
    {
        self.open(begins);
        self.extend_by(octets)?;
        if ends {
            return self.close(&[]);
        }
        Ok(())
    }

    /// Adds octets to the part, which they become where it is empty.
    #[tactic(auto, using(crate::proofs::JoinLemmas::beginning))]
    fn extend_by(&mut self, octets: Bytes) -> Result<(), NoMemory>
        ensures { OnOk result (self.new ≡ pending self.old octets) }
    {
        match &self.part {
            Some(part) if part.as_slice().is_empty() => {
                self.part = Some(octets);
                Ok(())
            }
            _ => self.extend(octets.as_slice()),
        }
    }

    /// Begins an SDU behind a gap, where one begins with the next place.
    fn open(&mut self, begins: bool)
        ensures { self.new ≡ record self.old { part = opened self.old.part begins } }
    {
        if self.part.is_none() && begins {
            self.part = Some(Bytes::new(self.alloc));
        }
    }

    /// Adds octets to the part.
    fn extend(&mut self, octets: &[u8]) -> Result<(), NoMemory>
        ensures { OnOk result (self.new ≡ pending self.old octets.now) }
    {
        if let Some(part) = &mut self.part {
            part.append(octets)?;
        }
        Ok(())
    }

    /// Ends the SDU with these octets.
    fn close(&mut self, octets: &[u8]) -> Result<(), NoMemory>
        ensures { OnOk result
            (self.new ≡ closed true self.old.ready (extended self.old.part octets.now)) }
    {
        let next = Some(Bytes::new(self.alloc));
        if let Some(mut sdu) = mem::replace(&mut self.part, next) {
            sdu.append(octets)?;
            self.ready.push(sdu)?;
        }
        Ok(())
    }
}
