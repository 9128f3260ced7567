ghost use Rattle.std.specs.Prelude.{◌≡◌, ◌++◌, OnOk, slice_get, drop, true, None};
ghost use Rattle.rlc_um.specs.Joined.{nothing_joined, with_element, with_elements, with_number};
ghost use Rattle.rlc_um.specs.Joined.{finished, opened};

use crate::stored::Stored;
use l2_bits::{Bytes, NoMemory, Packets};
use std::alloc::Global;
use std::marker::Model;

/// The SDUs that may go up, and the one that is being joined (TS 36.322 5.1.2.2.3).
#[derive(Debug, Drop)]
pub struct Joiner {
    ready: Packets,
    part: Option<Bytes>,
}

impl Model for Joiner {
    ghost use Rattle.rlc_um.specs.Joined.{Joined};

    ghost Value = { Joined };

    ghost view = { λ j. record { ready = j.ready; part = j.part } };
}

impl Joiner {
    pub fn new(alloc: Global) -> Joiner
        ensures { result ≡ nothing_joined }
    {
        Joiner {
            ready: Packets::new(alloc),
            part: None,
        }
    }

    /// Takes the next SDU that goes up.
    pub fn up(&mut self) -> Option<Bytes>
        ensures value { result ≡ slice_get self.old.ready 0 }
        ensures state { self.new ≡ record self.old { ready = drop 1 self.old.ready } }
    {
        self.ready.pop_front()
    }

    /// The SDUs that may go up.
    pub fn into_ready(self) -> Packets
        ensures { result ≡ self.ready }
    {
        self.ready
    }

    /// Passes a number: joins its elements, or loses what is open where it is missing.
    pub fn pass(&mut self, stored: Option<Stored>) -> Result<(), NoMemory>
        ensures { OnOk result (self.new ≡ with_number stored self.old) }
    {
        match stored {
            None => {
                self.part = None;
                Ok(())
            }
            Some(stored) => {
                let (begins, ends) = (stored.begins(), stored.ends());
                self.join_all(begins, ends, stored.into_elements())
            }
        }
    }

    fn join_all(
        &mut self,
        mut begins: bool,
        ends: bool,
        mut elements: Packets,
    ) -> Result<(), NoMemory>
        ensures { OnOk result (self.new ≡ with_elements begins ends elements self.old) }
    {
        'elements: while let Some(element) = elements.pop_front() {
            self.join(begins, ends || !elements.is_empty(), element)?;
            begins = true;
        }
        Ok(())
    }

    fn join(&mut self, begins: bool, ends: bool, octets: Bytes) -> Result<(), NoMemory>
        ensures { OnOk result (self.new ≡ with_element begins ends octets self.old) }
    {
        self.open(begins, octets)?;
        if ends {
            self.close()?;
        }
        Ok(())
    }

    // An element that begins an SDU is moved; one that goes on with it is added to it.
    fn open(&mut self, begins: bool, octets: Bytes) -> Result<(), NoMemory>
        ensures { OnOk result
            (self.new ≡ record self.old { part = opened begins octets self.old.part }) }
    {
        if begins {
            self.part = Some(octets);
            return Ok(());
        }
        match &mut self.part {
            Some(part) => part.append(octets.as_slice()),
            None => Ok(()),
        }
    }

    fn close(&mut self) -> Result<(), NoMemory>
        ensures { OnOk result
            (self.new ≡ record {
              ready = self.old.ready ++ finished true self.old.part;
              part = None;
            }) }
    {
        match self.part.take() {
            Some(part) => self.ready.push(part),
            None => Ok(()),
        }
    }
}
