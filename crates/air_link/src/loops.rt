// The test loop returns SDUs to the terminal's bearers.
ghost use Rattle.std.specs.Prelude.{◌≡◌, ◌<◌, OnOk, length, [], All};
ghost use Rattle.test_loop.specs.Loops.{is_on};
ghost use Rattle.air_link.specs.Loops.{loses, returns, returns_all, takes, takes_all, kept_by};
ghost use Rattle.air_link.specs.Loops.{loops, owed, paid, pays, loop_set};

use crate::link::{Handed, Link};
use air_record::Record;
use bearer::{Event, Lost, Side};
use l2_bits::{Bytes, Items, NoMemory, SubmitRefusal};
use std::mem;
use test_loop::{Kept, Mode};

impl Link {
    /// Sets the mode of the test loop at the terminal. What it kept is submitted.
    #[tactic(auto, unfolding(crate::specs::Loops::loop_set))]
    pub fn set_loop(&mut self, mode: Mode) -> Result<(), NoMemory>
        ensures { OnOk result (self.new ≡ loop_set mode self.old) }
    {
        self.looping.set(mode);
        self.pay()
    }

    /// Whether a test loop is on at the terminal.
    pub fn is_looping(&self) -> bool
        ensures { result ≡ is_on self.now.looping.mode }
    {
        self.looping.is_on()
    }

    // SDUs that are owed are submitted.
    #[tactic(auto, using(crate::proofs::Paying::returns_aside), unfolding(crate::specs::Loops::pays, test_loop::specs::Loops::due_answer, test_loop::specs::Loops::after_due))]
    pub(crate) fn pay(&mut self) -> Result<(), NoMemory>
        ensures { OnOk result (self.new ≡ pays self.old) }
    {
        while let Some((lcid, octets)) = self.looping.due() {
            self.give_back(lcid, octets)?;
        }
        Ok(())
    }

    // SDUs that went up are taken by the loop.
    #[tactic(auto, unfolding(crate::specs::Loops::loops))]
    pub(crate) fn loop_back(&mut self) -> Result<(), NoMemory>
        ensures { OnOk result (self.new ≡ loops self.old) }
    {
        let ups = mem::replace(&mut self.ups, Items::new(self.alloc));
        self.take_all(ups)
    }

    fn take_all(&mut self, mut ups: Items<Handed>) -> Result<(), NoMemory>
        ensures { OnOk result (self.new ≡ takes_all ups self.old) }
    {
        while let Some(one) = ups.pop_front() {
            self.take(&one)?;
        }
        Ok(())
    }

    fn take(&mut self, one: &Handed) -> Result<(), NoMemory>
        ensures { OnOk result (self.new ≡ takes one.now self.old) }
    {
        if !self.looping.is_on() {
            return Ok(());
        }
        match self.looping.taken(one.lcid, one.octets.as_slice())? {
            Kept::Now(octets) => self.give_back(one.lcid, octets),
            Kept::Later => Ok(()),
            Kept::Full => self.lose(one.lcid),
        }
    }

    // An SDU is submitted on the uplink, or dropped where it finds no place.
    fn give_back(&mut self, lcid: u8, octets: Bytes) -> Result<(), NoMemory>
        ensures { OnOk result (self.new ≡ returns lcid octets self.old) }
    {
        if !self.ue.has(lcid) {
            return self.lose(lcid);
        }
        match self.ue.submit(lcid, octets.as_slice()) {
            Ok(()) => {
                self.say(Record::Looped { lcid, octets })?;
                self.submitted(Side::Ue, lcid)
            }
            Err(SubmitRefusal::NoMemory) => Err(NoMemory),
            Err(_) => self.lose(lcid),
        }
    }

    fn lose(&mut self, lcid: u8) -> Result<(), NoMemory>
        ensures { OnOk result (self.new ≡ loses lcid self.old) }
    {
        self.say(Record::Of {
            side: Side::Ue,
            event: Event::Drop {
                lcid,
                why: Lost::Loop,
            },
        })
    }
}
