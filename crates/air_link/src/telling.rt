// What an end tells becomes records.
ghost use Rattle.std.specs.Prelude.{◌≡◌, OnOk, true, slice_set};
ghost use Rattle.air_link.specs.Telling.{one_more, submits, delivers, fails, gathers, noted, tells};
ghost use Rattle.air_link.specs.Telling.{tells_all};

use crate::link::{Handed, Link};
use air_record::Record;
use bearer::{Event, Events, Side};
use l2_bits::{Bytes, NoMemory};

impl Link {
    // What an end tells: records, counts, and SDUs for the loop. Mostly that is nothing.
    #[inline(always)]
    pub(crate) fn tell_all(&mut self, side: Side, events: Events) -> Result<(), NoMemory>
        ensures { OnOk result (self.new ≡ tells_all side events self.old) }
    {
        if events.is_empty() {
            return Ok(());
        }
        self.tell_each(side, events)
    }

    fn tell_each(&mut self, side: Side, mut events: Events) -> Result<(), NoMemory>
        ensures { OnOk result (self.new ≡ tells_all side events self.old) }
    {
        while let Some(event) = events.pop_front() {
            self.tell(side, event)?;
        }
        Ok(())
    }

    fn tell(&mut self, side: Side, event: Event) -> Result<(), NoMemory>
        ensures { OnOk result (self.new ≡ tells side event self.old) }
    {
        self.note(side, &event)?;
        self.say(Record::Of { side, event })
    }

    fn note(&mut self, side: Side, event: &Event) -> Result<(), NoMemory>
        ensures { OnOk result (self.new ≡ noted side event.now self.old) }
    {
        match event {
            Event::Up { lcid, octets } => {
                self.deliver(side, *lcid)?;
                self.gather(side, *lcid, octets.as_slice())
            }
            Event::Fail { lcid, .. } => {
                self.fail(side, *lcid);
                Ok(())
            }
            _ => Ok(()),
        }
    }

    // An SDU was submitted at a side.
    pub(crate) fn submitted(&mut self, side: Side, lcid: u8) -> Result<(), NoMemory>
        ensures { OnOk result (self.new ≡ submits side lcid self.old) }
    {
        match side {
            Side::Nb => add_one(&mut self.down.submitted, lcid),
            Side::Ue => add_one(&mut self.up.submitted, lcid),
        }
    }

    // An SDU is delivered at a side.
    fn deliver(&mut self, side: Side, lcid: u8) -> Result<(), NoMemory>
        ensures { OnOk result (self.new ≡ delivers side lcid self.old) }
    {
        match side {
            Side::Nb => add_one(&mut self.up.delivered, lcid),
            Side::Ue => add_one(&mut self.down.delivered, lcid),
        }
    }

    // The sender of a side reaches the limit.
    fn fail(&mut self, side: Side, lcid: u8)
        ensures { self.new ≡ fails side lcid self.old }
    {
        match side {
            Side::Nb => set_failed(&mut self.down.failed, lcid),
            Side::Ue => set_failed(&mut self.up.failed, lcid),
        }
    }

    // An SDU of a data bearer that the terminal hands up waits for a loop that is on.
    fn gather(&mut self, side: Side, lcid: u8, octets: &[u8]) -> Result<(), NoMemory>
        ensures { OnOk result (self.new ≡ gathers side lcid octets.now self.old) }
    {
        match side {
            Side::Ue if self.looping.is_on() && lcid >= 3 && !octets.is_empty() => {
                let octets = Bytes::from_slice(self.alloc, octets)?;
                self.ups.push(Handed { lcid, octets })
            }
            _ => Ok(()),
        }
    }
}

fn add_one(counts: &mut [u64; 11], lcid: u8) -> Result<(), NoMemory>
    ensures { OnOk result (counts.new ≡ one_more counts.old lcid) }
{
    if lcid < 11 {
        let at = lcid as usize;
        counts[at] = counts[at].checked_add(1).ok_or(NoMemory)?;
    }
    Ok(())
}

fn set_failed(failed: &mut [bool; 11], lcid: u8)
    ensures { failed.new ≡ slice_set failed.old lcid true }
{
    if lcid < 11 {
        failed[lcid as usize] = true;
    }
}
