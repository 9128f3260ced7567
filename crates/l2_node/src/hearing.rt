// A block comes, a TTI begins, a timer expires, an SDU is submitted.
ghost use Rattle.std.specs.Prelude.{◌≡◌, ◌<◌, ◌^◌, ◌+◌, ◌++◌, ℕ, None, Err, true, length, IfOk};
ghost use Rattle.std.specs.Prelude.{IfErr, OnOk, OnErr, IsTrue};
ghost use Rattle.bearer_pdcp.specs.Submitting.{Answers, StaysOrDies};
ghost use Rattle.l2_node.specs.End.{End as Machine};
ghost use Rattle.bearer_types.specs.Sides.{heard_by};
ghost use Rattle.l2_node.specs.Finding.{has};
ghost use Rattle.l2_node.specs.Hearing.{Heard, heard, hears, hears_sdu, hears_all, heard_items};
ghost use Rattle.l2_node.specs.Hearing.{received, ticks_at, ticks_over, ticked, expiry, expired};
ghost use Rattle.mac_pdu.specs.Views.{item_in, IsShort};
ghost use Rattle.l2_bits.specs.declared.limits.TheConstants.{OCTETS_LIMIT};

use crate::end::End;
use crate::finding::find;
use bearer::{Bearer, Clock, Event, Events, Lost, Running, Side};
use l2_bits::NoMemory;
use mac_pdu::{Direction, Item, MacReader};

impl End {
    // A block comes, and each of its SDUs goes to its bearer. Of one that can't be read nothing is
    // used.
    #[tactic(auto, unfolding(crate::specs::Hearing::received))]
    pub fn receive(&mut self, block: &[u8]) -> Result<Events, NoMemory>
        requires { length block.now < OCTETS_LIMIT }
        ensures end { OnOk result
            (self.new ≡ record self.old { bearers = (received self.old block.now).bearers }) }
        ensures events { IfOk result (λ events. events ≡ (received self.old block.now).events) }
    {
        let mut events = Events::new(self.alloc);
        match MacReader::parse(heard_by(self.side), block) {
            Ok(reader) => hear_all(&mut self.bearers, reader, &mut events)?,
            Err(refusal) => events.push(Event::BadMac(refusal))?,
        }
        Ok(events)
    }

    // A TTI begins.
    #[tactic(auto, unfolding(crate::specs::Hearing::ticked))]
    pub fn tick(&mut self) -> Result<Events, NoMemory>
        ensures end { OnOk result
            (self.new ≡ record self.old { bearers = (ticked self.old).bearers }) }
        ensures events { IfOk result (λ events. events ≡ (ticked self.old).events) }
    {
        let mut events = Events::new(self.alloc);
        tick_all(&mut self.bearers, &mut events)?;
        Ok(events)
    }

    // A timer expires; `None` exactly where it doesn't run.
    #[tactic(auto, unfolding(crate::specs::Hearing::expiry, crate::specs::Hearing::expired))]
    pub fn expire(&mut self, lcid: u8, clock: Clock) -> Result<Option<Events>, NoMemory>
        requires { has lcid self.old.bearers ≡ true }
        ensures end { OnOk result (self.new ≡ expired lcid clock self.old) }
        ensures events { IfOk result (λ events. events ≡ expiry lcid clock self.old) }
        ensures idle { IfOk result (λ events. events ≡ None → self.new ≡ self.old) }
    {
        let at = find(lcid, self.bearers.as_slice());
        let bearer = &mut self.bearers[at];
        bearer.expire(clock)
    }
}

/// The direction in which an end hears: the base station the uplink, the terminal the downlink.
pub fn heard_by(side: Side) -> Direction
    ensures { result ≡ heard_by side }
{
    match side {
        Side::Nb => Direction::Up,
        Side::Ue => Direction::Down,
    }
}

fn hear_all(
    bearers: &mut Vec<Bearer<Running>>,
    mut reader: MacReader<'_>,
    events: &mut Events,
) -> Result<(), NoMemory>
    ensures bearers { OnOk result (bearers.new.items
        ≡ (hears_all reader.entry (heard bearers.old.items events.old)).bearers) }
    ensures events { OnOk result
        (events.new ≡ (hears_all reader.entry (heard bearers.old.items events.old)).events) }
{
    while let Some(item) = reader.next() {
        hear(bearers, &item, events)?;
    }
    Ok(())
}

// An item of a block: of those only SDUs are used.
fn hear(
    bearers: &mut Vec<Bearer<Running>>,
    item: &Item<'_>,
    events: &mut Events,
) -> Result<(), NoMemory>
    requires { IsShort (item_in item.now) }
    ensures bearers { OnOk result (bearers.new.items
        ≡ (hears (item_in item.now) (heard bearers.old.items events.old)).bearers) }
    ensures events { OnOk result
        (events.new ≡ (hears (item_in item.now) (heard bearers.old.items events.old)).events) }
{
    match item {
        Item::Sdu { lcid, octets } => hear_sdu(bearers, *lcid, octets, events),
        Item::Front => Ok(()),
        Item::Element(_) => Ok(()),
        Item::Padding(_) => Ok(()),
    }
}

fn hear_sdu(
    bearers: &mut Vec<Bearer<Running>>,
    lcid: u8,
    octets: &[u8],
    events: &mut Events,
) -> Result<(), NoMemory>
    requires { length octets.now < OCTETS_LIMIT }
    ensures bearers { OnOk result (bearers.new.items
        ≡ (hears_sdu lcid octets.now (heard bearers.old.items events.old)).bearers) }
    ensures events { OnOk result
        (events.new ≡ (hears_sdu lcid octets.now (heard bearers.old.items events.old)).events) }
{
    let at = find(lcid, bearers.as_slice());
    if at < bearers.len() {
        let bearer = &mut bearers[at];
        let mut more = bearer.arrive(octets)?;
        return events.append(&mut more);
    }
    events.push(Event::Drop {
        lcid,
        why: Lost::NoBearer,
    })
}

#[tactic(auto, using(crate::proofs::Ticks::ticks_next))]
fn tick_all(bearers: &mut Vec<Bearer<Running>>, events: &mut Events) -> Result<(), NoMemory>
    ensures bearers { OnOk result (bearers.new.items
        ≡ (ticks_over bearers.old.items 0 (heard bearers.old.items events.old)).bearers) }
    ensures events { OnOk result
        (events.new ≡ (ticks_over bearers.old.items 0 (heard bearers.old.items events.old)).events) }
{
    let count = bearers.len();
    for at in 0..count {
        tick_one(bearers, at, events)?;
    }
    Ok(())
}

fn tick_one(
    bearers: &mut Vec<Bearer<Running>>,
    at: usize,
    events: &mut Events,
) -> Result<(), NoMemory>
    requires { at < length bearers.old.items }
    ensures bearers { OnOk result (bearers.new.items
        ≡ (ticks_at at (heard bearers.old.items events.old)).bearers) }
    ensures events { OnOk result
        (events.new ≡ (ticks_at at (heard bearers.old.items events.old)).events) }
    ensures len { OnOk result (length bearers.new.items ≡ length bearers.old.items) }
{
    let bearer = &mut bearers[at];
    let mut more = bearer.tick()?;
    events.append(&mut more)
}
