// What a journal's lines and records tell, one by one.
ghost use Rattle.std.specs.Prelude.{◌≡◌, OnOk, Some, option_copied};
ghost use Rattle.bearer_types.specs.Sides.{sender_of};
ghost use Rattle.promises.specs.Parts.{is_handover};
ghost use Rattle.promises.specs.Records.{is_got};
ghost use Rattle.journal_form.specs.Lines.{HasLayout};
ghost use Rattle.journal_given.specs.Supplies.{accounts};
ghost use Rattle.journal_given.specs.Giving.{bearer_at, waits_at, offers};

use crate::bearer;
use crate::bearers::{self, Bearers};
use crate::waits::Waits;
use air_record::{Arrived, Line, Record, Submission};
use bearer_types::{Event, sender_of};
use journal_flows::{JournalFlows, is_got};
use journal_takes::FlowTakes;
use l2_bits::{Bytes, NoMemory};
use l2_types::{Clock, Side};
use std::alloc::Global;
use std::marker::Model;

fn is_handover(line: &Line) -> bool
    ensures { result ≡ is_handover line.now }
{
    match line {
        Line::Handover { .. } => true,
        _ => false,
    }
}

// Whether RLC may take anything of a side's channel.
fn offers(bearers: &Bearers, waits: &Waits, side: Side, lcid: u8) -> bool
    ensures { result ≡ offers accounts side (bearer_at lcid bearers.now.items)
        (waits_at side lcid waits.now) }
{
    match bearers::get(bearers, lcid) {
        Some(bearer) => bearer.side(side).takes().may_take(),
        None => waits.at(side, lcid) > 0,
    }
}

/// Gathers what PDCP gives RLC of acknowledged data from the lines and records of a journal, which
/// go in one by one, and judges its `take` and `report` records. It keeps the accounts of the
/// journal's flows within it, since both stand on each other: RLC confirms what its flow says, and
/// t-PollRetransmit recalls a number where nothing may be taken (TS 36.322 5.2.2.3). Contracts see
/// what is gathered (`specs/Giving.antt`).
///
/// It keeps what `JournalFlows` keeps, the SDUs among it that unacknowledged flows hand up, until
/// they are taken (`flows_mut`); what `FlowTakes` keeps of each side of a bearer of acknowledged
/// data, the PDUs that RLC was given in the life that runs and that aren't confirmed, and the
/// COUNTs that a status report marks. Where these SDUs are taken it doesn't grow with the journal.
#[derive(Drop)]
pub struct JournalGiven {
    alloc: Global,
    flows: JournalFlows,
    bearers: Bearers,
    waits: Waits,
    submitted: Option<Submission>,
    hands_over: bool,
    right: bool,
}

impl Model for JournalGiven {
    ghost use Rattle.journal_takes.specs.FlowTakes.{FlowTakes as Takes};
    ghost use Rattle.journal_given.specs.Giving.{Giving};

    ghost Value = { Giving Takes };

    ghost view = { λ g. record {
      kept = g.flows;
      bearers = g.bearers.items;
      waits = g.waits;
      submitted = g.submitted;
      hands_over = g.hands_over;
      right = g.right;
    } };
}

impl JournalGiven {
    ghost use Rattle.journal_given.specs.Laws.{takes_at};
    ghost use Rattle.journal_given.specs.Giving.{nothing_given, may_take, submits, happens, tells};
    ghost use Rattle.journal_given.specs.Giving.{line_submitted, settled, hands_on};
    ghost use Rattle.journal_given.specs.Giving.{at_rest};
    ghost use Rattle.journal_given.specs.Lending.{lends_flows};
    ghost use Rattle.std.specs.Borrow.{sem};
    ghost use Rattle.journal_given.specs.Giving.{after_line, after_record, after_group};

    /// Before the first line. It takes no memory.
    pub fn new(alloc: Global) -> JournalGiven
        ensures { result ≡ nothing_given }
    {
        JournalGiven {
            alloc,
            flows: JournalFlows::new(alloc),
            bearers: bearers::no_bearers(),
            waits: Waits::none(),
            submitted: None,
            hands_over: false,
            right: true,
        }
    }

    /// The accounts of the journal's flows.
    pub fn flows(&self) -> &JournalFlows
        ensures { result.now ≡ self.now.kept }
    {
        &self.flows
    }

    /// The accounts of the journal's flows, lent so that the SDUs that unacknowledged flows hand up
    /// are taken (`JournalFlows::next_joined`): that changes nothing of what is given
    /// (`laws::taking_is_free`). Lines and records go in by the calls below alone.
    pub fn flows_mut(&mut self) -> &mut JournalFlows
        ensures* writes_back { sem 𝓛 (lends_flows self.entry result) }
        ensures value { result.now ≡ self.old.kept }
    {
        &mut self.flows
    }

    /// What is told of the acknowledged data that a side sends on a logical channel, 0 to 10;
    /// `None` where there is none.
    pub fn takes(&self, side: Side, lcid: u8) -> Option<&FlowTakes>
        ensures { option_copied result ≡ takes_at side lcid self.now }
    {
        match bearers::get(&self.bearers, lcid) {
            Some(bearer) => Some(bearer.side(side).takes()),
            None => None,
        }
    }

    /// Whether each `take`, `report` and `discard` of acknowledged data so far is right: what is
    /// taken is what is takeable next, with the length of its SDU, or with the FMS and the bitmap
    /// of what had come as the life began; what is discarded waited. A `take` or `report` that
    /// isn't right tells PDCP nothing.
    pub fn is_right(&self) -> bool
        ensures { result ≡ self.now.right }
    {
        self.right
    }

    /// The `line` record of an accepted line begins a group. `journal_form::has_layout` is true of
    /// it, as of every line that was read. Behind an `Err` nothing more is known.
    pub fn begin_line(&mut self, line: &Line) -> Result<(), NoMemory>
        requires { HasLayout line.now }
        ensures { OnOk result (self.new ≡ after_line accounts line.now self.old) }
    {
        if let Line::Bearer { config, .. } = line {
            let lcid = config.channel.lcid;
            let begun = bearer::begun(self.alloc, config.kind, config.first, config.pdcp_bits);
            bearers::set(&mut self.bearers, lcid, begun);
            self.waits.clear(lcid);
        }
        self.submitted = Submission::of(self.alloc, line)?;
        self.hands_over = is_handover(line);
        self.flows.begin_line(line);
        Ok(())
    }

    /// Before a record of the group, which isn't its first: the SDU of a `submit` line is submitted
    /// with its line, before the records of its group, unless a `refused` record of its side and
    /// channel stands directly behind the line; a `refused` record elsewhere says nothing. `see`
    /// does so too: call it where what is given before the record is read. Behind an `Err` nothing
    /// more is known.
    pub fn settle(&mut self, one: &Record) -> Result<(), NoMemory>
        ensures { OnOk result (self.new ≡ settled accounts one.now self.old) }
    {
        if self.submitted.is_none() {
            return Ok(());
        }
        let Some(Submission { side, lcid, octets }) = self.submitted.take() else {
            return Ok(());
        };
        if one.refuses(side, lcid) {
            return Ok(());
        }
        self.submit(side, lcid, octets)
    }

    /// A record of the group, which isn't its first.
    ///
    /// `NoMemory` where there is none, where `JournalFlows` says so, and where a counter ends.
    /// Behind it nothing more is known.
    pub fn see(&mut self, one: &Record) -> Result<(), NoMemory>
        ensures { OnOk result (self.new ≡ after_record accounts one.now self.old) }
    {
        self.settle(one)?;
        let more = self.may_take(one);
        self.flows.see(one, more)?;
        self.tell(one)
    }

    /// The group has ended: with the next `line` record, the first `sum`, or the journal. Behind an
    /// `Err` nothing more is known.
    pub fn end_line(&mut self) -> Result<(), NoMemory>
        ensures { OnOk result (self.new ≡ after_group accounts self.old) }
    {
        self.flows.end_line()?;
        self.submit_own()?;
        self.hand_on()
    }

    fn may_take(&self, one: &Record) -> bool
        ensures { result ≡ may_take accounts one.now self.now }
    {
        match one {
            Record::Of {
                side,
                event: Event::Expired {
                    lcid,
                    clock: Clock::Poll,
                },
            } => offers(&self.bearers, &self.waits, *side, *lcid),
            _ => false,
        }
    }

    fn submit(&mut self, side: Side, lcid: u8, octets: Bytes) -> Result<(), NoMemory>
        ensures { OnOk result (self.new ≡ submits accounts side lcid octets self.old) }
    {
        bearers::submit(&mut self.bearers, side, lcid, octets)?;
        self.waits.add(side, lcid)
    }

    fn tell(&mut self, one: &Record) -> Result<(), NoMemory>
        ensures { OnOk result (self.new ≡ tells accounts one.now self.old) }
    {
        match one {
            Record::Of { side, event } => self.happen(*side, event),
            Record::Looped { lcid, octets } => {
                let octets = Bytes::from_slice(self.alloc, octets.as_slice())?;
                self.submit(Side::Ue, *lcid, octets)
            }
            Record::Air {
                direction,
                what,
                ..
            } => {
                if is_got(*what) {
                    bearers::land(&mut self.bearers, sender_of(*direction), &self.flows)
                } else {
                    Ok(())
                }
            }
            _ => Ok(()),
        }
    }

    fn happen(&mut self, side: Side, event: &Event) -> Result<(), NoMemory>
        ensures { OnOk result (self.new ≡ happens accounts side event.now self.old) }
    {
        match event {
            Event::Take { lcid, count, len } => {
                let is_right = bearers::take(&mut self.bearers, side, *lcid, *count, *len)?;
                self.waits.remove(side, *lcid);
                self.right = self.right && is_right;
            }
            Event::Report { lcid, fms, bitmap } => {
                let bitmap = bitmap.as_slice();
                let is_right = bearers::report(&mut self.bearers, side, *lcid, *fms, bitmap)?;
                self.right = self.right && is_right;
            }
            Event::Discard { lcid, .. } => {
                let is_right = bearers::discard(&mut self.bearers, side, *lcid);
                self.waits.remove(side, *lcid);
                self.right = self.right && is_right;
            }
            _ => {}
        }
        Ok(())
    }

    // The SDU of the group's line is submitted, where one is left.
    fn submit_own(&mut self) -> Result<(), NoMemory>
        ensures { OnOk result (self.new ≡ line_submitted accounts self.old) }
    {
        match self.submitted.take() {
            Some(Submission { side, lcid, octets }) => self.submit(side, lcid, octets),
            None => Ok(()),
        }
    }

    // A handover's group ends.
    fn hand_on(&mut self) -> Result<(), NoMemory>
        ensures { OnOk result
            (self.new ≡ at_rest (hands_on accounts self.old.hands_over self.old)) }
    {
        if self.hands_over {
            bearers::end_lives(&mut self.bearers, &self.flows)?;
            self.waits = Waits::none();
        }
        self.hands_over = false;
        Ok(())
    }
}
