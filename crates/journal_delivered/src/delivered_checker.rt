// The checker: a journal's lines and records, one by one.
ghost use Rattle.std.specs.Prelude.{◌≡◌, OnOk, Some};
ghost use Rattle.air_record.specs.Submissions.{unrefused};
ghost use Rattle.bearer_types.specs.Sides.{other};
ghost use Rattle.journal_delivered.specs.DeliveryChecking.{begun};

use crate::awaited_channels::{self, Channels};
use crate::awaited_sdus::{AwaitedSdus, SduTold};
use air_record::{Line, Record, Submission};
use bearer_types::{BearerConfig, Event, other};
use journal_flows::JournalFlows;
use l2_bits::{Bytes, NoMemory};
use l2_types::{Kind, Side};
use std::alloc::Global;
use std::marker::Model;

// A bearer's SDUs in one direction, where it has acknowledged data.
fn begun(alloc: Global, config: &BearerConfig) -> Option<AwaitedSdus>
    ensures { result ≡ begun config.now }
{
    match config.kind {
        Kind::Am => Some(AwaitedSdus::new(alloc, config.first)),
        Kind::Tm | Kind::Srb | Kind::Um => None,
    }
}

/// A checker of what a journal hands up of acknowledged data: its lines and records go in one by
/// one, beside those of `JournalFlows`, which keeps the accounts of its flows.
///
/// It takes memory for the SDUs from the first that wasn't handed up on, and within a group for
/// those that went up before they were taken.
#[derive(Drop)]
pub struct DeliveredChecker {
    alloc: Global,
    nb: Channels,
    ue: Channels,
    right: bool,
    submitted: Option<Submission>,
}

impl Model for DeliveredChecker {
    ghost use Rattle.journal_delivered.specs.DeliveryChecking.{Checking};

    ghost Value = { Checking };

    ghost view = { λ c. record {
      nb = c.nb.items;
      ue = c.ue.items;
      right = c.right;
      submitted = c.submitted;
    } };
}

impl DeliveredChecker {
    ghost use Rattle.journal_delivered.specs.DeliveryChecking.{nothing_checked, after_line};
    ghost use Rattle.journal_delivered.specs.DeliveryChecking.{bearers_by};
    ghost use Rattle.journal_delivered.specs.DeliveryChecking.{after_record, record_told};
    ghost use Rattle.journal_delivered.specs.DeliveryChecking.{after_event, after_bearer, changed};
    ghost use Rattle.journal_delivered.specs.DeliveryChecking.{submits_own, released, ended};
    ghost use Rattle.journal_delivered.specs.DeliveryChecking.{after_group, with_told};

    /// Before the first line. It takes no memory.
    pub fn new(alloc: Global) -> DeliveredChecker
        ensures { result ≡ nothing_checked }
    {
        DeliveredChecker {
            alloc,
            nb: awaited_channels::no_channels(),
            ue: awaited_channels::no_channels(),
            right: true,
            submitted: None,
        }
    }

    /// The `line` record of an accepted line begins a group. Behind an `Err` nothing is known.
    pub fn begin_line(&mut self, line: &Line) -> Result<(), NoMemory>
        ensures { OnOk result (self.new ≡ after_line line.now self.old) }
    {
        if let Line::Bearer { config, .. } = line {
            self.begin(config);
        }
        self.submitted = Submission::of(self.alloc, line)?;
        Ok(())
    }

    /// A record of the group, which isn't its first. Behind an `Err` nothing is known.
    pub fn see(&mut self, one: &Record) -> Result<(), NoMemory>
        ensures { OnOk result (self.new ≡ after_record one.now self.old) }
    {
        self.settle(one)?;
        self.tell_record(one)
    }

    // Before a record, which may refuse the SDU of the group's line.
    fn settle(&mut self, one: &Record) -> Result<(), NoMemory>
        ensures { OnOk result
            (self.new ≡ released (unrefused one.now self.old.submitted) self.old) }
    {
        if self.submitted.is_none() {
            return Ok(());
        }
        let Some(sdu) = self.submitted.take() else {
            return Ok(());
        };
        if one.refuses(sdu.side, sdu.lcid) {
            return Ok(());
        }
        self.submit(sdu)
    }

    /// The group has ended: with the next `line` record, the first `sum`, or the journal. `flows`
    /// has seen the group's records, and its own `end_line` has been called. Behind an `Err`
    /// nothing is known.
    pub fn end_line(&mut self, flows: &JournalFlows) -> Result<(), NoMemory>
        ensures { OnOk result (self.new ≡ after_group flows.now self.old) }
    {
        if let Some(sdu) = self.submitted.take() {
            self.submit(sdu)?;
        }
        self.end(flows);
        Ok(())
    }

    /// Whether what all groups that have ended hand up of acknowledged data is right. Behind a
    /// record within a group it says nothing.
    pub fn is_right(&self) -> bool
        ensures { result ≡ self.now.right }
    {
        self.right
    }

    fn begin(&mut self, config: &BearerConfig)
        ensures { self.new ≡ after_bearer config.now self.old }
    {
        let lcid = config.channel.lcid;
        awaited_channels::set(&mut self.nb, lcid, begun(self.alloc, config));
        awaited_channels::set(&mut self.ue, lcid, begun(self.alloc, config));
    }

    // The SDU of the group's line is submitted.
    fn submit(&mut self, sdu: Submission) -> Result<(), NoMemory>
        ensures { OnOk result (self.new ≡ submits_own (Some sdu) self.old) }
    {
        let Submission { side, lcid, octets } = sdu;
        self.tell(side, lcid, SduTold::Submitted(octets))
    }

    fn tell_record(&mut self, one: &Record) -> Result<(), NoMemory>
        ensures { OnOk result (self.new ≡ record_told one.now self.old) }
    {
        match one {
            Record::Of { side, event } => self.happen(*side, event),
            Record::Looped { lcid, octets } => {
                let sdu = Bytes::from_slice(self.alloc, octets.as_slice())?;
                self.tell(Side::Ue, *lcid, SduTold::Submitted(sdu))
            }
            _ => Ok(()),
        }
    }

    fn end(&mut self, flows: &JournalFlows)
        ensures { self.new ≡ ended flows.now self.old }
    {
        awaited_channels::end(&mut self.nb, Side::Nb, flows);
        awaited_channels::end(&mut self.ue, Side::Ue, flows);
        self.right = self.right
            && awaited_channels::are_right(&self.nb)
            && awaited_channels::are_right(&self.ue);
    }

    // Something is told of the SDUs that a side sends on a channel.
    fn tell(&mut self, side: Side, lcid: u8, what: SduTold<'_>) -> Result<(), NoMemory>
        ensures { OnOk result (self.new ≡ changed side lcid (with_told what.entry) self.old) }
    {
        match side {
            Side::Nb => awaited_channels::tell(&mut self.nb, lcid, what),
            Side::Ue => awaited_channels::tell(&mut self.ue, lcid, what),
        }
    }

    fn happen(&mut self, side: Side, event: &Event) -> Result<(), NoMemory>
        ensures { OnOk result (self.new ≡ after_event side event.now self.old) }
    {
        match event {
            Event::Take {
                lcid,
                count: Some(count),
                ..
            } => self.tell(side, *lcid, SduTold::Taken(*count)),
            Event::Discard { lcid, .. } => self.tell(side, *lcid, SduTold::Discarded),
            Event::Up { lcid, octets } => {
                self.tell(other(side), *lcid, SduTold::HandedUp(octets.as_slice()))
            }
            _ => Ok(()),
        }
    }
}
