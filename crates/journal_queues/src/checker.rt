// The checker: a journal's lines and records, one by one.
ghost use Rattle.std.specs.Prelude.{◌≡◌, OnOk};
ghost use Rattle.promises.specs.Delivery.{forges};
ghost use Rattle.journal_queues.specs.QueueChecking.{submitted_by};

use crate::channels::{self, Channels};
use air_record::{Line, Record};
use bearer_types::{BearerConfig, Event};
use l2_bits::NoMemory;
use l2_types::Side;
use std::alloc::Global;
use std::marker::Model;

// An SDU of so many octets, on a side's channel.
#[derive(Clone, Copy, Drop)]
pub(crate) struct Submitted {
    side: Side,
    lcid: u8,
    len: u64,
}

// A block comes that neither end built.
fn forges(line: &Line) -> bool
    ensures { result ≡ forges line.now }
{
    match line {
        Line::Forge { .. } => true,
        _ => false,
    }
}

// The SDU of a line.
fn submitted_by(line: &Line) -> Option<Submitted>
    ensures { result ≡ submitted_by line.now }
{
    match line {
        Line::Submit { side, lcid, octets } => Some(Submitted {
            side: *side,
            lcid: *lcid,
            len: octets.as_slice().len() as u64,
        }),
        _ => None,
    }
}

/// A checker of the SDUs that leave the queues of bearers without acknowledgement: a journal's
/// lines and records go in one by one.
///
/// It takes memory for the lengths of the SDUs that wait.
#[derive(Drop)]
pub struct QueueChecker {
    alloc: Global,
    nb: Channels,
    ue: Channels,
    right: bool,
    forged: bool,
    submitted: Option<Submitted>,
}

impl Model for QueueChecker {
    ghost use Rattle.journal_queues.specs.QueueChecking.{Checking};

    ghost Value = { Checking };

    ghost view = { λ c. record {
      nb = c.nb.items;
      ue = c.ue.items;
      right = c.right;
      forged = c.forged;
      submitted = c.submitted;
    } };
}

impl QueueChecker {
    ghost use Rattle.journal_queues.specs.Leaving.{queue_told};
    ghost use Rattle.journal_queues.specs.QueueChecking.{nothing_checked, changed, after_line};
    ghost use Rattle.journal_queues.specs.QueueChecking.{queues_by, after_record, record_told};
    ghost use Rattle.journal_queues.specs.QueueChecking.{after_event, given, released};
    ghost use Rattle.journal_queues.specs.QueueChecking.{unrefused, after_group};

    /// Before the first line. It takes no memory.
    pub fn new(alloc: Global) -> QueueChecker
        ensures { result ≡ nothing_checked }
    {
        QueueChecker {
            alloc,
            nb: channels::no_channels(alloc),
            ue: channels::no_channels(alloc),
            right: true,
            forged: false,
            submitted: None,
        }
    }

    /// The `line` record of an accepted line begins a group.
    pub fn begin_line(&mut self, line: &Line)
        ensures { self.new ≡ after_line line.now self.old }
    {
        self.change(line);
        self.submitted = submitted_by(line);
        self.forged = forges(line) || self.forged;
    }

    /// A record of the group, which isn't its first. Behind an `Err` nothing is known.
    pub fn see(&mut self, one: &Record) -> Result<(), NoMemory>
        ensures { OnOk result (self.new ≡ after_record one.now self.old) }
    {
        self.settle(one)?;
        self.tell_record(one)
    }

    // Before a record, which may refuse the SDU of the group's line.
    fn settle(&mut self, one: &Record) -> Result<(), NoMemory>
        ensures { OnOk result
            (self.new ≡ released (unrefused one.now self.old.submitted) self.old) }
    {
        if self.submitted.is_none() {
            return Ok(());
        }
        let Some(sdu) = self.submitted.take() else {
            return Ok(());
        };
        if one.refuses(sdu.side, sdu.lcid) {
            return Ok(());
        }
        self.submit(sdu)
    }

    /// The group has ended: with the next `line` record, the first `sum`, or the journal. Behind an
    /// `Err` nothing is known.
    pub fn end_line(&mut self) -> Result<(), NoMemory>
        ensures { OnOk result (self.new ≡ after_group self.old) }
    {
        if let Some(sdu) = self.submitted.take() {
            self.submit(sdu)?;
        }
        let right = channels::are_right(&self.nb) && channels::are_right(&self.ue);
        self.right = self.right && (self.forged || right);
        Ok(())
    }

    /// Whether, behind each group that has ended, the SDUs that left the queues of bearers without
    /// acknowledgement are the first of those submitted. Behind a record within a group it says
    /// nothing.
    pub fn is_right(&self) -> bool
        ensures { result ≡ self.now.right }
    {
        self.right
    }

    // What a line changes of the queues.
    fn change(&mut self, line: &Line)
        ensures { self.new ≡ queues_by line.now self.old }
    {
        match line {
            Line::Bearer { config, .. } => {
                let lcid = config.channel.lcid;
                channels::begin(&mut self.nb, lcid, config.kind);
                channels::begin(&mut self.ue, lcid, config.kind);
            }
            Line::Handover { .. } => {
                channels::hand_over(&mut self.nb, self.alloc);
                channels::hand_over(&mut self.ue, self.alloc);
            }
            _ => {}
        }
    }

    fn tell_record(&mut self, one: &Record) -> Result<(), NoMemory>
        ensures { OnOk result (self.new ≡ record_told one.now self.old) }
    {
        match one {
            Record::Of { side, event } => self.happen(*side, event),
            Record::Looped { lcid, octets } => {
                channels::submit(&mut self.ue, *lcid, octets.as_slice().len() as u64)
            }
            _ => Ok(()),
        }
    }

    fn happen(&mut self, side: Side, event: &Event) -> Result<(), NoMemory>
        ensures { OnOk result (self.new ≡ after_event side event.now self.old) }
    {
        match event {
            Event::Take { lcid, len, .. } => self.tell(side, *lcid, u64::from(*len)),
            Event::Discard { lcid, len } => self.tell(side, *lcid, u64::from(*len)),
            _ => Ok(()),
        }
    }

    fn tell(&mut self, side: Side, lcid: u8, len: u64) -> Result<(), NoMemory>
        ensures { OnOk result (self.new ≡ changed side lcid (queue_told len) self.old) }
    {
        match side {
            Side::Nb => channels::tell(&mut self.nb, lcid, len),
            Side::Ue => channels::tell(&mut self.ue, lcid, len),
        }
    }

    // The SDU of the group's line is submitted.
    fn submit(&mut self, sdu: Submitted) -> Result<(), NoMemory>
        ensures { OnOk result (self.new ≡ given sdu self.old) }
    {
        match sdu.side {
            Side::Nb => channels::submit(&mut self.nb, sdu.lcid, sdu.len),
            Side::Ue => channels::submit(&mut self.ue, sdu.lcid, sdu.len),
        }
    }
}
