// The checker: a journal's lines and records, one by one.
ghost use Rattle.std.specs.Prelude.{◌≡◌, ◌+◌, OnOk, OnErr};
ghost use Rattle.air_record.specs.Outcomes.{missed};
ghost use Rattle.journal_air.specs.Told.{tells_sleep, tells_block, tells_air};
ghost use Rattle.journal_air.specs.Checking.{due_of, is_met, granted_often, is_tti_right};
ghost use Rattle.journal_air.specs.Checking.{tti_judged, after_tti, tti_begun, with_tti, told_more};

use crate::ends::Ends;
use crate::granted::{Due, Granted};
use crate::told::{AirTold, BlockTold, TtiTold};
use air_record::{Fate, Line, Outcome, Record};
use l2_bits::NoMemory;
use mac_pdu::Direction;
use std::alloc::Global;
use std::marker::Model;

// An outcome where the terminal may sleep, which misses all.
fn missed(asleep: bool, outcome: Outcome) -> Outcome
    ensures { result ≡ missed asleep outcome }
{
    if asleep {
        Outcome {
            fate: Fate::Miss,
            flipped: outcome.flipped,
        }
    } else {
        outcome
    }
}

// In a drain nobody sleeps, and every block arrives intact.
fn granted_often(grant: u32) -> Granted
    ensures { result ≡ granted_often grant }
{
    let intact = Outcome {
        fate: Fate::Ok,
        flipped: false,
    };
    Granted {
        up_grant: grant,
        up: intact,
        down_grant: grant,
        down: intact,
        may_sleep: false,
    }
}

fn due_of(line: &Line) -> Due
    ensures { result ≡ due_of line.now }
{
    match line {
        Line::Tti {
            up_grant,
            up,
            down_grant,
            down,
        } => Due::Once(Granted {
            up_grant: *up_grant,
            up: *up,
            down_grant: *down_grant,
            down: *down,
            may_sleep: true,
        }),
        Line::Drain { grant } => Due::Often(*grant),
        _ => Due::Nothing,
    }
}

// Whether a line has had its TTIs.
fn is_met(due: Due) -> bool
    ensures { result ≡ is_met due }
{
    match due {
        Due::Nothing => true,
        Due::Once(_) => false,
        Due::Often(_) => true,
    }
}

// A TTI that runs.
#[derive(Drop)]
struct Running {
    number: u64,
    granted: Granted,
    told: TtiTold,
}

impl Model for Running {
    ghost use Rattle.journal_air.specs.Checking.{Running as Tti};

    ghost Value = { Tti };

    ghost view = { λ r. record { number = r.number; granted = r.granted; told = r.told } };
}

/// A checker of what a journal tells of the air: its lines and records go in one by one.
///
/// What it keeps doesn't grow with the journal: of each of 8 HARQ processes of a direction a block,
/// and what is told of the running TTI.
#[derive(Drop)]
pub struct AirChecker {
    alloc: Global,
    down: Ends,
    up: Ends,
    due: Due,
    running: Option<Running>,
    next: u64,
    right: bool,
}

impl Model for AirChecker {
    ghost use Rattle.journal_air.specs.Checking.{Checking};

    ghost Value = { Checking };

    ghost view = { λ c. record {
      down = c.down;
      up = c.up;
      due = c.due;
      running = c.running;
      next = c.next;
      right = c.right;
    } };
}

impl AirChecker {
    ghost use Rattle.journal_air.specs.Checking.{nothing_checked, after_line, after_record};
    ghost use Rattle.journal_air.specs.Checking.{after_group};

    /// Before the first line: a block has at most 4 visits. It takes no memory.
    pub fn new(alloc: Global) -> AirChecker
        ensures { result ≡ nothing_checked }
    {
        AirChecker {
            alloc,
            down: Ends::new(4),
            up: Ends::new(4),
            due: Due::Nothing,
            running: None,
            next: 0,
            right: true,
        }
    }

    /// The `line` record of an accepted line begins a group.
    pub fn begin_line(&mut self, line: &Line)
        ensures { self.new ≡ after_line line.now self.old }
    {
        match line {
            Line::Harq { visits } => {
                self.down = Ends::new(*visits);
                self.up = Ends::new(*visits);
                self.right = self.right && *visits >= 1;
            }
            Line::Handover { .. } => {
                self.down.reset();
                self.up.reset();
            }
            _ => {}
        }
        self.due = due_of(line);
        self.running = None;
    }

    /// A record of the group, which isn't its first. An `Err` changes nothing: a block found no
    /// memory, or the numbers of TTIs have come to their end.
    pub fn see(&mut self, one: &Record) -> Result<(), NoMemory>
        ensures ok { OnOk result (self.new ≡ after_record one.now self.old) }
        ensures err { OnErr result (self.new ≡ self.old) }
    {
        match one {
            Record::Line { .. } => self.right = false,
            Record::Tti { tti } => self.begin_tti(*tti)?,
            Record::Sleep => self.sleep(),
            Record::Block {
                direction,
                process,
                fresh,
                rv,
                octets,
            } => {
                let block = BlockTold::new(self.alloc, *process, *fresh, *rv, octets.as_slice())?;
                self.send(*direction, block);
            }
            Record::Air {
                direction,
                what,
                heard,
            } => {
                let air = AirTold {
                    what: *what,
                    heard: *heard,
                };
                self.land(*direction, air);
            }
            _ => {}
        }
        Ok(())
    }

    /// The group has ended: with the next `line` record, the first `sum`, or the journal.
    pub fn end_line(&mut self)
        ensures { self.new ≡ after_group self.old }
    {
        self.close();
        self.right = self.right && is_met(self.due);
        self.due = Due::Nothing;
    }

    /// Whether the air of all groups that have ended is right. Behind a record within a group it
    /// says nothing.
    pub fn is_right(&self) -> bool
        ensures { result ≡ self.now.right }
    {
        self.right
    }

    // The running TTI ends.
    fn close(&mut self)
        ensures { self.new ≡ after_tti self.old }
    {
        if let Some(
            Running {
                number,
                granted,
                told,
            },
        ) = self.running.take()
        {
            let is_right = self.judge(number, granted, told);
            self.right = self.right && is_right;
        }
    }

    fn judge(&mut self, tti: u64, granted: Granted, told: TtiTold) -> bool
        ensures ends { self.new ≡ tti_judged tti granted told self.old }
        ensures right { result ≡ is_tti_right tti granted told self.old.down self.old.up }
    {
        let TtiTold {
            in_order,
            asleep,
            down,
            up,
        } = told;
        let outcome = missed(asleep, granted.down);
        let is_down = self.down.down(tti, granted.down_grant, outcome, down);
        let outcome = missed(asleep, granted.up);
        let is_up = self.up.up(tti, granted.up_grant, outcome, up);
        in_order && (!asleep || granted.may_sleep) && is_down && is_up
    }

    fn begin_tti(&mut self, tti: u64) -> Result<(), NoMemory>
        ensures ok { OnOk result (self.new ≡ tti_begun tti self.old.due (after_tti self.old)) }
        ensures err { OnErr result (self.new ≡ self.old) }
    {
        let Some(next) = self.next.checked_add(1) else {
            return Err(NoMemory);
        };
        self.close();
        match self.due {
            Due::Nothing => self.right = false,
            Due::Once(granted) => {
                self.due = Due::Nothing;
                self.run(tti, granted, next);
            }
            Due::Often(grant) => self.run(tti, granted_often(grant), next),
        }
        Ok(())
    }

    fn run(&mut self, tti: u64, granted: Granted, next: u64)
        requires { next ≡ self.old.next + 1 }
        ensures { self.new ≡ with_tti tti granted self.old.due self.old }
    {
        self.right = self.right && tti == self.next;
        self.next = next;
        self.running = Some(Running {
            number: tti,
            granted,
            told: TtiTold::new(),
        });
    }

    fn sleep(&mut self)
        ensures { self.new ≡ told_more tells_sleep self.old }
    {
        match &mut self.running {
            Some(running) => running.told.sleep(),
            None => self.right = false,
        }
    }

    fn send(&mut self, direction: Direction, block: BlockTold)
        ensures { self.new ≡ told_more (tells_block direction block) self.old }
    {
        match &mut self.running {
            Some(running) => running.told.send(direction, block),
            None => self.right = false,
        }
    }

    fn land(&mut self, direction: Direction, air: AirTold)
        ensures { self.new ≡ told_more (tells_air direction air) self.old }
    {
        match &mut self.running {
            Some(running) => running.told.land(direction, air),
            None => self.right = false,
        }
    }
}
