// The checker: a journal's lines and records, one by one.
ghost use Rattle.std.specs.Prelude.{◌≡◌, OnOk, IfOk, length};
ghost use Rattle.promises.specs.Records.{is_shown};
ghost use Rattle.journal_form.specs.Checking.{sends, builds, ends, goes_on, shows, awaits};
ghost use Rattle.journal_form.specs.Checking.{none_awaited};

use crate::block::carries;
use crate::pdus::Sent;
use crate::shown::same_shown;
use air_record::{Line, Record};
use bearer_types::Event;
use l2_bits::{Items, NoMemory, OCTETS_LIMIT};
use l2_types::Side;
use mac_pdu::Direction;
use pdu_show::{Kinds, Records, show_block};
use std::alloc::Global;
use std::marker::Model;

/// As many PDUs may be told of before the block that carries them.
const MOST_SENT: usize = 16384;

// Whether a record shows a part of a block.
fn is_shown(one: &Record) -> bool
    ensures { result ≡ is_shown one.now }
{
    match one {
        Record::MacFront
        | Record::MacSdu { .. }
        | Record::MacPad { .. }
        | Record::MacControl { .. }
        | Record::RlcTm { .. }
        | Record::RlcUm { .. }
        | Record::RlcAm { .. }
        | Record::RlcSeg { .. }
        | Record::RlcStatus { .. }
        | Record::PdcpData { .. }
        | Record::PdcpSrb { .. }
        | Record::PdcpReport { .. }
        | Record::BadMac { .. }
        | Record::BadRlc { .. }
        | Record::BadPdcp { .. } => true,
        _ => false,
    }
}

// What a direction's sender names behind the last new block.
#[derive(Drop)]
struct Building {
    alloc: Global,
    sent: Items<Sent>,
    right: bool,
}

impl Model for Building {
    ghost use Rattle.journal_form.specs.Checking.{Building as Built};

    ghost Value = { Built };

    ghost view = { λ b. record { sent = b.sent; right = b.right } };
}

impl Building {
    ghost use Rattle.std.specs.Prelude.{◌<◌, [], true};
    ghost use Rattle.l2_bits.specs.declared.limits.TheConstants.{OCTETS_LIMIT};

    fn new(alloc: Global) -> Building
        ensures { result ≡ record { sent = []; right = true } }
    {
        Building {
            alloc,
            sent: Items::new(alloc),
            right: true,
        }
    }

    // A PDU more. More than a block could carry find no memory.
    fn send(&mut self, one: Sent) -> Result<(), NoMemory>
        ensures { OnOk result (self.new ≡ sends one self.old) }
    {
        if self.sent.len() >= MOST_SENT {
            return Err(NoMemory);
        }
        self.sent.push(one)
    }

    // A new block of a direction.
    fn build(&mut self, direction: Direction, kinds: &Kinds, octets: &[u8]) -> Result<(), NoMemory>
        requires { length octets.now < OCTETS_LIMIT }
        ensures { OnOk result (self.new ≡ builds direction kinds.now octets.now self.old) }
    {
        let is_right = carries(self.alloc, direction, kinds, &mut self.sent, octets)?;
        self.right = self.right && is_right;
        self.clear();
        Ok(())
    }

    fn end(&mut self)
        ensures { self.new ≡ ends self.old }
    {
        self.right = self.right && self.sent.is_empty();
        self.clear();
    }

    // Nothing is named; the list keeps its memory where it is empty already.
    fn clear(&mut self)
        ensures { self.new ≡ record { sent = []; right = self.old.right } }
    {
        if !self.sent.is_empty() {
            self.sent = Items::new(self.alloc);
        }
    }
}

// The records that have still to show the last block.
#[derive(Drop)]
struct Showing {
    alloc: Global,
    awaited: Records,
    right: bool,
}

impl Model for Showing {
    ghost use Rattle.journal_form.specs.Checking.{Showing as Shown};

    ghost Value = { Shown };

    ghost view = { λ s. record { awaited = s.awaited; right = s.right } };
}

impl Showing {
    ghost use Rattle.std.specs.Prelude.{◌<◌, [], true};
    ghost use Rattle.l2_bits.specs.declared.limits.TheConstants.{OCTETS_LIMIT};

    fn new(alloc: Global) -> Showing
        ensures { result ≡ record { awaited = []; right = true } }
    {
        Showing {
            alloc,
            awaited: Records::new(alloc),
            right: true,
        }
    }

    // A record that shows nothing.
    fn go_on(&mut self)
        ensures { self.new ≡ goes_on self.old }
    {
        if !self.awaited.is_empty() {
            self.right = false;
            self.awaited = Records::new(self.alloc);
        }
    }

    // A new block of a direction.
    fn await_all(
        &mut self,
        direction: Direction,
        kinds: &Kinds,
        octets: &[u8],
    ) -> Result<(), NoMemory>
        requires { length octets.now < OCTETS_LIMIT }
        ensures { OnOk result (self.new ≡ awaits direction kinds.now octets.now self.old) }
    {
        self.right = self.right && self.awaited.is_empty();
        self.awaited = show_block(self.alloc, direction, kinds, octets)?;
        Ok(())
    }

    // A record that shows a part of a block.
    fn show(&mut self, one: &Record)
        ensures { self.new ≡ shows one.now self.old }
    {
        match self.awaited.pop_front() {
            Some(other) => self.right = self.right && same_shown(&other, one),
            None => self.right = false,
        }
    }
}

/// A checker of the form of a journal's new blocks: its lines and records go in one by one.
///
/// What it keeps doesn't grow with the journal: the bearers, the PDUs that are told of before the
/// next block of each direction, and the records that have still to show the last one.
#[derive(Drop)]
pub struct FormChecker {
    kinds: Kinds,
    down: Building,
    up: Building,
    showing: Showing,
}

impl Model for FormChecker {
    ghost use Rattle.journal_form.specs.Checking.{Checking};

    ghost Value = { Checking };

    ghost view = { λ c. record {
      kinds = c.kinds;
      down = c.down;
      up = c.up;
      showing = c.showing;
    } };
}

impl FormChecker {
    ghost use Rattle.journal_form.specs.Lines.{HasLayout};
    ghost use Rattle.journal_form.specs.Checking.{nothing_checked, after_line, after_record};
    ghost use Rattle.journal_form.specs.Checking.{after_send, after_block, after_other};
    ghost use Rattle.journal_form.specs.Checking.{after_group, is_right};

    /// Before the first line. It takes no memory.
    pub fn new(alloc: Global) -> FormChecker
        ensures { result ≡ nothing_checked }
    {
        FormChecker {
            kinds: Kinds::new(),
            down: Building::new(alloc),
            up: Building::new(alloc),
            showing: Showing::new(alloc),
        }
    }

    /// The `line` record of an accepted line begins a group. `has_layout` is true of it, as of
    /// every line that was read.
    pub fn begin_line(&mut self, line: &Line)
        requires { HasLayout line.now }
        ensures { self.new ≡ after_line line.now self.old }
    {
        if let Line::Bearer { config, .. } = line {
            let lcid = config.channel.lcid;
            self.kinds
                .set(lcid, config.kind, config.rlc_bits, config.pdcp_bits);
        }
    }

    /// A record of the group, which isn't its first.
    ///
    /// `NoMemory` where there is none, where a block has 2^28 octets or more or an SDU of 2^15 or
    /// more, and where 16,384 PDUs are told of before a block that carries them. Behind it the
    /// checker says nothing.
    pub fn see(&mut self, one: &Record) -> Result<(), NoMemory>
        ensures { OnOk result (self.new ≡ after_record one.now self.old) }
    {
        match one {
            Record::Of {
                side,
                event: Event::Send { lcid, how, sn },
            } => {
                let sent = Sent {
                    lcid: *lcid,
                    how: *how,
                    sn: *sn,
                };
                self.send(*side, sent)
            }
            Record::Block {
                direction,
                fresh: true,
                octets,
                ..
            } => self.build(*direction, octets.as_slice()),
            _ => {
                self.show(one);
                Ok(())
            }
        }
    }

    /// The group has ended: with the next `line` record, the first `sum`, or the journal.
    pub fn end_line(&mut self)
        ensures { self.new ≡ after_group self.old }
    {
        self.down.end();
        self.up.end();
        self.showing.go_on();
    }

    /// Whether the new blocks of all groups that have ended have right form. Behind a record within
    /// a group it says nothing.
    pub fn is_right(&self) -> bool
        ensures { result ≡ is_right self.now }
    {
        self.down.right && self.up.right && self.showing.right
    }

    fn send(&mut self, side: Side, sent: Sent) -> Result<(), NoMemory>
        ensures { OnOk result (self.new ≡ after_send side sent self.old) }
    {
        self.showing.go_on();
        match side {
            Side::Nb => self.down.send(sent),
            Side::Ue => self.up.send(sent),
        }
    }

    fn build(&mut self, direction: Direction, octets: &[u8]) -> Result<(), NoMemory>
        ensures { OnOk result (self.new ≡ after_block direction octets.now self.old) }
    {
        if octets.len() >= OCTETS_LIMIT {
            return Err(NoMemory);
        }
        self.showing.await_all(direction, &self.kinds, octets)?;
        match direction {
            Direction::Down => self.down.build(direction, &self.kinds, octets),
            Direction::Up => self.up.build(direction, &self.kinds, octets),
        }
    }

    fn show(&mut self, one: &Record)
        ensures { self.new ≡ after_other one.now self.old }
    {
        if is_shown(one) {
            self.showing.show(one);
        } else {
            self.showing.go_on();
        }
    }
}
