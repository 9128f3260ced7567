// The checker: a journal's lines and records, one by one.
ghost use Rattle.std.specs.Prelude.{◌≡◌, ◌<◌, ◌≤◌, OnOk};
ghost use Rattle.bearer_types.specs.Sides.{other, sender_of};
ghost use Rattle.bearer_pdcp.specs.Ends.{bearer_of, sends};
ghost use Rattle.journal_form.specs.Lines.{HasLayout};
ghost use Rattle.air_record.specs.Cells.{no_keys, next_keys};
ghost use Rattle.bearer_types.specs.Configs.{ArePdcpBits};
ghost use Rattle.journal_edge.specs.EdgeChecking.{um_begun, is_state};

use crate::channels::{self, Channels};
use crate::flow::EdgeFlow;
use air_record::{Line, Record, State, no_keys};
use bearer_pdcp::{bearer_of, sends};
use bearer_types::{BearerConfig, Event, other, sender_of};
use eps_sec::Keys;
use journal_flows::JournalFlows;
use l2_bits::NoMemory;
use l2_types::{Kind, Side};
use mac_pdu::Direction;
use std::alloc::Global;
use std::marker::Model;

// A bearer's flow in one direction, where it is unacknowledged.
fn begun(alloc: Global, from: Side, keys: &Keys, config: &BearerConfig) -> Option<EdgeFlow>
    requires lcid { config.now.channel.lcid ≤ 10 }
    requires bits { ArePdcpBits config.now.kind config.now.pdcp_bits }
    ensures { result ≡ um_begun config.now.kind from keys.now config.now }
{
    match config.kind {
        Kind::Um => {
            let (bearer, direction) = (bearer_of(config.channel.lcid), sends(from));
            Some(EdgeFlow::new(alloc, config.pdcp_bits, keys, bearer, direction))
        }
        Kind::Tm | Kind::Srb | Kind::Am => None,
    }
}

/// A checker of what goes up on the unacknowledged bearers of a journal: its lines and records go
/// in one by one, beside those of `JournalFlows`, which keeps the accounts of its flows.
///
/// It takes memory for the SDUs that were read in a group and haven't gone up in it yet, and for
/// those that went up and weren't read. Behind an `Err` nothing is known.
#[derive(Drop)]
pub struct EdgeChecker {
    alloc: Global,
    nb: Channels,
    ue: Channels,
    keys: Keys,
    renewal: Option<Keys>,
    right: bool,
}

impl Model for EdgeChecker {
    ghost use Rattle.journal_edge.specs.EdgeChecking.{EdgeChecking};

    ghost Value = { EdgeChecking };

    ghost view = { λ c. record {
      nb = c.nb.items;
      ue = c.ue.items;
      keys = c.keys;
      renewal = c.renewal;
      right = c.right;
    } };
}

impl EdgeChecker {
    ghost use Rattle.journal_edge.specs.EdgeChecking.{nothing_checked, with_bearer, after_line};
    ghost use Rattle.journal_edge.specs.EdgeChecking.{after_record, leaves, up_from, left_by};
    ghost use Rattle.journal_edge.specs.EdgeChecking.{slot_at, after_group, group_leaves};
    ghost use Rattle.journal_edge.specs.EdgeChecking.{group_closed};

    /// Before the first line. It takes no memory.
    pub fn new(alloc: Global) -> EdgeChecker
        ensures { result ≡ nothing_checked }
    {
        EdgeChecker {
            alloc,
            nb: channels::no_flows(),
            ue: channels::no_flows(),
            keys: no_keys(),
            renewal: None,
            right: true,
        }
    }

    /// The `line` record of an accepted line begins a group. `journal_form::has_layout` is true of
    /// it, as of every line that was read.
    pub fn begin_line(&mut self, line: &Line)
        requires { HasLayout line.now }
        ensures { self.new ≡ after_line line.now self.old }
    {
        match line {
            Line::Bearer { config, .. } => self.begin(config),
            Line::Keys { keys } => self.keys = *keys,
            Line::Handover {
                user,
                rrc,
                integrity,
            } => {
                self.renewal = Some(Keys {
                    alg: self.keys.alg,
                    user: *user,
                    rrc: *rrc,
                    integrity: *integrity,
                });
            }
            _ => {}
        }
    }

    fn begin(&mut self, config: &BearerConfig)
        requires lcid { config.now.channel.lcid ≤ 10 }
        requires bits { ArePdcpBits config.now.kind config.now.pdcp_bits }
        ensures { self.new ≡ with_bearer config.now self.old }
    {
        let lcid = config.channel.lcid;
        let down = begun(self.alloc, Side::Nb, &self.keys, config);
        let up = begun(self.alloc, Side::Ue, &self.keys, config);
        channels::set(&mut self.nb, lcid, down);
        channels::set(&mut self.ue, lcid, up);
    }

    /// A record of the group, which isn't its first. `flows` has seen it.
    pub fn see(&mut self, one: &Record, flows: &mut JournalFlows) -> Result<(), NoMemory>
        ensures checker { OnOk result (self.new ≡ after_record one.now flows.old self.old) }
        ensures flows { OnOk result (flows.new ≡ leaves one.now flows.old self.old) }
    {
        match one {
            Record::Of {
                side,
                event: Event::Up { lcid, octets },
            } => self.go_up(other(*side), *lcid, octets.as_slice(), flows),
            _ => Ok(()),
        }
    }

    // An SDU of a side goes up at the other one.
    fn go_up(
        &mut self,
        from: Side,
        lcid: u8,
        sdu: &[u8],
        flows: &mut JournalFlows,
    ) -> Result<(), NoMemory>
        ensures checker { OnOk result (self.new ≡ up_from from lcid sdu.now flows.old self.old) }
        ensures flows { OnOk result
            (flows.new ≡ left_by from lcid flows.old (slot_at from lcid self.old)) }
    {
        match from {
            Side::Nb => channels::go_up(&mut self.nb, from, lcid, sdu, flows),
            Side::Ue => channels::go_up(&mut self.ue, from, lcid, sdu, flows),
        }
    }

    /// The group has ended: with the next `line` record, the first `sum`, or the journal.
    /// `flows.end_line` was called.
    pub fn end_line(&mut self, flows: &mut JournalFlows) -> Result<(), NoMemory>
        ensures checker { OnOk result (self.new ≡ after_group flows.old self.old) }
        ensures flows { OnOk result (flows.new ≡ group_leaves flows.old self.old) }
    {
        channels::read_slots(&mut self.nb, Side::Nb, flows)?;
        channels::read_slots(&mut self.ue, Side::Ue, flows)?;
        self.close();
        Ok(())
    }

    fn close(&mut self)
        ensures { self.new ≡ group_closed self.old }
    {
        self.right = self.right && channels::are_right(&self.nb) && channels::are_right(&self.ue);
        channels::close(&mut self.nb, &self.renewal);
        channels::close(&mut self.ue, &self.renewal);
        if let Some(keys) = self.renewal {
            self.keys = keys;
        }
        self.renewal = None;
    }

    /// Whether what went up in all groups that have ended is what was read. Behind a record within
    /// a group it says nothing.
    pub fn is_right(&self) -> bool
        ensures { result ≡ self.now.right }
    {
        self.right
    }
}

/// Whether the `sum` record of a flow tells truly whether its losses were short or long; where the
/// flow isn't unacknowledged, it may tell anything.
pub fn is_state(flows: &JournalFlows, direction: Direction, lcid: u8, state: State) -> bool
    ensures { result ≡ is_state direction lcid state flows.now }
{
    let Some(flow) = flows.um_flow(sender_of(direction), lcid) else {
        return true;
    };
    match state {
        State::Short => !flow.is_long(),
        State::Long => flow.is_long(),
        _ => false,
    }
}
