// The flows of a run.
ghost use Rattle.std.specs.Prelude.{◌≡◌, OnOk, map};
ghost use Rattle.um_losses.specs.Losses.{none_seen, is_bearer, is_long, with_bearer, changed_one};
ghost use Rattle.um_losses.specs.Losses.{changed, seen, seen_forged, handed_over};

use crate::cursor::{Change, Cursor};
use crate::flow::{Flow, Happening, Whose};
use air_record::Record;
use l2_bits::NoMemory;
use l2_types::Side;
use mac_pdu::Direction;
use std::alloc::Global;
use std::marker::Model;

/// Whether the losses of each direction of each unacknowledged bearer were long, by the records of
/// a run.
///
/// They are long exactly where in some life of a bearer, which begins with it and at each handover,
/// a UMD PDU of the sender arrived whose number lay a window or more above the highest one that had
/// arrived, or as many COUNTs as PDCP has sequence numbers were left out between two SDUs that RLC
/// handed to PDCP.
///
/// After `NoMemory` nothing more is said of it.
#[derive(Drop)]
pub struct Losses {
    alloc: Global,
    cursor: Cursor,
    flows: Vec<Flow>,
}

impl Model for Losses {
    ghost use Rattle.um_losses.specs.Losses.{Losses as Machine};

    ghost Value = { Machine };

    ghost view = { λ l. record { cursor = l.cursor; flows = l.flows.items } };
}

impl Losses {
    /// No bearers. It takes no memory.
    pub fn new(alloc: Global) -> Losses
        ensures { result ≡ none_seen }
    {
        Losses {
            alloc,
            cursor: Cursor {
                direction: Direction::Down,
                process: 0,
                channel: None,
            },
            flows: Vec::new(alloc),
        }
    }

    /// Adds both directions of an unacknowledged bearer on a logical channel, 0 to 10, that has
    /// none: RLC's numbers have 5 or 10 bits, PDCP's 7 or 12. Another one isn't added.
    pub fn add(&mut self, lcid: u8, rlc_bits: u32, pdcp_bits: u32) -> Result<(), NoMemory>
        ensures { OnOk result (self.new ≡ with_bearer lcid rlc_bits pdcp_bits self.old) }
    {
        if !is_bearer(lcid, rlc_bits, pdcp_bits) || self.is_long(Direction::Down, lcid).is_some() {
            return Ok(());
        }
        let counts = if pdcp_bits == 7 { 128 } else { 4096 };
        let down = Flow::new(self.alloc, Direction::Down, lcid, rlc_bits, counts)?;
        let up = Flow::new(self.alloc, Direction::Up, lcid, rlc_bits, counts)?;
        self.flows.push(down).map_err(|_| NoMemory)?;
        self.flows.push(up).map_err(|_| NoMemory)?;
        Ok(())
    }

    /// Sees the next record of a run, other than those that `see_forged` sees.
    #[tactic(auto, unfolding(crate::specs::Losses::seen))]
    pub fn see(&mut self, one: &Record) -> Result<(), NoMemory>
        ensures { OnOk result (self.new ≡ seen one.now self.old) }
    {
        match self.cursor.pass(one) {
            Some(change) if !self.flows.is_empty() => {
                change_all(self.flows.as_mut_slice(), change)
            }
            _ => Ok(()),
        }
    }

    /// Sees the next record of what is shown of a block that is forged at a side.
    #[tactic(auto, unfolding(crate::specs::Losses::seen_forged))]
    pub fn see_forged(&mut self, side: Side, one: &Record) -> Result<(), NoMemory>
        ensures { OnOk result (self.new ≡ seen_forged side one.now self.old) }
    {
        match self.cursor.pass_forged(side, one) {
            Some(change) => change_all(self.flows.as_mut_slice(), change),
            None => Ok(()),
        }
    }

    /// Both ends end their life, and begin another.
    #[tactic(auto, unfolding(crate::specs::Losses::handed_over))]
    pub fn hand_over(&mut self) -> Result<(), NoMemory>
        ensures { OnOk result (self.new ≡ handed_over self.old) }
    {
        let change = Change {
            whose: Whose::All,
            what: Happening::LifeRestarted,
        };
        change_all(self.flows.as_mut_slice(), change)
    }

    /// Whether the losses of a direction of a bearer were long; `None` exactly where no
    /// unacknowledged bearer is there.
    pub fn is_long(&self, direction: Direction, lcid: u8) -> Option<bool>
        ensures { result ≡ is_long direction lcid self.now.flows }
    {
        for flow in &self.flows {
            if flow.is_of(direction, lcid) {
                return Some(flow.is_long());
            }
        }
        None
    }
}

fn is_bearer(lcid: u8, rlc_bits: u32, pdcp_bits: u32) -> bool
    ensures { result ≡ is_bearer lcid rlc_bits pdcp_bits }
{
    lcid <= 10 && (rlc_bits == 5 || rlc_bits == 10) && (pdcp_bits == 7 || pdcp_bits == 12)
}

fn change_all(flows: &mut [Flow], change: Change) -> Result<(), NoMemory>
    ensures { OnOk result (flows.new ≡ map (changed_one change) flows.old) }
{
    for flow in flows.iter_mut() {
        if flow.concerns(change.whose) {
            flow.change(change.what)?;
        }
    }
    Ok(())
}
