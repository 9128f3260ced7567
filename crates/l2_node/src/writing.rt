// A new block: what each bearer writes into its share of a grant.
ghost use Rattle.std.specs.Prelude.{◌≡◌, ◌<◌, ◌≤◌, ◌^◌, ◌+◌, ◌++◌, ◌∷◌, ℕ, None, All, [], OnOk};
ghost use Rattle.std.specs.Prelude.{IfOk, slice_index, length};
ghost use Rattle.bearer_pdcp.specs.Shares.{FitsShare, in_block};
ghost use Rattle.prioritise.specs.Shares.{over};
ghost use Rattle.bearer_types.specs.Sides.{sent_by};
ghost use Rattle.l2_node.specs.Finding.{find, has, bearer_at, lowest};
ghost use Rattle.l2_node.specs.Writing.{taken_up, Block, Work, work, sdus_of, with_sdus, noted};
ghost use Rattle.l2_node.specs.Writing.{gathered, wrote, writes, all_write, nothing_written};

use crate::finding::{Holding, find};
use bearer::{Bearer, Events, Running, Side, Written};
use l2_bits::{NoMemory, Packets};
use l2_types::{Channel, GREATEST_GRANT};
use mac_pdu::{Direction, MacBuilder};
use std::alloc::Global;
use std::marker::Model;

// A block that is written.
#[derive(Drop)]
pub(crate) struct NewBlock {
    pub builder: MacBuilder,
    // The numbers of the data PDUs in it, by LCID.
    pub numbers: [Option<u64>; 11],
    pub events: Events,
}

impl Model for NewBlock {
    ghost use Rattle.l2_node.specs.Writing.{Block};

    ghost Value = { Block };

    ghost view = { λ b. record { parts = b.builder; numbers = b.numbers; events = b.events } };
}

impl NewBlock {
    pub fn new(alloc: Global, side: Side) -> NewBlock
        ensures { result ≡ nothing_written side }
    {
        NewBlock {
            builder: MacBuilder::new(alloc, sent_by(side)),
            numbers: [None; 11],
            events: Events::new(alloc),
        }
    }

    // Takes over what a bearer wrote.
    fn gather(&mut self, lcid: u8, share: u32, written: Written) -> Result<(), NoMemory>
        requires lcid { lcid < 11 }
        requires fits { FitsShare share written.pdus }
        requires plain { self.old.parts.controls ≡ [] }
        requires room { taken_up self.old.parts.sdus + share ≤ GREATEST_GRANT + 2 }
        ensures block { OnOk result
            (self.new ≡ gathered lcid written.pdus written.number written.events self.old) }
        ensures taken_up { OnOk result (taken_up self.new.parts.sdus
            ≤ taken_up self.old.parts.sdus + share) }
    {
        let Written {
            pdus,
            number,
            mut events,
        } = written;
        add_sdus(&mut self.builder, lcid, pdus)?;
        if number.is_some() {
            self.numbers[lcid as usize] = number;
        }
        self.events.append(&mut events)
    }
}

/// The direction in which an end sends: the base station on the downlink, the terminal on the
/// uplink.
pub fn sent_by(side: Side) -> Direction
    ensures { result ≡ sent_by side }
{
    match side {
        Side::Nb => Direction::Down,
        Side::Ue => Direction::Up,
    }
}

// Moves PDUs into a block.
fn add_sdus(builder: &mut MacBuilder, lcid: u8, mut pdus: Packets) -> Result<(), NoMemory>
    requires lcid { lcid < 11 }
    requires some { All (λ p. 1 ≤ length p) pdus }
    requires plain { builder.old.controls ≡ [] }
    requires room { taken_up builder.old.sdus + in_block pdus ≤ GREATEST_GRANT + 2 }
    ensures parts { OnOk result (builder.new ≡ with_sdus (sdus_of lcid pdus) builder.old) }
    ensures taken_up { OnOk result (taken_up builder.new.sdus
        ≡ taken_up builder.old.sdus + in_block pdus) }
{
    while let Some(octets) = pdus.pop_front() {
        builder.move_sdu(lcid, octets)?;
    }
    Ok(())
}

// The bearer of a channel writes within a share.
fn write_one(
    bearers: &mut Vec<Bearer<Running>>,
    block: &mut NewBlock,
    lcid: u8,
    share: u32,
    held: Option<u64>,
) -> Result<(), NoMemory>
    requires lcid { lcid < 11 }
    requires plain { block.old.parts.controls ≡ [] }
    requires room { taken_up block.old.parts.sdus + share ≤ GREATEST_GRANT + 2 }
    ensures bearers { OnOk result (bearers.new.items
        ≡ (writes lcid share held (work bearers.old.items block.old)).bearers) }
    ensures block { OnOk result
        (block.new ≡ (writes lcid share held (work bearers.old.items block.old)).block) }
    ensures taken_up { OnOk result (taken_up block.new.parts.sdus
        ≤ taken_up block.old.parts.sdus + share) }
    ensures plain { OnOk result (block.new.parts.controls ≡ []) }
    ensures direction { OnOk result (block.new.parts.direction ≡ block.old.parts.direction) }
{
    let at = find(lcid, bearers.as_slice());
    if at < bearers.len() {
        let bearer = &mut bearers[at];
        let written = bearer.take(share, held)?;
        block.gather(lcid, share, written)?;
    }
    Ok(())
}

// All bearers write, in the order of their channels.
pub(crate) fn write_all(
    holding: &Holding<'_>,
    shares: &[u32; 11],
    channels: &[Channel],
    bearers: &mut Vec<Bearer<Running>>,
    block: &mut NewBlock,
) -> Result<(), NoMemory>
    requires lcids { All (λ c. c.lcid < 11) channels.now }
    requires plain { block.old.parts.controls ≡ [] }
    requires room { taken_up block.old.parts.sdus + over channels.now shares.now
        ≤ GREATEST_GRANT + 2 }
    ensures bearers { OnOk result (bearers.new.items
        ≡ (all_write holding.now.sender holding.now.numbers shares.now channels.now
        (work bearers.old.items block.old)).bearers) }
    ensures block { OnOk result
        (block.new
        ≡ (all_write holding.now.sender holding.now.numbers shares.now channels.now
        (work bearers.old.items block.old)).block) }
    ensures taken_up { OnOk result (taken_up block.new.parts.sdus
        ≤ taken_up block.old.parts.sdus + over channels.now shares.now) }
    ensures plain { OnOk result (block.new.parts.controls ≡ []) }
    ensures direction { OnOk result (block.new.parts.direction ≡ block.old.parts.direction) }
{
    for channel in channels {
        let lcid = channel.lcid;
        let held = holding.lowest(lcid);
        write_one(bearers, block, lcid, shares[lcid as usize], held)?;
    }
    Ok(())
}
