ghost use Rattle.std.specs.Prelude.{◌≡◌, ◌<◌, ◌≤◌, ◌^◌, ◌++◌, ◌∷◌, [], true, None, Some, length};
ghost use Rattle.std.specs.Prelude.{is_some, OnOk, IfOk};
ghost use Rattle.std.specs.List.{All};
ghost use Rattle.air_record.specs.Text.{accepted_text};
ghost use Rattle.air_run.specs.Buffers.{no_buffers};
ghost use Rattle.air_run.specs.Draining.{shown};
ghost use Rattle.air_run.specs.Putting.{Tells};
ghost use Rattle.air_run.specs.Steps.{Puts};
ghost use Rattle.air_run.specs.Written.{Journal as Machine, all_seen, all_forged, with_um, noticed};
ghost use Rattle.air_run.specs.Written.{told, noted};
ghost use Rattle.air_text.specs.Ranges.{IsInRange};
ghost use Rattle.bearer_types.specs.Sides.{heard_by};
ghost use Rattle.l2_io.specs.Known.{HasRisen};
ghost use Rattle.pdu_show.specs.Show.{block_shown};
ghost use Rattle.um_losses.specs.Losses.{none_seen, is_long};
ghost use Rattle.l2_bits.specs.declared.limits.TheConstants.{OCTETS_LIMIT};

use crate::buffers::Buffers;
use crate::refusal::StepFault;
use air_link::Link;
use air_text::{Line, Record, append_accepted, append_record};
use bearer_types::BearerConfig;
use l2_bits::{Bytes, NoMemory};
use l2_io::{PutFault, Sink};
use l2_node::heard_by;
use l2_types::{Kind, Side};
use mac_pdu::Direction;
use pdu_show::{Records, show_block};
use std::alloc::Global;
use std::marker::Model;
use um_losses::Losses;

/// So many octets of text are worth a put while a line goes on.
const PIECE: usize = 65_536;

/// The text of a line's records, where it is wanted, and what the records so far tell of losses and
/// of the terminal's buffers.
#[derive(Drop)]
pub(crate) struct Journal {
    alloc: Global,
    text: Bytes,
    is_muted: bool,
    losses: Losses,
    buffers: Buffers,
}

impl Model for Journal {
    ghost use Rattle.std.specs.Prelude.{if◌then◌else◌, None, Some};
    ghost use Rattle.air_run.specs.Written.{Journal as Machine};

    ghost Value = { Machine };

    ghost view = { λ j. record {
      text = if j.is_muted then None else Some j.text;
      losses = j.losses;
      buffers = j.buffers;
    } };
}

impl Journal {
    pub fn new(alloc: Global) -> Journal
        ensures { result ≡ record { text = None; losses = none_seen; buffers = no_buffers } }
    {
        Journal {
            alloc,
            text: Bytes::new(alloc),
            is_muted: true,
            losses: Losses::new(alloc),
            buffers: Buffers::new(),
        }
    }

    /// The text of the line that was begun last.
    pub fn text(&self) -> &[u8]
        requires { is_some self.now.text ≡ true }
        ensures { self.now.text ≡ Some result.now }
    {
        self.text.as_slice()
    }

    /// Whether the losses of an unacknowledged flow were long; `None` for any other.
    pub fn is_long(&self, direction: Direction, lcid: u8) -> Option<bool>
        ensures { result ≡ is_long direction lcid self.now.losses.flows }
    {
        self.losses.is_long(direction, lcid)
    }

    /// The Buffer Size levels that the base station was told last.
    pub fn levels(&self) -> [u8; 4]
        ensures levels { result ≡ self.now.buffers.levels }
        ensures within { All (λ level. level < 64) result }
    {
        self.buffers.levels()
    }

    /// Begins the text of a line, with its own record.
    pub fn begin(&mut self, number: u32, line: &Line) -> Result<(), NoMemory>
        ensures { OnOk result
            (self.new ≡ record self.old { text = Some (accepted_text number line.now) }) }
    {
        self.is_muted = false;
        self.text.clear();
        append_accepted(&mut self.text, number, line)
    }

    /// Begins a line of which no text is made.
    pub fn begin_muted(&mut self)
        ensures { self.new ≡ record self.old { text = None } }
    {
        self.is_muted = true;
    }

    pub fn put(&mut self, one: &Record) -> Result<(), NoMemory>
        ensures { OnOk result (self.new ≡ told (one.now ∷ []) self.old) }
    {
        self.losses.see(one)?;
        self.buffers.see(one);
        if self.is_muted {
            return Ok(());
        }
        append_record(&mut self.text, one)
    }

    #[tactic(auto, using(crate::proofs::Telling::told_one, crate::proofs::Telling::told_none))]
    fn put_all(&mut self, records: &mut Records, link: &mut Link) -> Result<(), NoMemory>
        ensures journal { OnOk result (self.new ≡ told records.old self.old) }
        ensures gone { OnOk result (records.new ≡ []) }
        ensures link { OnOk result (link.new ≡ link.old) }
    {
        while let Some(one) = records.pop_front() {
            self.put(&one)?;
            link.recycle(one);
        }
        Ok(())
    }

    /// Puts the records that both ends left so far.
    pub fn put_out(&mut self, link: &mut Link) -> Result<(), NoMemory>
        ensures journal { OnOk result (self.new ≡ told link.old.out self.old) }
        ensures link { OnOk result (link.new ≡ shown link.old) }
    {
        let mut records = link.take_out();
        self.put_all(&mut records, link)?;
        link.reuse(records);
        Ok(())
    }

    /// Puts the text so far, where it is wanted and there is much of it.
    pub fn put_text<K: Sink>(&mut self, out: &mut K) -> Result<(), StepFault>
        ensures put { Tells [] self.old self.new (K.written out.old) (K.written out.new)
            (HasRisen (K.faults out.old) (K.faults out.new)) result }
        ensures count { K.faults out.old ≤ K.faults out.new }
    {
        if self.is_muted || self.text.as_slice().len() < PIECE {
            return Ok(());
        }
        put(self.text.as_slice(), out)?;
        self.text.clear();
        Ok(())
    }

    /// What a line tells itself of losses and buffers, behind what it did and before its records.
    pub fn note(&mut self, line: &Line, link: &Link) -> Result<(), NoMemory>
        requires { IsInRange line.now }
        ensures { OnOk result (self.new ≡ noted line.now link.now self.old) }
    {
        self.buffers.begin(line);
        match line {
            Line::Bearer { config, .. } => self.note_bearer(config),
            Line::Handover { .. } => self.losses.hand_over(),
            Line::Forge { side, octets } => self.note_forged(*side, octets.as_slice(), link),
            _ => Ok(()),
        }
    }

    fn note_bearer(&mut self, config: &BearerConfig) -> Result<(), NoMemory>
        ensures { OnOk result
            (self.new ≡ record self.old {
              losses =
                  with_um config.now.kind config.now self.old.losses;
            }) }
    {
        match config.kind {
            Kind::Um => self
                .losses
                .add(config.channel.lcid, config.rlc_bits, config.pdcp_bits),
            _ => Ok(()),
        }
    }

    fn note_forged(&mut self, side: Side, block: &[u8], link: &Link) -> Result<(), NoMemory>
        requires { length block.now < OCTETS_LIMIT }
        ensures { OnOk result
            (self.new ≡ record self.old {
              losses =
                  all_forged side (block_shown (heard_by side) link.now.kinds block.now) self.old.losses;
            }) }
    {
        let records = show_block(self.alloc, heard_by(side), link.kinds(), block)?;
        see_all_forged(&mut self.losses, side, records)
    }
}

/// Puts a text.
pub(crate) fn put<K: Sink>(text: &[u8], out: &mut K) -> Result<(), StepFault>
    ensures put { Puts text.now (K.written out.old) (K.written out.new)
        (HasRisen (K.faults out.old) (K.faults out.new)) result }
    ensures count { K.faults out.old ≤ K.faults out.new }
{
    match out.put(text) {
        Ok(()) => Ok(()),
        Err(PutFault::Failed) => Err(StepFault::WriteFault),
        Err(PutFault::NoMemory) => Err(StepFault::NoMemory),
    }
}

// The records of a block that is forged at a side.
fn see_all_forged(losses: &mut Losses, side: Side, mut records: Records) -> Result<(), NoMemory>
    ensures { OnOk result (losses.new ≡ all_forged side records losses.old) }
{
    while let Some(one) = records.pop_front() {
        losses.see_forged(side, &one)?;
    }
    Ok(())
}
