ghost use Rattle.std.specs.Prelude.{◌≡◌, ◌≤◌, ◌<◌, ◌^◌, ◌+◌, ◌++◌, ◌∷◌, [], OnOk, length};
ghost use Rattle.air_record.specs.Text.{texts_of};
ghost use Rattle.pdu_show.specs.Show.{block_shown};
ghost use Rattle.pdu_show.specs.Decoding.{Decodes, undecoded};
ghost use Rattle.l2_bits.specs.declared.limits.TheConstants.{OCTETS_LIMIT};

use crate::entry::{Head, read_entry};
use crate::kinds::Kinds;
use crate::show::{Records, show_with};
use crate::spares::Spares;
use air_text::{LineFault, Record, append_record};
use l2_bits::{Bytes, NoMemory};
use mac_pdu::Direction;
use std::alloc::Global;
use std::marker::Model;

/// The showing of an input, line by line.
#[derive(Drop)]
pub struct Decoder {
    alloc: Global,
    kinds: Kinds,
    blocks: u32,
    // A line's block, and what is shown of it.
    octets: Bytes,
    records: Records,
    spares: Spares,
}

impl Model for Decoder {
    ghost use Rattle.pdu_show.specs.Decoding.{Decoding};

    ghost Value = { Decoding };

    ghost view = { λ d. record { kinds = d.kinds; blocks = d.blocks } };
}

// Adds the texts of records, which are taken out of their list. Their memory is spare then.
fn append_records(
    text: &mut Bytes,
    records: &mut Records,
    spares: &mut Spares,
) -> Result<(), NoMemory>
    ensures { OnOk result (text.new ≡ text.old ++ texts_of records.old) }
{
    while let Some(one) = records.pop_front() {
        append_record(text, &one)?;
        spares.keep(one);
    }
    Ok(())
}

// Takes all records out of a list.
fn clear(records: &mut Records)
    ensures { records.new ≡ [] }
{
    while let Some(_) = records.pop_front() {}
}

// Adds the texts that a block is shown by.
fn append_block(
    text: &mut Bytes,
    records: &mut Records,
    spares: &mut Spares,
    number: u32,
    direction: Direction,
    kinds: &Kinds,
    block: &[u8],
) -> Result<(), NoMemory>
    requires { length block.now < OCTETS_LIMIT }
    ensures { OnOk result (text.new ≡ text.old
        ++ texts_of (Record.Shown number direction (length block.now)
        ∷ block_shown direction kinds.now block.now)) }
{
    clear(records);
    records.push(Record::Shown {
        number,
        direction,
        len: block.len() as u32,
    })?;
    show_with(spares, records, direction, kinds, block)?;
    append_records(text, records, spares)
}

impl Decoder {
    /// A showing before the first line. It takes no memory.
    pub fn new(alloc: Global) -> Decoder
        ensures { result ≡ undecoded }
    {
        Decoder {
            alloc,
            kinds: Kinds::new(),
            blocks: 0,
            octets: Bytes::new(alloc),
            records: Records::new(alloc),
            spares: Spares::new(alloc),
        }
    }

    /// Reads a line and adds the texts of its records to a text. A refused line changes nothing and
    /// adds nothing.
    pub fn line(&mut self, text: &[u8], out: &mut Bytes) -> Result<(), LineFault>
        ensures { Decodes self.old text.now self.new out.old out.new result }
    {
        match read_entry(self.alloc, text, &mut self.octets)? {
            None => Ok(()),
            Some(Head::Bearer(config)) => {
                let lcid = config.channel.lcid;
                self.kinds
                    .set(lcid, config.kind, config.rlc_bits, config.pdcp_bits);
                Ok(())
            }
            Some(Head::Block(direction)) => {
                let number = self.blocks.checked_add(1).ok_or(NoMemory)?;
                append_block(
                    out,
                    &mut self.records,
                    &mut self.spares,
                    number,
                    direction,
                    &self.kinds,
                    self.octets.as_slice(),
                )?;
                self.blocks = number;
                Ok(())
            }
        }
    }
}
