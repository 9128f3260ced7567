ghost use Rattle.std.specs.Prelude.{◌≡◌, ◌+◌, ◌<◌, ◌^◌, ◌++◌, length, drop, slice_get, All, Some};
ghost use Rattle.std.specs.Prelude.{IfOk, OnOk};
ghost use Rattle.l2_bits.specs.Bits.{bits_of, digit};
ghost use Rattle.rlc_pdu.specs.Pdus.{IsNack};
ghost use Rattle.rlc_pdu.specs.Status.{has_more, nack_bits, nacks_bits, status_bits, status_size};
ghost use Rattle.rlc_pdu.specs.Writing.{status_written};

use crate::pdu::{Nack, Nacks};
use l2_bits::{BitWriter, Bytes, NoMemory};
use std::alloc::Global;

// Adds an entry.
fn put_nack(out: &mut BitWriter, nack: &Nack, more: bool) -> Result<(), NoMemory>
    requires { IsNack nack.now }
    ensures { OnOk result (out.new ≡ out.old ++ nack_bits nack.now more) }
{
    out.put(nack.sn, 10)?;
    out.put(more as u32, 1)?;
    match nack.part {
        None => out.put(0, 1)?,
        Some(part) => {
            out.put(1, 1)?;
            out.put(part.start, 15)?;
            out.put(part.end, 15)?;
        }
    }
    Ok(())
}

// The entry at a place of the list.
#[tactic(auto, using(crate::proofs::EntriesWritten::is_there, crate::proofs::EntriesWritten::fits_there))]
fn nack_at(nacks: &Nacks, at: usize) -> Nack
    requires there { at < length nacks.now }
    requires nacks { All IsNack nacks.now }
    ensures there { Some result ≡ slice_get nacks.now at }
    ensures fits { IsNack result }
{
    match nacks.get(at) {
        Some(nack) => *nack,
        None => unreachable!(),
    }
}

// Adds the entry at a place of the list.
#[tactic(auto, using(crate::proofs::EntriesWritten::entry_there))]
fn put_entry(out: &mut BitWriter, nacks: &Nacks, at: usize) -> Result<(), NoMemory>
    requires there { at < length nacks.now }
    requires nacks { All IsNack nacks.now }
    ensures { OnOk result (out.new ++ nacks_bits (drop (at + 1) nacks.now)
        ≡ out.old ++ nacks_bits (drop at nacks.now)) }
{
    let more = nacks.len() - at > 1;
    let nack = nack_at(nacks, at);
    put_nack(out, &nack, more)
}

// Adds all entries.
fn put_entries(out: &mut BitWriter, nacks: &Nacks) -> Result<(), NoMemory>
    requires { All IsNack nacks.now }
    ensures { OnOk result (out.new ≡ out.old ++ nacks_bits nacks.now) }
{
    for at in 0..nacks.len() {
        put_entry(out, nacks, at)?;
    }
    Ok(())
}

fn write(alloc: Global, ack: u32, nacks: &Nacks) -> Result<Bytes, NoMemory>
    requires number { ack < 2 ^ 10 }
    requires nacks { All IsNack nacks.now }
    ensures { IfOk result (λ pdu. bits_of pdu ≡ status_written ack nacks.now) }
{
    let mut out = BitWriter::new(alloc);
    out.put(0, 4)?;
    out.put(ack, 10)?;
    out.put(!nacks.is_empty() as u32, 1)?;
    put_entries(&mut out, nacks)?;
    out.fill()?;
    Ok(out.finish())
}

/// Writes a STATUS PDU (TS 36.322 6.2.1.6) with an ACK_SN of 10 bits and these entries in their
/// order, each with its fields in range.
pub fn write_status(alloc: Global, ack: u32, nacks: &Nacks) -> Result<Bytes, NoMemory>
    requires number { ack < 2 ^ 10 }
    requires nacks { All IsNack nacks.now }
    ensures bits { IfOk result (λ pdu. bits_of pdu ≡ status_written ack nacks.now) }
    ensures size { IfOk result (λ pdu. length pdu ≡ status_size nacks.now) }
{
    let pdu = write(alloc, ack, nacks)?;
    Ok(pdu)
}
