//! PDUs and blocks as they are read.

ghost use Rattle.std.specs.Prelude.{◌≡◌};

use crate::fault::Fault;
use mac_pdu::{Direction, MacReader};
use pdcp_pdu::{read_srb, read_user};
use rlc_pdu::{AmPdu, Elements, NackReader, read_am, read_umd};
use std::alloc::Global;

/// No PDU of the input is as long.
const LONGEST: usize = 10_000;

fn elements(alloc: Global, from: Elements<'_>, most: usize) -> Result<String, Fault> {
    let mut left = from;
    let mut text = String::new(alloc);
    for _ in 0..most {
        let Some(element) = left.next() else {
            break;
        };
        text = format!(in alloc; "{text} {element:?}")?;
    }
    Ok(text)
}

fn nacks(alloc: Global, from: NackReader<'_>, most: usize) -> Result<String, Fault> {
    let mut left = from;
    let mut text = String::new(alloc);
    for _ in 0..most {
        let Some(nack) = left.next() else {
            break;
        };
        text = format!(in alloc; "{text} {nack:?}")?;
    }
    Ok(text)
}

/// A UMD PDU: its number, its framing and its elements.
pub fn umd(alloc: Global, bits: u32, pdu: &[u8]) -> Result<String, Fault> {
    if (bits != 5 && bits != 10) || pdu.len() > LONGEST {
        return Err(Fault::Words);
    }
    match read_umd(bits, pdu) {
        Ok(umd) => {
            let elements = elements(alloc, umd.elements, pdu.len())?;
            Ok(format!(in alloc; "{:?}{elements}", (umd.sn, umd.fi))?)
        }
        Err(refused) => Ok(format!(in alloc; "{refused:?}")?),
    }
}

/// A PDU of an acknowledged bearer: its number, its polling, its framing, its segment and its
/// elements, or what a STATUS acknowledges and its entries.
pub fn am(alloc: Global, pdu: &[u8]) -> Result<String, Fault> {
    if pdu.len() > LONGEST {
        return Err(Fault::Words);
    }
    match read_am(pdu) {
        Ok(AmPdu::Payload(amd)) => {
            let elements = elements(alloc, amd.elements, pdu.len())?;
            let fields = (amd.sn, amd.poll, amd.fi, amd.segment);
            Ok(format!(in alloc; "{fields:?}{elements}")?)
        }
        Ok(AmPdu::Status(status)) => {
            let nacks = nacks(alloc, status.nacks, pdu.len())?;
            Ok(format!(in alloc; "{}{nacks}", status.ack)?)
        }
        Err(refused) => Ok(format!(in alloc; "{refused:?}")?),
    }
}

/// A PDU of a data bearer.
pub fn user(alloc: Global, bits: u32, pdu: &[u8]) -> Result<String, Fault> {
    if bits != 7 && bits != 12 && bits != 15 {
        return Err(Fault::Words);
    }
    Ok(format!(in alloc; "{:?}", read_user(bits, pdu))?)
}

/// A PDU of a signalling bearer.
pub fn srb(alloc: Global, pdu: &[u8]) -> Result<String, Fault> {
    Ok(format!(in alloc; "{:?}", read_srb(pdu))?)
}

/// The items of a block.
pub fn mac(alloc: Global, direction: Direction, block: &[u8]) -> Result<String, Fault> {
    if block.len() > LONGEST {
        return Err(Fault::Words);
    }
    let mut left = match MacReader::parse(direction, block) {
        Ok(left) => left,
        Err(refused) => return Ok(format!(in alloc; "{refused:?}")?),
    };
    let mut text = String::new(alloc);
    for _ in 0..block.len() {
        let Some(item) = left.next() else {
            break;
        };
        text = format!(in alloc; "{text}{item:?} ")?;
    }
    Ok(text)
}
