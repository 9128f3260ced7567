//! PDUs and blocks as they are written.

ghost use Rattle.std.specs.Prelude.{◌<◌, ◌≤◌, length};

use crate::fault::Fault;
use l2_bits::{Bytes, NoMemory};
use mac_pdu::{Bsr, Control, Direction, MacBuilder};
use pdcp_pdu::{write_long_report, write_report, write_srb, write_user};
use rlc_pdu::{Nack, Nacks, Part, Segment, write_amd, write_status, write_umd};
use std::alloc::Global;

const THREE: &[u8] = &[0xaa, 0xbb, 0xcc];

const SEGMENT: Segment = Segment { last: true, so: 4 };

const MISSING: Nack = Nack {
    sn: 1,
    part: Some(Part {
        start: 2,
        end: 32767,
    }),
};

fn status(alloc: Global) -> Result<Bytes, NoMemory> {
    let mut nacks = Nacks::new(alloc);
    nacks.push(MISSING)?;
    write_status(alloc, 3, &nacks)
}

/// The PDU of RLC that has the name.
pub fn rlc(alloc: Global, name: &str) -> Result<Bytes, Fault> {
    Ok(match name {
        "umd-5" => write_umd(alloc, 5, 31, 0, &[1], &[0xaa])?,
        "umd-10" => write_umd(alloc, 10, 1023, 3, &[1], &[1])?,
        "umd-of-two" => write_umd(alloc, 5, 0, 3, &[1, 1], &[1, 2])?,
        "amd-of-three" => write_amd(alloc, 0, true, 0, None, &[1, 1, 1], THREE)?,
        "amd-segment" => write_amd(alloc, 1023, false, 0, Some(SEGMENT), &[3], THREE)?,
        "status-of-none" => write_status(alloc, 1, &Nacks::new(alloc))?,
        "status-of-one" => status(alloc)?,
        _ => return Err(Fault::Words),
    })
}

/// The PDU of PDCP that has the name.
pub fn pdcp(alloc: Global, name: &str) -> Result<Bytes, Fault> {
    Ok(match name {
        "user-7" => write_user(alloc, 7, 127, &[1])?,
        "user-12" => write_user(alloc, 12, 4095, &[1])?,
        "user-12-first" => write_user(alloc, 12, 0, &[0xaa])?,
        "user-15" => write_user(alloc, 15, 32767, &[1])?,
        "signalling" => write_srb(alloc, 5, &[0xaa], &[0xde, 0xad, 0xbe, 0xef])?,
        "report" => write_report(alloc, 0, &[])?,
        "report-12" => write_report(alloc, 1, &[0x80])?,
        "report-15" => write_long_report(alloc, 1, &[0x80])?,
        _ => return Err(Fault::Words),
    })
}

/// A block of so many octets, with the items that have the name.
pub fn block(alloc: Global, name: &str, size: u32) -> Result<Bytes, Fault> {
    let mut builder = MacBuilder::new(alloc, Direction::Up);
    match name {
        "padding" => {}
        "elements" => {
            builder.control(&Control::Crnti(0x1234))?;
            builder.control(&Control::Report(Bsr::Short { group: 2, level: 9 }))?;
        }
        "element-and-sdu" => {
            builder.control(&Control::Report(Bsr::Short { group: 0, level: 6 }))?;
            builder.sdu(0, &[1])?;
        }
        _ => return Err(Fault::Words),
    }
    built(builder, size)
}

/// A block of an SDU of so many octets, and of so many more than the least.
pub fn sdu(alloc: Global, len: u32, more: u32) -> Result<Bytes, Fault> {
    let mut sdu = Bytes::new(alloc);
    sdu.append_times(7, len.clamp(1, 9421))?;
    let mut builder = MacBuilder::new(alloc, Direction::Up);
    builder.sdu(3, sdu.as_slice())?;
    let size = builder.least().saturating_add(more);
    built(builder, size)
}

fn built(builder: MacBuilder, size: u32) -> Result<Bytes, Fault> {
    if size < builder.least() || size == 0 || size > 10_000 {
        return Err(Fault::Words);
    }
    builder.build(size).map_err(|_| Fault::NoMemory)
}
