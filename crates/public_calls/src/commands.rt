//! The words of a command line, and scripts of a number.

use crate::fault::Fault;
use air_text::Line;
use cli_words::Words;
use l2_io::Source;
use script_generator::{Script, ScriptLines};
use std::alloc::Global;

/// The command that the quoted words of a line are.
pub fn command(alloc: Global, line: &str) -> Result<String, Fault> {
    let mut words = Words::new(alloc);
    for word in line.split('"').skip(1).step_by(2) {
        words.push(word)?;
    }
    Ok(format!(in alloc; "{:?}", words.command()?)?)
}

/// How many octets a script has that is read by so many at a time, and a checksum of them.
pub fn script(alloc: Global, number: u32, chunk: u32) -> Result<String, Fault> {
    let mut script = Script::new(number);
    let mut buffer = [0u8; 4096];
    let part = &mut buffer[..chunk.clamp(1, 4096) as usize];
    let (mut length, mut checksum) = (0u64, 0u32);
    for _ in 0..u64::MAX {
        let Ok(count) = script.read(part) else {
            break;
        };
        if count == 0 {
            break;
        }
        for octet in &part[..count] {
            length = length.saturating_add(1);
            checksum = checksum.wrapping_mul(31).wrapping_add(u32::from(*octet));
        }
    }
    Ok(format!(in alloc; "{length} octets, checksum {checksum}")?)
}

/// The lines of a script by their kind, and the octets that are submitted.
#[derive(Clone, Copy, Debug, Default)]
struct Count {
    first: u32,
    handovers: u32,
    sdus: u32,
    octets: usize,
    ttis: u32,
    last: u32,
}

impl Count {
    fn add(&mut self, line: &Line) {
        match line {
            Line::Handover { .. } => self.handovers = self.handovers.saturating_add(1),
            Line::Submit { octets, .. } => {
                self.sdus = self.sdus.saturating_add(1);
                self.octets = self.octets.saturating_add(octets.as_slice().len());
            }
            Line::Tti { .. } => self.ttis = self.ttis.saturating_add(1),
            Line::Drain { .. } | Line::End => self.last = self.last.saturating_add(1),
            _ => self.first = self.first.saturating_add(1),
        }
    }
}

/// What lines a script has.
pub fn script_lines(alloc: Global, number: u32) -> Result<String, Fault> {
    let mut lines = ScriptLines::new(alloc, number);
    let mut count = Count::default();
    for _ in 0..u64::MAX {
        let Some(line) = lines.next()? else {
            break;
        };
        count.add(&line);
    }
    Ok(format!(in alloc; "{count:?}")?)
}
