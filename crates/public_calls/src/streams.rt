//! Sources, sinks and the lines of a source.

ghost use Rattle.std.specs.Prelude.{◌<◌};

use crate::fault::Fault;
use l2_io::{
    AheadSource, GatherSink, Lines, MemSink, MemSource, Sink, Source, StdSink, StdSource, SureSink,
    SureSource, Turn,
};
use std::alloc::Global;

/// The most octets of a line.
const LONGEST: u32 = 6;

/// What the next line of a source is.
fn next<S: Source>(alloc: Global, lines: &mut Lines, source: &mut S) -> Result<String, Fault> {
    Ok(match lines.advance(source) {
        Turn::Line => format!(in alloc; "[{}]", hex::encode(alloc, lines.line())?)?,
        end => format!(in alloc; "{end:?}")?,
    })
}

/// The lines of a source, and what comes behind its end.
fn lines<S: Source>(alloc: Global, source: &mut S) -> Result<String, Fault> {
    let mut lines = Lines::new(alloc, LONGEST)?;
    let mut text = String::new(alloc);
    for _ in 0..u32::MAX {
        let one = next(alloc, &mut lines, source)?;
        text = format!(in alloc; "{text}{one} ")?;
        if !one.starts_with('[') {
            break;
        }
    }
    let is_settled = lines.has_line();
    let again = next(alloc, &mut lines, source)?;
    Ok(format!(in alloc; "{text}settled {is_settled} {again}")?)
}

/// The lines of octets that come so many at a time.
pub fn sure_lines(alloc: Global, chunk: u32, octets: &[u8]) -> Result<String, Fault> {
    let mut source = SureSource::new(alloc, octets, chunk.max(1) as usize)?;
    lines(alloc, &mut source)
}

/// The lines of octets that come one at a time, where a read fails.
pub fn failing_lines(alloc: Global, fails: u32, octets: &[u8]) -> Result<String, Fault> {
    let mut source = MemSource::new(alloc, octets, 1, &[fails])?;
    lines(alloc, &mut source)
}

/// The lines of a stream.
pub fn stream_lines(alloc: Global, octets: &[u8]) -> Result<String, Fault> {
    let mut source = StdSource::new(octets);
    let is_ready = source.is_ready();
    let lines = lines(alloc, &mut source)?;
    Ok(format!(in alloc; "ready {is_ready} {lines}")?)
}

/// The octets of a stream that is read ahead, one at a time, and whether the next is at hand.
pub fn ahead(alloc: Global, piece: u32, octets: &[u8]) -> Result<String, Fault> {
    let mut source = AheadSource::new(alloc, piece as usize, octets)?;
    let mut room = [0];
    let mut text = String::new(alloc);
    for _ in 0..octets.len() {
        if source.read(&mut room) != Ok(1) {
            break;
        }
        text = format!(in alloc; "{text}{:02x} ready {} ", room[0], source.is_ready())?;
    }
    Ok(format!(in alloc; "{text}{:?}", source.read(&mut room))?)
}

/// Pieces that are gathered, one a round, of which one fails where it goes to.
pub fn gather(alloc: Global, fails: u32, pieces: &[&str]) -> Result<String, Fault> {
    let mut out = MemSink::new(alloc, &[fails])?;
    let mut gathered = GatherSink::new(alloc);
    let mut text = String::new(alloc);
    for piece in pieces {
        if gathered.put(piece.as_bytes()).is_err() || gathered.is_full() {
            return Err(Fault::NoMemory);
        }
        let flushed = gathered.flush(&mut out);
        text = format!(in alloc; "{text}{flushed:?} {} ", gathered.held().len())?;
    }
    Ok(format!(in alloc; "{text}{}", hex::encode(alloc, out.written())?)?)
}

/// Puts to a stream that has room for three octets, and to memory.
pub fn puts(alloc: Global, pieces: &str) -> Result<String, Fault> {
    let mut room = [0; 3];
    let mut out = StdSink::new(room.as_mut_slice());
    let mut sure = SureSink::new(alloc);
    let mut text = String::new(alloc);
    for piece in pieces.split('+') {
        let puts = (out.put(piece.as_bytes()), sure.put(piece.as_bytes()));
        text = format!(in alloc; "{text}{puts:?} ")?;
    }
    Ok(format!(in alloc; "{text}{}", hex::encode(alloc, sure.written())?)?)
}
