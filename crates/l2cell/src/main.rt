//! Plays a cell of several terminals that share totals of octets (`l2cell`).
#![tactic(auto)]

use cell_run::{CellStatus, cell_main};
use l2_bits::NoMemory;
use l2_io::{AheadSource, StdSink};
use std::env;
use std::io::{ErrorKind, Lock, Write};
use std::process::ExitCode;
use std::rt::Env;

/// The most octets of one read.
const PIECE: usize = 32_768;

// The number of words behind the program's name. Words that are no text count as one, which is
// refused as each number above 0 is.
fn count_words<R: Env + AllocGlobal>(rt: &R) -> Result<usize, NoMemory> {
    match env::args(rt) {
        Ok(args) => Ok(args.skip(1).count()),
        Err(error) if error.kind() == ErrorKind::OutOfMemory => Err(NoMemory),
        Err(_) => Ok(1),
    }
}

// Plays the cell over the standard streams.
fn run(rt: &HostRuntime) -> Result<CellStatus, NoMemory> {
    let words = count_words(rt)?;
    let mut source = AheadSource::new(rt.alloc(), PIECE, rt.stdin().lock())?;
    let mut out = StdSink::new(rt.stdout().lock());
    let mut errs = StdSink::new(rt.stderr().lock());
    Ok(cell_main(rt.alloc(), words, &mut source, &mut out, &mut errs))
}

fn main(rt: HostRuntime) -> ExitCode {
    let status = run(&rt).unwrap_or_else(|_| {
        let _told = rt.stderr().lock().write_all(b"out of memory\n");
        CellStatus::NoMemory
    });
    ExitCode::from(status.code())
}
