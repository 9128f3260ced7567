//! Measures how fast the slowest parts run, so that a change which makes one slower is seen.
//!
//! Each line of the input names a part and how much it is to do, as `eea2 1000`. The standard
//! output repeats the line with a number that depends on what the part made, the same at each run.
//! The time in microseconds goes to the standard error. A line that names no part is told as such.
#![tactic(auto)]

mod entities;
mod measure;
mod security;

use measure::Measure;
use std::io;
use std::time::Instant;

fn main(rt: HostRuntime) -> io::Result<()> {
    for line in rt.lines(rt.alloc()) {
        let line = line?;
        let Some(measure) = Measure::read(line.as_str()) else {
            println!(rt; "{line}: no measure")?;
            continue;
        };
        let mut octets = measure.octets(rt.alloc())?;
        let start = Instant::now(&rt)?;
        let made = measure.run(rt.alloc(), &mut octets);
        let Ok(made) = made else {
            println!(rt; "{line}: out of memory")?;
            continue;
        };
        let micros = start.elapsed(&rt)?.as_micros();
        println!(rt; "{line} {made:016x}")?;
        eprintln!(rt; "{line}: {micros} us")?;
    }
    Ok(())
}
