//! The program's commands, over streams that fail.

ghost use Rattle.std.specs.Prelude.{◌<◌};

use crate::fault::Fault;
use crate::session;
use check_command::check_journal;
use l2_commands::{decode, run};
use l2_io::{MemSink, MemSource};
use line_player::Status;
use std::alloc::Global;
use std::str;

/// The calls that fail: one or none.
fn fails(alloc: Global, word: &str) -> Result<Vec<u32>, Fault> {
    if word == "-" {
        return Ok(Vec::new(alloc));
    }
    Ok(Vec::from_slice(alloc, &[word.parse::<u32>()?])?)
}

fn octet(written: u8) -> u8 {
    match written {
        b';' => b'\n',
        b'^' => b'\r',
        _ => written,
    }
}

/// The octets that a text stands for: `;` is a line feed, `^` a carriage return, and a number
/// behind `*` at its end tells how often the last octet stands.
fn input(alloc: Global, text: &str) -> Result<Vec<u8>, Fault> {
    let (text, times) = match text.rsplit_once('*') {
        Some((text, times)) => (text, times.parse::<usize>()?),
        None => (text, 1),
    };
    let mut octets: Vec<u8> = text.bytes().map(octet).collect(alloc)?;
    if let Some(&last) = octets.last() {
        for _ in 1..times {
            octets.extend_from_slice(&[last])?;
        }
    }
    Ok(octets)
}

#[derive(Clone, Copy)]
enum Command {
    Run,
    Decode,
    Check,
}

impl Command {
    fn named(word: &str) -> Result<Command, Fault> {
        match word {
            "run" => Ok(Command::Run),
            "decode" => Ok(Command::Decode),
            "check" => Ok(Command::Check),
            _ => Err(Fault::Words),
        }
    }
}

// How a command ends. It stands apart so that its contract doesn't weigh on the callers.
fn status_of(
    alloc: Global,
    command: Command,
    source: &mut MemSource,
    out: &mut MemSink,
    errs: &mut MemSink,
) -> Status {
    match command {
        Command::Run => run(alloc, source, out, errs),
        Command::Decode => decode(alloc, source, out, errs),
        Command::Check => check_journal(alloc, source, out, errs),
    }
}

/// A command, its input, and the calls that fail.
#[derive(Drop)]
struct Run {
    command: Command,
    source: MemSource,
    out: MemSink,
    errs: MemSink,
}

impl Run {
    fn read(alloc: Global, line: &str) -> Result<Run, Fault> {
        let parts: Vec<&str> = line.splitn(6, ' ').collect(alloc)?;
        let [word, chunk, read, put, tell, text] = *parts.as_slice() else {
            return Err(Fault::Words);
        };
        let chunk = chunk.parse::<usize>()?.max(1);
        Ok(Run {
            command: Command::named(word)?,
            source: MemSource::new(alloc, &input(alloc, text)?, chunk, &fails(alloc, read)?)?,
            out: MemSink::new(alloc, &fails(alloc, put)?)?,
            errs: MemSink::new(alloc, &fails(alloc, tell)?)?,
        })
    }

    /// A session with all parts, of which so many octets are read at a time.
    fn session(alloc: Global, chunk: u32) -> Result<Run, Fault> {
        let script = session::script(alloc)?;
        Ok(Run {
            command: Command::Run,
            source: MemSource::new(alloc, script.as_bytes(), chunk.max(1) as usize, &[])?,
            out: MemSink::new(alloc, &[])?,
            errs: MemSink::new(alloc, &[])?,
        })
    }

    /// What is written, what is told, and how the run ends.
    fn play(self, alloc: Global) -> Result<String, Fault> {
        let Run {
            command,
            source,
            out,
            errs,
        } = self;
        let (mut source, mut out, mut errs) = (source, out, errs);
        let status = status_of(alloc, command, &mut source, &mut out, &mut errs);
        let (written, told) = (
            str::from_utf8(out.written())?,
            str::from_utf8(errs.written())?,
        );
        Ok(format!(in alloc; "{written}{told}{status:?} {}", status.code())?)
    }
}

/// What a command writes and tells, and how it ends. A line has the command, how many octets a read
/// gives, which read, which put to the output and which put to the errors fails (`-` for none,
/// counted from 0), and the input.
pub fn played(alloc: Global, line: &str) -> Result<String, Fault> {
    let told = Run::read(alloc, line)?.play(alloc)?;
    Ok(format!(in alloc; "\n{told}")?)
}

/// The sums of a session with all parts, read by so many octets at a time, and how it ends.
pub fn session(alloc: Global, chunk: u32) -> Result<String, Fault> {
    let told = Run::session(alloc, chunk)?.play(alloc)?;
    let mut text = String::new(alloc);
    for line in told.lines() {
        if line.starts_with("sum ") || line.starts_with("Done") {
            text.push_str("\n")?;
            text.push_str(line)?;
        }
    }
    Ok(text)
}
