//! Makes each public call of the codecs, the ciphers, the streams, the command line and the scripts
//! of numbers, with memory at hand, and prints what comes out; and runs the program's commands over
//! streams of which a read or a put fails.
//!
//! Each line of the input names a call and what it is made with, and is printed with its answer. A
//! line that begins with `#` says where the lines behind it come from.
#![tactic(auto)]

mod call;
mod codecs;
mod commands;
mod fault;
mod program;
mod security;
mod session;
mod streams;
mod writers;

use fault::Fault;

fn main(rt: HostRuntime) -> Result<(), Fault> {
    let alloc = rt.alloc();
    for line in rt.lines(alloc) {
        let line = line?;
        if line.starts_with('#') {
            println!(rt; "{line}")?;
            continue;
        }
        match call::answer(alloc, &line) {
            Ok(answer) => println!(rt; "{line}: {answer}")?,
            Err(fault) => println!(rt; "{line}: {fault}")?,
        }
    }
    Ok(())
}
