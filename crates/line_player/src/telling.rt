// What is told of an ending.
ghost use Rattle.std.specs.Prelude.{◌≡◌, IfOk, string_bytes};
ghost use Rattle.line_player.specs.Answers.{refused_text, no_memory_text, Tells, TellsRefusal};
ghost use Rattle.line_player.specs.Answers.{TellsEnding, Refuses};
ghost use Rattle.line_player.specs.Streams.{output};

use crate::ending::Ending;
use crate::reason::{Reason, Rule, reason_word};
use crate::status::Status;
use l2_io::{PutFault, Sink};
use std::alloc::{AllocError, Global};

// Puts a text to errs, where the answer stays.
fn say<E: Sink>(errs: &mut E, text: &[u8])
    ensures { Tells text.now (output E.Sink errs.old) (output E.Sink errs.new) }
{
    let _ = errs.put(text);
}

/// Tells that memory ran out.
pub fn tell_no_memory<E: Sink>(errs: &mut E) -> Status
    ensures status { result ≡ Status.NoMemory }
    ensures told { Tells no_memory_text (output E.Sink errs.old) (output E.Sink errs.new) }
{
    say(errs, b"out of memory\n");
    Status::NoMemory
}

/// Tells how the program is called, where its words are none that it knows.
pub fn refuse_words<E: Sink>(usage: &[u8], errs: &mut E) -> Status
    ensures { Refuses usage.now (output E.Sink errs.old) (output E.Sink errs.new) result }
{
    match errs.put(usage) {
        Ok(()) => Status::Usage,
        Err(PutFault::Failed) => Status::WriteFault,
        Err(PutFault::NoMemory) => Status::NoMemory,
    }
}

fn refusal_string<R: Rule>(
    alloc: Global,
    number: u32,
    reason: Reason<R>,
) -> Result<String, AllocError>
    ensures { IfOk result (λ text. string_bytes text ≡ refused_text R.word_of number reason) }
{
    let word = reason_word(reason);
    format!(in alloc; "line {number}: {word}\n")
}

fn refuse_line<R: Rule, E: Sink>(
    alloc: Global,
    number: u32,
    reason: Reason<R>,
    errs: &mut E,
) -> Status
    ensures { TellsRefusal R.word_of number reason (output E.Sink errs.old)
        (output E.Sink errs.new) result }
{
    let Ok(text) = refusal_string(alloc, number, reason) else {
        return tell_no_memory(errs);
    };
    match errs.put(text.as_bytes()) {
        Ok(()) => Status::Refused,
        Err(PutFault::Failed) => Status::WriteFault,
        Err(PutFault::NoMemory) => Status::NoMemory,
    }
}

/// Tells how the reading of an input ended: the cause, or nothing where all is done.
pub fn tell_ending<R: Rule, E: Sink>(alloc: Global, ending: Ending<R>, errs: &mut E) -> Status
    ensures { TellsEnding R.word_of ending (output E.Sink errs.old) (output E.Sink errs.new)
        result }
{
    match ending {
        Ending::Done => Status::Done,
        Ending::Refused { number, reason } => refuse_line(alloc, number, reason, errs),
        Ending::ReadFault => {
            say(errs, b"read fault\n");
            Status::ReadFault
        }
        Ending::WriteFault => {
            say(errs, b"write fault\n");
            Status::WriteFault
        }
        Ending::NoMemory => tell_no_memory(errs),
    }
}
