// What is told of a verdict.
ghost use Rattle.std.specs.Prelude.{◌≡◌, IfOk, string_bytes};
ghost use Rattle.line_player.specs.Answers.{Tells};
ghost use Rattle.line_player.specs.Streams.{output};
ghost use Rattle.check_command.specs.Checking.{sound_text, unsound_text};
ghost use Rattle.check_command.specs.Reading.{TellsSound, TellsUnsound, TellsVerdict};

use crate::verdict::{Verdict, why_word};
use journal_check::CheckWhy;
use l2_io::{PutFault, Sink};
use line_player::{Status, tell_no_memory};
use std::alloc::{AllocError, Global};

// Puts a text to errs, where the answer stays.
fn say<E: Sink>(errs: &mut E, text: &[u8])
    ensures { Tells text.now (output E.Sink errs.old) (output E.Sink errs.new) }
{
    let _ = errs.put(text);
}

fn sound_string(alloc: Global, lines: u32) -> Result<String, AllocError>
    ensures { IfOk result (λ text. string_bytes text ≡ sound_text lines) }
{
    format!(in alloc; "sound {lines}\n")
}

fn unsound_string(alloc: Global, at: u32, why: CheckWhy) -> Result<String, AllocError>
    ensures { IfOk result (λ text. string_bytes text ≡ unsound_text at why) }
{
    let word = why_word(why);
    format!(in alloc; "record {at}: {word}\n")
}

fn tell_sound<K: Sink, E: Sink>(alloc: Global, lines: u32, out: &mut K, errs: &mut E) -> Status
    ensures { TellsSound lines (output K.Sink out.old) (output K.Sink out.new)
        (output E.Sink errs.old) (output E.Sink errs.new) result }
{
    let Ok(text) = sound_string(alloc, lines) else {
        return tell_no_memory(errs);
    };
    match out.put(text.as_bytes()) {
        Ok(()) => Status::Done,
        Err(PutFault::Failed) => {
            say(errs, b"write fault\n");
            Status::WriteFault
        }
        Err(PutFault::NoMemory) => tell_no_memory(errs),
    }
}

fn tell_unsound<E: Sink>(alloc: Global, at: u32, why: CheckWhy, errs: &mut E) -> Status
    ensures { TellsUnsound at why (output E.Sink errs.old) (output E.Sink errs.new) result }
{
    let Ok(text) = unsound_string(alloc, at, why) else {
        return tell_no_memory(errs);
    };
    match errs.put(text.as_bytes()) {
        Ok(()) => Status::Refused,
        Err(PutFault::Failed) => Status::WriteFault,
        Err(PutFault::NoMemory) => Status::NoMemory,
    }
}

/// Tells a verdict: to out that the journal is sound, and to errs whatever else is.
pub(crate) fn tell_verdict<K: Sink, E: Sink>(
    alloc: Global,
    verdict: Verdict,
    out: &mut K,
    errs: &mut E,
) -> Status
    ensures { TellsVerdict verdict (output K.Sink out.old) (output K.Sink out.new)
        (output E.Sink errs.old) (output E.Sink errs.new) result }
{
    match verdict {
        Verdict::Sound { lines } => tell_sound(alloc, lines, out, errs),
        Verdict::Unsound { at, why } => tell_unsound(alloc, at, why, errs),
        Verdict::ReadFault => {
            say(errs, b"read fault\n");
            Status::ReadFault
        }
        Verdict::NoMemory => tell_no_memory(errs),
    }
}
