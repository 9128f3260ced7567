ghost use Rattle.std.specs.Prelude.{◌≡◌, ◌⊎◌, true, ℕ, List, Option, Some, length, IfOk};
ghost use Rattle.air_run.specs.Journal.{journal_of};
ghost use Rattle.l2_commands.specs.Journals.{blocks_of};
ghost use Rattle.l2_c_texts.specs.Texts.{Gives, status_answer};
ghost use Rattle.l2_c_texts.specs.Texts.{left_answer, Puts, Plays};
ghost use Rattle.c_answers.specs.declared.TheConstants.{NO_MEMORY};

use c_answers::{DONE, NO_MEMORY, REFUSED, ROOM};
use l2_bits::NoMemory;
use l2_commands::{Status, decode, run};
use l2_io::{SureSink, SureSource};
use std::alloc::Global;

/// The most octets of a text that a command takes at once.
const PIECE: usize = 65_536;

// What a command left: its answer, what it put out and what it told.
#[derive(Drop)]
struct Texts {
    status: Status,
    journal: SureSink,
    message: SureSink,
}

// Plays a script.
fn run_text(alloc: Global, script: &[u8]) -> Result<Texts, NoMemory>
    ensures { IfOk result (λ t. Gives (journal_of true script.now) t.status t.journal.octets
        t.message.octets) }
{
    let mut source = SureSource::new(alloc, script, PIECE)?;
    let mut journal = SureSink::new(alloc);
    let mut message = SureSink::new(alloc);
    let status = run(alloc, &mut source, &mut journal, &mut message);
    Ok(Texts {
        status,
        journal,
        message,
    })
}

// Shows the blocks of a text.
fn decode_text(alloc: Global, blocks: &[u8]) -> Result<Texts, NoMemory>
    ensures { IfOk result (λ t. Gives (blocks_of true blocks.now) t.status t.journal.octets
        t.message.octets) }
{
    let mut source = SureSource::new(alloc, blocks, PIECE)?;
    let mut journal = SureSink::new(alloc);
    let mut message = SureSink::new(alloc);
    let status = decode(alloc, &mut source, &mut journal, &mut message);
    Ok(Texts {
        status,
        journal,
        message,
    })
}

// What is answered of a status.
fn status_answer(status: Status) -> u32
    ensures { result ≡ status_answer status }
{
    match status {
        Status::Done => DONE,
        Status::Refused => REFUSED,
        _ => NO_MEMORY,
    }
}

// Writes what a command left to the rooms, where both have room for it.
fn hand_over(
    texts: &Texts,
    journal: &mut [u8],
    size: &mut usize,
    message: &mut [u8],
    message_size: &mut usize,
) -> u32
    ensures answer { result ≡ left_answer (status_answer texts.now.status)
        (length texts.now.journal.octets) (length texts.now.message.octets) (length journal.old)
        (length message.old) }
    ensures journal { Puts texts.now.journal.octets result
        journal.old journal.new size.new }
    ensures message { Puts texts.now.message.octets result
        message.old message.new message_size.new }
{
    let answer = status_answer(texts.status);
    if answer == NO_MEMORY {
        return NO_MEMORY;
    }
    let written = texts.journal.written();
    let told = texts.message.written();
    *size = written.len();
    *message_size = told.len();
    if journal.len() < written.len() || message.len() < told.len() {
        return ROOM;
    }
    journal[..written.len()].copy_from_slice(written);
    message[..told.len()].copy_from_slice(told);
    answer
}

/// Plays a script as the command `run` of the program does: its journal goes to the front of
/// `journal`, and `size` tells how many octets it has.
///
/// `REFUSED` says that a line is refused: the journal is that of the lines before it, and the front
/// of `message`, whose octets `message_size` tells, says which line and why. `ROOM` says that one
/// of the two has too little room, and tells both sizes.
#[unsafe(no_mangle)]
pub extern "C" fn zubhanit_run(
    alloc: Global,
    script: &[u8],
    journal: &mut [u8],
    size: &mut usize,
    message: &mut [u8],
    message_size: &mut usize,
) -> u32
    ensures { Plays (journal_of true script.now) result journal.old journal.new size.new
        message.old message.new message_size.new }
{
    *size = 0;
    *message_size = 0;
    let Ok(texts) = run_text(alloc, script) else {
        return NO_MEMORY;
    };
    hand_over(&texts, journal, size, message, message_size)
}

/// Shows the blocks of a text as the command `decode` of the program does, where what shows them
/// stands in place of the journal of [`zubhanit_run`].
#[unsafe(no_mangle)]
pub extern "C" fn zubhanit_decode(
    alloc: Global,
    blocks: &[u8],
    journal: &mut [u8],
    size: &mut usize,
    message: &mut [u8],
    message_size: &mut usize,
) -> u32
    ensures { Plays (blocks_of true blocks.now) result journal.old journal.new size.new
        message.old message.new message_size.new }
{
    *size = 0;
    *message_size = 0;
    let Ok(texts) = decode_text(alloc, blocks) else {
        return NO_MEMORY;
    };
    hand_over(&texts, journal, size, message, message_size)
}
