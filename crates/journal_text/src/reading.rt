ghost use Rattle.std.specs.Prelude.{◌≡◌, ◌∷◌, [], ◌++◌, IfOk, IfErr, Option, None, Some, codes};
ghost use Rattle.std.specs.Str.{bytes_eq};
ghost use Rattle.air_record.specs.declared.record.Record.{Record};
ghost use Rattle.air_record.specs.Text.{text_of};
ghost use Rattle.air_text.specs.Reading.{read_of};
ghost use Rattle.air_text.specs.Words.{texts};
ghost use Rattle.journal_text.specs.Answers.{Gives};
ghost use Rattle.journal_text.specs.Pieces.{text_in, glued};
ghost use Rattle.journal_text.specs.Reading.{line_in, if_own, script_of, line_of, record_of};
ghost use Rattle.journal_text.specs.Reading.{words_of, searched};
ghost use Rattle.journal_text.specs.Records.{HasText, IsSaid};

use crate::blocks::{air, block, drained, looped, refused, sleep, sum, tti};
use crate::events::event;
use crate::fault::TextFault;
use crate::fields::{number, says};
use crate::pdus::{mac, pdcp, rlc};
use crate::pieces::{add_words, split};
use air_record::{BoxedLine, Line, Record, append_accepted};
use air_text::{LineFault, read_line};
use arrayvec::ArrayVec;
use l2_bits::{Bytes, NoMemory};
use std::alloc::Global;

// The line that a text says.
fn script_line(alloc: Global, text: &[u8]) -> Result<Line, TextFault>
    ensures { Gives result (line_in (read_of text.now)) }
{
    match read_line(alloc, text) {
        Ok(Some(line)) => Ok(line),
        Ok(None) => Err(TextFault::NotARecord),
        Err(LineFault::Refused(_)) => Err(TextFault::NotARecord),
        Err(LineFault::NoMemory) => Err(TextFault::NoMemory),
    }
}

// Whether octets are a text with a line feed behind it.
#[tactic(auto, using(crate::proofs::Whole::ended_parts, crate::proofs::Whole::never_ended))]
fn is_ended(octets: &[u8], text: &[u8]) -> bool
    ensures { result ≡ bytes_eq octets.now (text.now ++ 10 ∷ []) }
{
    let [front @ .., last] = octets else {
        return false;
    };
    *last == b'\n' && front == text
}

// Whether a text is that of a line's record.
fn is_own(alloc: Global, text: &[u8], number: u32, line: &Line) -> Result<bool, NoMemory>
    ensures { IfOk result (λ own. own
        ≡ bytes_eq (text_of (Record.Line number line.now)) (text.now ++ 10 ∷ [])) }
{
    let mut own = Bytes::with_capacity(alloc, text.len() + 1)?;
    append_accepted(&mut own, number, line)?;
    Ok(is_ended(own.as_slice(), text))
}

// The record of a line, by its number and its script line.
fn numbered(alloc: Global, text: &[u8], place: &[u8], script: &[u8]) -> Result<Record, TextFault>
    requires { codes "line" ++ (32 ∷ (place.now ++ (32 ∷ script.now))) ≡ text.now }
    ensures record { Gives result (script_of text.now place.now (Some script.now)) }
    ensures text { IfOk result (HasText text.now) }
{
    let number = number(place)?;
    let line = script_line(alloc, script)?;
    if !is_own(alloc, text, number, &line)? {
        return Err(TextFault::NotARecord);
    }
    Ok(Record::Line {
        number,
        line: BoxedLine::new(alloc, line)?,
    })
}

// The record of a line, by what stands behind its first word.
#[tactic(auto, unfolding(crate::specs::Reading::line_of))]
#[inline(never)]
fn line(alloc: Global, text: &[u8], rest: Option<&[u8]>) -> Result<Record, TextFault>
    requires { glued 32 (codes "line") (text_in rest) ≡ text.now }
    ensures record { Gives result (line_of text.now (text_in rest.entry)) }
    ensures text { IfOk result (HasText text.now) }
{
    let Some(rest) = rest else {
        return Err(TextFault::NotARecord);
    };
    let (place, behind) = split(rest, b' ');
    let Some(script) = behind else {
        return Err(TextFault::NotARecord);
    };
    numbered(alloc, text, place, script)
}

// A record of another kind. Each kind is read by a function of its own: inlined, each would take
// its room in the reading of every record. All give the same type, so that the one who asks passes
// a record on where it lies.
fn named(alloc: Global, first: &[u8], fields: &[&[u8]]) -> Result<Record, TextFault>
    ensures record { Gives result (record_of first.now (texts fields.now)) }
    ensures text { IfOk result (IsSaid (first.now ∷ texts fields.now)) }
{
    if says(first, b"mac") {
        return mac(fields);
    }
    if says(first, b"rlc") {
        return rlc(alloc, fields);
    }
    if says(first, b"pdcp") {
        return pdcp(alloc, fields);
    }
    if says(first, b"block") {
        return block(alloc, fields);
    }
    if says(first, b"air") {
        return air(fields);
    }
    if says(first, b"tti") {
        return tti(fields);
    }
    if says(first, b"sleep") {
        return sleep(fields);
    }
    if says(first, b"refused") {
        return refused(fields);
    }
    if says(first, b"loop") {
        return looped(alloc, fields);
    }
    if says(first, b"drained") {
        return drained(fields);
    }
    if says(first, b"sum") {
        return sum(fields);
    }
    event(alloc, first, fields)
}

// A record of another kind, by its words.
#[tactic(auto, unfolding(crate::specs::Reading::words_of))]
#[inline(never)]
fn record(alloc: Global, words: &[&[u8]]) -> Result<Record, TextFault>
    ensures record { Gives result (words_of (texts words.now)) }
    ensures text { IfOk result (IsSaid (texts words.now)) }
{
    let [first, fields @ ..] = words else {
        return Err(TextFault::NotARecord);
    };
    named(alloc, first, fields)
}

fn searched(first: &[u8]) -> usize
    ensures { result ≡ searched first.now }
{
    if says(first, b"up") {
        return 2;
    }
    if says(first, b"block") {
        return 4;
    }
    8
}

/// The record of a journal that has a text, which is a line without its line feed.
///
/// `NotARecord` exactly where no record of a journal is printed as the text and a line feed.
#[tactic(auto, using(crate::proofs::Whole::none_of), unfolding(crate::specs::Reading::read_text))]
pub fn read_text(alloc: Global, text: &[u8]) -> Result<Record, TextFault>
    ensures record { IfOk result (HasText text.now) }
    ensures none { IfErr result
        (λ fault. fault ≡ TextFault.NotARecord → (one : Record) → HasText text.now one → ⊥) }
{
    let (first, rest) = split(text, b' ');
    if says(first, b"line") {
        return line(alloc, text, rest);
    }
    let mut words = ArrayVec::new();
    if !add_words(&mut words, first, rest, searched(first)) {
        return Err(TextFault::NotARecord);
    }
    record(alloc, words.as_slice())
}
