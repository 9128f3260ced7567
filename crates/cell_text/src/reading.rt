ghost use Rattle.std.specs.Prelude.{◌≡◌, codes, IfOk, IfSome};
ghost use Rattle.std.specs.Str.{bytes_eq};
ghost use Rattle.air_text.specs.Words.{Gives, texts, words_of};
ghost use Rattle.cell_text.specs.Ranges.{IsInCell};
ghost use Rattle.cell_text.specs.Reading.{without_spaces, from_space, own_text, cell_of, to_of};
ghost use Rattle.cell_text.specs.Reading.{air_of, go_of, end_of, cell_line_of, read_cell_words};
ghost use Rattle.cell_text.specs.Reading.{read_cell_of};

use crate::line::{CellLine, GREATEST_TOTAL, MOST_USERS};
use air_text::{
    LONGEST_LINE, LineFault, LineRefusal, is_word, number, outcome, read_line, split_word, words,
};
use std::alloc::Global;

#[tactic(auto, unfolding(crate::specs::Reading::cell_of))]
fn cell(fields: &[&[u8]]) -> Result<CellLine, LineRefusal>
    ensures line { result ≡ cell_of (texts fields.now) }
    ensures ranges { IfOk result IsInCell }
{
    let [users] = fields else {
        return Err(LineRefusal::Fields);
    };
    let users = number(users, 1, MOST_USERS)?;
    Ok(CellLine::Cell { users })
}

#[tactic(auto, unfolding(crate::specs::Reading::to_of))]
fn to(alloc: Global, fields: &[u8], own: &[u8]) -> Result<CellLine, LineFault>
    ensures line { Gives result (to_of (words_of fields.now) own.now) }
    ensures ranges { IfOk result IsInCell }
{
    let Some((user, _)) = split_word(fields) else {
        return Err(LineFault::Refused(LineRefusal::Fields));
    };
    let user = number(user, 0, MOST_USERS - 1)?;
    let line = read_line(alloc, own)?;
    Ok(CellLine::To { user, line })
}

#[tactic(auto, unfolding(crate::specs::Reading::air_of))]
fn air(fields: &[&[u8]]) -> Result<CellLine, LineRefusal>
    ensures line { result ≡ air_of (texts fields.now) }
    ensures ranges { IfOk result IsInCell }
{
    let [user, up, down] = fields else {
        return Err(LineRefusal::Fields);
    };
    let user = number(user, 0, MOST_USERS - 1)?;
    let up = outcome(up)?;
    let down = outcome(down)?;
    Ok(CellLine::Air { user, up, down })
}

#[tactic(auto, unfolding(crate::specs::Reading::go_of))]
fn go(fields: &[&[u8]]) -> Result<CellLine, LineRefusal>
    ensures line { result ≡ go_of (texts fields.now) }
    ensures ranges { IfOk result IsInCell }
{
    let [up_total, down_total] = fields else {
        return Err(LineRefusal::Fields);
    };
    let up_total = number(up_total, 0, GREATEST_TOTAL)?;
    let down_total = number(down_total, 0, GREATEST_TOTAL)?;
    Ok(CellLine::Go {
        up_total,
        down_total,
    })
}

#[tactic(auto, unfolding(crate::specs::Reading::end_of))]
fn end(fields: &[&[u8]]) -> Result<CellLine, LineRefusal>
    ensures line { result ≡ end_of (texts fields.now) }
    ensures ranges { IfOk result IsInCell }
{
    if fields.is_empty() {
        Ok(CellLine::End)
    } else {
        Err(LineRefusal::Fields)
    }
}

// A `to` line isn't split behind its second word: what stands there is read as a line by itself.
fn line(alloc: Global, first: &[u8], fields: &[u8], own: &[u8]) -> Result<CellLine, LineFault>
    ensures line { Gives result (cell_line_of first.now (words_of fields.now) own.now) }
    ensures ranges { IfOk result IsInCell }
{
    if is_word(first, b"to") {
        return to(alloc, fields, own);
    }
    let fields = words(alloc, fields)?;
    let fields = fields.as_slice();
    let line = if is_word(first, b"cell") {
        cell(fields)
    } else if is_word(first, b"air") {
        air(fields)
    } else if is_word(first, b"go") {
        go(fields)
    } else if is_word(first, b"end") {
        end(fields)
    } else {
        Err(LineRefusal::Word)
    };
    Ok(line?)
}

fn without_spaces(text: &[u8]) -> &[u8]
    ensures { result.now ≡ without_spaces text.now }
{
    let mut text = text;
    while let [b' ', rest @ ..] = text {
        text = rest;
    }
    text
}

fn from_space(text: &[u8]) -> &[u8]
    ensures { result.now ≡ from_space text.now }
{
    let mut text = text;
    while let [octet, rest @ ..] = text {
        if *octet == b' ' {
            return text;
        }
        text = rest;
    }
    text
}

// The line of a terminal's own script in a `to` line: what stands behind the terminal's number.
fn own_text(text: &[u8]) -> &[u8]
    ensures { result.now ≡ own_text text.now }
{
    let numbered = from_space(without_spaces(text));
    from_space(without_spaces(numbered))
}

/// The line of a cell's input that a text says, or none where it is empty or a comment.
#[tactic(auto, unfolding(crate::specs::Reading::read_cell_of, crate::specs::Reading::read_cell_words))]
pub fn read_cell_line(alloc: Global, text: &[u8]) -> Result<Option<CellLine>, LineFault>
    ensures line { Gives result (read_cell_of text.now) }
    ensures ranges { IfOk result (λ line. IfSome line IsInCell) }
{
    if text.len() > LONGEST_LINE {
        return Err(LineFault::Refused(LineRefusal::Long));
    }
    let Some((first, fields)) = split_word(text) else {
        return Ok(None);
    };
    if let [b'#', ..] = first {
        return Ok(None);
    }
    Ok(Some(line(alloc, first, fields, own_text(text))?))
}
