ghost use Rattle.std.specs.Prelude.{◌≡◌, ◌≤◌, [], ◌∷◌, length, codes, IfOk, IfSome, Ok, Err, None};
ghost use Rattle.std.specs.Prelude.{Some};
ghost use Rattle.std.specs.Str.{bytes_eq};
ghost use Rattle.bearer_types.specs.Configs.{IsConfig};
ghost use Rattle.air_text.specs.Words.{Gives, words_of};
ghost use Rattle.air_text.specs.Reading.{read_of};
ghost use Rattle.pdu_show.specs.Entries.{HasEntry, IsHead, IsEntry, block_in, as_entry, entry_by};
ghost use Rattle.pdu_show.specs.Entries.{entry_words, entry_of};

use air_text::{LONGEST_LINE, Line, LineFault, LineRefusal, octets_into, read_line, split_word};
use bearer_types::BearerConfig;
use l2_bits::Bytes;
use l2_types::GREATEST_GRANT;
use mac_pdu::Direction;
use std::alloc::Global;

/// What a line of an input to be shown says.
#[derive(Debug, Drop)]
pub enum Entry {
    /// A bearer is known from now on.
    Bearer(BearerConfig),
    /// A block of 1 to 9422 octets.
    Block { direction: Direction, octets: Bytes },
}

/// What a line says, but for the octets of a block.
#[derive(Clone, Copy)]
pub enum Head {
    Bearer(BearerConfig),
    Block(Direction),
}

// A block, by the words behind its direction.
#[tactic(auto, unfolding(crate::specs::Entries::block_in))]
fn read_block(
    direction: Direction,
    fields: &[u8],
    octets: &mut Bytes,
) -> Result<Option<Head>, LineFault>
    ensures entry { HasEntry (block_in direction (words_of fields.now)) octets.new result }
    ensures ranges { IfOk result (λ head. IfSome head (IsHead octets.new)) }
{
    let Some((text, behind)) = split_word(fields) else {
        return Err(LineFault::Refused(LineRefusal::Fields));
    };
    if let Some(_) = split_word(behind) {
        return Err(LineFault::Refused(LineRefusal::Fields));
    }
    octets_into(octets, text, GREATEST_GRANT as usize)?;
    Ok(Some(Head::Block(direction)))
}

// A bearer, by its line of a script.
fn read_bearer(alloc: Global, text: &[u8]) -> Result<Option<Head>, LineFault>
    ensures entry { HasEntry (as_entry (read_of text.now)) [] result }
    ensures ranges { IfOk result (λ head. IfSome head (IsHead [])) }
{
    match read_line(alloc, text)? {
        Some(Line::Bearer { config, .. }) => Ok(Some(Head::Bearer(config))),
        Some(_) => Err(LineFault::Refused(LineRefusal::Word)),
        None => Ok(None),
    }
}

fn is_word(text: &[u8], wanted: &[u8]) -> bool
    ensures { result ≡ bytes_eq text.now wanted.now }
{
    text == wanted
}

/// Reads a line; the octets of a block stand in place of what the list held.
#[tactic(auto, unfolding(crate::specs::Entries::entry_of, crate::specs::Entries::entry_words))]
pub fn read_entry(alloc: Global, text: &[u8], octets: &mut Bytes) -> Result<Option<Head>, LineFault>
    ensures entry { HasEntry (entry_of text.now) octets.new result }
    ensures ranges { IfOk result (λ head. IfSome head (IsHead octets.new)) }
{
    octets.clear();
    if text.len() > LONGEST_LINE {
        return Err(LineFault::Refused(LineRefusal::Long));
    }
    let Some((first, fields)) = split_word(text) else {
        return Ok(None);
    };
    if let [b'#', ..] = first {
        return Ok(None);
    }
    if is_word(first, b"ul") {
        return read_block(Direction::Up, fields, octets);
    }
    if is_word(first, b"dl") {
        return read_block(Direction::Down, fields, octets);
    }
    if is_word(first, b"bearer") {
        return read_bearer(alloc, text);
    }
    Err(LineFault::Refused(LineRefusal::Word))
}

/// What a line of an input to be shown says, or none where it is empty or a comment.
///
/// The text is the line without its line feed. A bearer's configuration and a block keep their
/// ranges.
pub fn read_record(alloc: Global, text: &[u8]) -> Result<Option<Entry>, LineFault>
    ensures entry { Gives result (entry_of text.now) }
    ensures ranges { IfOk result (λ entry. IfSome entry IsEntry) }
{
    let mut octets = Bytes::new(alloc);
    match read_entry(alloc, text, &mut octets)? {
        None => Ok(None),
        Some(Head::Bearer(config)) => Ok(Some(Entry::Bearer(config))),
        Some(Head::Block(direction)) => Ok(Some(Entry::Block { direction, octets })),
    }
}
