ghost use Rattle.std.specs.Prelude.{◌≡◌, ◌<◌, ◌++◌, ◌∷◌, [], IfOk, OnOk, codes, length};
ghost use Rattle.air_record.specs.Text.{worded, event_words, bsr_words, control_words};
ghost use Rattle.air_record.specs.Text.{record_words, side_text, accepted_text, text_of};
ghost use Rattle.hex.specs.Hex.{encode_lower};
ghost use Rattle.std.specs.Fmt.{decimal};

use crate::events::append_event;
use crate::line::Line;
use crate::lines::append_line;
use crate::naming::{
    add_arrived, add_direction, add_fresh, add_heard, add_side, mac_why, pdcp_why, place_word,
    rlc_why, state_word,
};
use crate::record::{Arrived, NoPlace, Record, State};
use crate::short_text::{PIECE, ShortText};
use crate::shown::{
    append_amd, append_bad, append_control, append_report, append_segment, append_shown,
    append_signalling, append_sized, append_status, append_umd, append_value,
};
use crate::word::{add_hex, add_number, add_word, end_counted};
use l2_bits::{Bytes, NoMemory};
use l2_types::Side;
use mac_pdu::Direction;
use std::alloc::Global;

/// Adds the text of the record of an accepted line.
pub fn append_accepted(text: &mut Bytes, place: u32, line: &Line) -> Result<(), NoMemory>
    ensures { OnOk result (text.new ≡ text.old ++ accepted_text place line.now) }
{
    let mut short = ShortText::new();
    short.add(b"line");
    add_number(&mut short, u64::from(place));
    short.add(b" ");
    append_line(text, &mut short, line)
}

fn append_block(
    text: &mut Bytes,
    direction: Direction,
    process: u32,
    fresh: bool,
    rv: u8,
    octets: &[u8],
) -> Result<(), NoMemory>
    ensures { OnOk result (text.new ≡ text.old
        ++ worded (record_words (Record.Block direction process fresh rv octets.now))) }
{
    let mut short = ShortText::new();
    short.add(b"block");
    add_direction(&mut short, direction);
    add_number(&mut short, u64::from(process));
    add_fresh(&mut short, fresh);
    add_number(&mut short, u64::from(rv));
    short.append_to(text)?;
    add_hex(text, octets)?;
    text.push(b'\n')
}

fn append_air(
    text: &mut Bytes,
    direction: Direction,
    what: Arrived,
    heard: Option<bool>,
) -> Result<(), NoMemory>
    ensures { OnOk result (text.new ≡ text.old
        ++ worded (record_words (Record.Air direction what heard))) }
{
    let mut short = ShortText::new();
    short.add(b"air");
    add_direction(&mut short, direction);
    add_arrived(&mut short, what);
    add_heard(&mut short, heard);
    short.end_line(text)
}

fn append_refused(text: &mut Bytes, side: Side, lcid: u8, why: NoPlace) -> Result<(), NoMemory>
    ensures { OnOk result (text.new ≡ text.old
        ++ worded (record_words (Record.Refused side lcid why))) }
{
    let mut short = ShortText::new();
    short.add(b"refused");
    add_side(&mut short, side);
    add_number(&mut short, u64::from(lcid));
    add_word(&mut short, place_word(why));
    short.end_line(text)
}

fn append_looped(text: &mut Bytes, lcid: u8, octets: &[u8]) -> Result<(), NoMemory>
    ensures { OnOk result (text.new ≡ text.old
        ++ worded (record_words (Record.Looped lcid octets.now))) }
{
    let mut short = ShortText::new();
    short.add(b"loop");
    add_number(&mut short, u64::from(lcid));
    short.append_to(text)?;
    add_hex(text, octets)?;
    text.push(b'\n')
}

fn append_sum(
    text: &mut Bytes,
    direction: Direction,
    lcid: u8,
    submitted: u64,
    delivered: u64,
    state: State,
) -> Result<(), NoMemory>
    ensures { OnOk result (text.new ≡ text.old
        ++ worded (record_words (Record.Sum direction lcid submitted delivered state))) }
{
    let mut short = ShortText::new();
    short.add(b"sum");
    add_direction(&mut short, direction);
    add_number(&mut short, u64::from(lcid));
    add_number(&mut short, submitted);
    add_number(&mut short, delivered);
    add_word(&mut short, state_word(state));
    short.end_line(text)
}

// A record with one number.
#[inline(always)]
fn append_counted(text: &mut Bytes, name: &'static str, count: u64) -> Result<(), NoMemory>
    requires { length name.now < PIECE }
    ensures { OnOk result (text.new ≡ text.old ++ worded (name.now ∷ decimal count ∷ [])) }
{
    end_counted(text, &mut ShortText::new(), name, count)
}

/// Adds the text of a record, which ends with a line feed, to a text.
///
/// Each kind of record has a function of few locals, since a function pays for all its locals at
/// each call.
pub fn append_record(text: &mut Bytes, one: &Record) -> Result<(), NoMemory>
    ensures { OnOk result (text.new ≡ text.old ++ text_of one.now) }
{
    match one {
        Record::Line {
            number: place,
            line,
        } => append_accepted(text, *place, line.as_line()),
        Record::Tti { tti } => append_counted(text, "tti", *tti),
        Record::Sleep => text.append(b"sleep\n"),
        Record::Of { side, event } => append_event(text, *side, event),
        Record::Block {
            direction,
            process,
            fresh,
            rv,
            octets,
        } => append_block(text, *direction, *process, *fresh, *rv, octets.as_slice()),
        Record::Air {
            direction,
            what,
            heard,
        } => append_air(text, *direction, *what, *heard),
        Record::Refused { side, lcid, why } => append_refused(text, *side, *lcid, *why),
        Record::Looped { lcid, octets } => append_looped(text, *lcid, octets.as_slice()),
        Record::Drained { rounds } => append_counted(text, "drained", *rounds),
        Record::Sum {
            direction,
            lcid,
            submitted,
            delivered,
            state,
        } => append_sum(text, *direction, *lcid, *submitted, *delivered, *state),
        Record::MacFront => text.append(b"mac front\n"),
        Record::MacSdu { lcid, len } => append_sized(text, "mac sdu", u32::from(*lcid), *len),
        Record::MacPad { octets } => append_value(text, "mac pad", *octets),
        Record::MacControl { element } => append_control(text, element),
        Record::RlcTm { len } => append_value(text, "rlc tm", *len),
        Record::RlcUm { sn, fi, lens } => append_umd(text, *sn, *fi, lens),
        Record::RlcAm { sn, poll, fi, lens } => append_amd(text, *sn, *poll, *fi, lens),
        Record::RlcSeg {
            sn,
            poll,
            fi,
            last,
            so,
            lens,
        } => append_segment(text, *sn, *poll, *fi, *last, *so, lens),
        Record::RlcStatus { ack, nacks } => append_status(text, *ack, nacks),
        Record::PdcpData { sn, len } => append_sized(text, "pdcp data", *sn, *len),
        Record::PdcpSrb { sn, len, tag } => append_signalling(text, *sn, *len, tag),
        Record::PdcpReport { fms, bitmap } => append_report(text, *fms, bitmap.as_slice()),
        Record::Shown {
            number: place,
            direction,
            len,
        } => append_shown(text, *place, *direction, *len),
        Record::BadMac { fault } => append_bad(text, "mac", fault.at, mac_why(fault.why)),
        Record::BadRlc { fault } => append_bad(text, "rlc", fault.at, rlc_why(fault.why)),
        Record::BadPdcp { fault } => append_bad(text, "pdcp", fault.at, pdcp_why(fault.why)),
    }
}

/// Room for the records that mostly follow that of a line, so that their text seldom has to be
/// moved as it grows.
const ROOM: usize = 16_384;

/// The text of the record of an accepted line, with room for the records that follow.
pub fn print_line(alloc: Global, number: u32, line: &Line) -> Result<Bytes, NoMemory>
    ensures { IfOk result (λ bytes. bytes ≡ accepted_text number line.now) }
{
    let mut text = Bytes::with_capacity(alloc, ROOM)?;
    append_accepted(&mut text, number, line)?;
    Ok(text)
}

/// The text of a record, which ends with a line feed.
pub fn print(alloc: Global, one: &Record) -> Result<Bytes, NoMemory>
    ensures { IfOk result (λ bytes. bytes ≡ text_of one.now) }
{
    let mut text = Bytes::new(alloc);
    append_record(&mut text, one)?;
    Ok(text)
}
