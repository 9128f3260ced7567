ghost use Rattle.std.specs.Prelude.{◌≡◌, ◌<◌, ◌++◌, ◌∷◌, [], OnOk, codes, length};
ghost use Rattle.air_record.specs.Text.{worded, event_words, side_text, count_text, bitmap_text};
ghost use Rattle.air_record.specs.Text.{how_text, mac_number, clock_text};
ghost use Rattle.hex.specs.Hex.{encode_lower};
ghost use Rattle.std.specs.Fmt.{decimal};

use crate::naming::{
    add_clock, add_how, add_side, lost_word, mac_why, pdcp_why, rlc_why, waits_word,
};
use crate::short_text::{PIECE, ShortText};
use crate::word::{add_bitmap, add_count, add_hex, add_number, add_word};
use bearer_types::Event;
use l2_bits::{Bytes, NoMemory};
use l2_types::{Clock, How, Side};
use mac_pdu::MacRefusal;

fn append_take(
    text: &mut Bytes,
    side: Side,
    lcid: u8,
    count: Option<u32>,
    len: u32,
) -> Result<(), NoMemory>
    ensures { OnOk result (text.new ≡ text.old
        ++ worded (event_words (side_text side) (Event.Take lcid count len))) }
{
    let mut short = ShortText::new();
    short.add(b"take");
    add_side(&mut short, side);
    add_number(&mut short, u64::from(lcid));
    add_count(&mut short, count);
    add_number(&mut short, u64::from(len));
    short.end_line(text)
}

fn append_send(text: &mut Bytes, side: Side, lcid: u8, how: How, sn: u32) -> Result<(), NoMemory>
    ensures { OnOk result (text.new ≡ text.old
        ++ worded (event_words (side_text side) (Event.Send lcid how sn))) }
{
    let mut short = ShortText::new();
    short.add(b"send");
    add_side(&mut short, side);
    add_number(&mut short, u64::from(lcid));
    add_how(&mut short, how);
    add_number(&mut short, u64::from(sn));
    short.end_line(text)
}

fn append_up(text: &mut Bytes, side: Side, lcid: u8, octets: &[u8]) -> Result<(), NoMemory>
    ensures { OnOk result (text.new ≡ text.old
        ++ worded (event_words (side_text side) (Event.Up lcid octets.now))) }
{
    let mut short = ShortText::new();
    short.add(b"up");
    add_side(&mut short, side);
    add_number(&mut short, u64::from(lcid));
    short.append_to(text)?;
    add_hex(text, octets)?;
    text.push(b'\n')
}

fn append_report(
    text: &mut Bytes,
    side: Side,
    lcid: u8,
    fms: u32,
    bitmap: &[u8],
) -> Result<(), NoMemory>
    ensures { OnOk result (text.new ≡ text.old
        ++ worded (event_words (side_text side) (Event.Report lcid fms bitmap.now))) }
{
    let mut short = ShortText::new();
    short.add(b"report");
    add_side(&mut short, side);
    add_number(&mut short, u64::from(lcid));
    add_number(&mut short, u64::from(fms));
    short.append_to(text)?;
    add_bitmap(text, bitmap)?;
    text.push(b'\n')
}

fn append_integrity<'a>(
    text: &mut Bytes,
    side: Side,
    lcid: u8,
    found: &'a [u8],
    wanted: &'a [u8],
) -> Result<(), NoMemory>
    ensures { OnOk result (text.new ≡ text.old
        ++ worded (event_words (side_text side) (Event.Integrity lcid found.now wanted.now))) }
{
    let mut short = ShortText::new();
    short.add(b"integrity");
    add_side(&mut short, side);
    add_number(&mut short, u64::from(lcid));
    short.append_to(text)?;
    add_hex(text, found)?;
    add_hex(text, wanted)?;
    text.push(b'\n')
}

fn append_bad_block(text: &mut Bytes, side: Side, fault: &MacRefusal) -> Result<(), NoMemory>
    ensures { OnOk result (text.new ≡ text.old
        ++ worded (event_words (side_text side) (Event.BadMac fault.now))) }
{
    let mut short = ShortText::new();
    short.add(b"bad");
    add_side(&mut short, side);
    add_word(&mut short, "mac");
    add_number(&mut short, u64::from(fault.at));
    add_number(&mut short, mac_why(fault.why));
    short.end_line(text)
}

// A PDU of a layer above MAC can't be read.
fn append_bad_pdu(
    text: &mut Bytes,
    side: Side,
    layer: &'static str,
    lcid: u8,
    at: u32,
    why: u64,
) -> Result<(), NoMemory>
    requires layer { length layer.now < PIECE }
    ensures { OnOk result (text.new ≡ text.old
        ++ worded (codes "bad" ∷ side_text side ∷ layer.now ∷ decimal lcid ∷ decimal at
        ∷ decimal why ∷ [])) }
{
    let mut short = ShortText::new();
    short.add(b"bad");
    add_side(&mut short, side);
    add_word(&mut short, layer);
    add_number(&mut short, u64::from(lcid));
    add_number(&mut short, u64::from(at));
    add_number(&mut short, why);
    short.end_line(text)
}

// What happens to a bearer, and which timer or why.
fn append_named(
    text: &mut Bytes,
    what: &'static str,
    side: Side,
    lcid: u8,
    which: &'static str,
) -> Result<(), NoMemory>
    requires what { length what.now < PIECE }
    requires which { length which.now < PIECE }
    ensures { OnOk result (text.new ≡ text.old
        ++ worded (what.now ∷ side_text side ∷ decimal lcid ∷ which.now ∷ [])) }
{
    let mut short = ShortText::new();
    short.add(what.as_bytes());
    add_side(&mut short, side);
    add_number(&mut short, u64::from(lcid));
    add_word(&mut short, which);
    short.end_line(text)
}

// What happens to a timer of a bearer.
#[inline(always)]
fn append_timer(
    text: &mut Bytes,
    what: &'static str,
    side: Side,
    lcid: u8,
    clock: Clock,
) -> Result<(), NoMemory>
    requires what { length what.now < PIECE }
    ensures { OnOk result (text.new ≡ text.old
        ++ worded (what.now ∷ side_text side ∷ decimal lcid ∷ clock_text clock ∷ [])) }
{
    let mut short = ShortText::new();
    short.add(what.as_bytes());
    add_side(&mut short, side);
    add_number(&mut short, u64::from(lcid));
    add_clock(&mut short, clock);
    short.end_line(text)
}

// What happens to a bearer, with a number or a length.
fn append_numbered(
    text: &mut Bytes,
    what: &'static str,
    side: Side,
    lcid: u8,
    which: u32,
) -> Result<(), NoMemory>
    requires what { length what.now < PIECE }
    ensures { OnOk result (text.new ≡ text.old
        ++ worded (what.now ∷ side_text side ∷ decimal lcid ∷ decimal which ∷ [])) }
{
    let mut short = ShortText::new();
    short.add(what.as_bytes());
    add_side(&mut short, side);
    add_number(&mut short, u64::from(lcid));
    add_number(&mut short, u64::from(which));
    short.end_line(text)
}

/// Adds the text of what happens at one end, and a line feed.
pub fn append_event(text: &mut Bytes, side: Side, event: &Event) -> Result<(), NoMemory>
    ensures { OnOk result (text.new ≡ text.old ++ worded (event_words (side_text side) event.now)) }
{
    match event {
        Event::Take { lcid, count, len } => append_take(text, side, *lcid, *count, *len),
        Event::Report { lcid, fms, bitmap } => append_report(
            text,
            side,
            *lcid,
            *fms,
            bitmap.as_slice(),
        ),
        Event::Send { lcid, how, sn } => append_send(text, side, *lcid, *how, *sn),
        Event::Wait { lcid, why } => append_named(text, "wait", side, *lcid, waits_word(*why)),
        Event::Start { lcid, clock } => append_timer(text, "start", side, *lcid, *clock),
        Event::Stop { lcid, clock } => append_timer(text, "stop", side, *lcid, *clock),
        Event::Expired { lcid, clock } => append_timer(text, "expired", side, *lcid, *clock),
        Event::Up { lcid, octets } => append_up(text, side, *lcid, octets.as_slice()),
        Event::Fail { lcid, sn } => append_numbered(text, "fail", side, *lcid, *sn),
        Event::Drop { lcid, why } => append_named(text, "drop", side, *lcid, lost_word(*why)),
        Event::Integrity {
            lcid,
            found,
            wanted,
        } => append_integrity(text, side, *lcid, found, wanted),
        Event::BadMac(fault) => append_bad_block(text, side, fault),
        Event::BadRlc { lcid, fault } => append_bad_pdu(
            text,
            side,
            "rlc",
            *lcid,
            fault.at,
            rlc_why(fault.why),
        ),
        Event::BadPdcp { lcid, fault } => append_bad_pdu(
            text,
            side,
            "pdcp",
            *lcid,
            fault.at,
            pdcp_why(fault.why),
        ),
        Event::Discard { lcid, len } => append_numbered(text, "discard", side, *lcid, *len),
    }
}
