ghost use Rattle.std.specs.Prelude.{◌≡◌, ◌<◌, ◌≤◌, ◌+◌, ◌*◌, ◌++◌, ◌∷◌, [], OnOk, codes, length};
ghost use Rattle.air_record.specs.Text.{worded, ended, bsr_words, control_words, record_words, bit_text};
ghost use Rattle.air_record.specs.Text.{framing_text, bitmap_text};
ghost use Rattle.hex.specs.Hex.{encode_lower};
ghost use Rattle.std.specs.Fmt.{decimal};

use crate::naming::{add_bit, add_direction, add_framing};
use crate::record::{Lens, Record};
use crate::short_text::{PIECE, ShortText};
use crate::word::{add_bitmap, add_hex, add_number, add_word, end_with_lens, end_with_nacks};
use l2_bits::{Bytes, NoMemory};
use mac_pdu::{Bsr, Control, Direction};
use rlc_pdu::Nacks;

/// A part of a block that has one number: a length, or a value.
#[inline(always)]
pub fn append_value(text: &mut Bytes, what: &'static str, value: u32) -> Result<(), NoMemory>
    requires what { length what.now < PIECE }
    ensures { OnOk result (text.new ≡ text.old ++ worded (what.now ∷ decimal value ∷ [])) }
{
    let mut short = ShortText::new();
    short.add(what.as_bytes());
    add_number(&mut short, u64::from(value));
    short.end_line(text)
}

/// A part of a block that has a number and a length.
#[inline(always)]
pub fn append_sized(
    text: &mut Bytes,
    what: &'static str,
    which: u32,
    len: u32,
) -> Result<(), NoMemory>
    requires what { length what.now < PIECE }
    ensures { OnOk result (text.new ≡ text.old
        ++ worded (what.now ∷ decimal which ∷ decimal len ∷ [])) }
{
    let mut short = ShortText::new();
    short.add(what.as_bytes());
    add_number(&mut short, u64::from(which));
    add_number(&mut short, u64::from(len));
    short.end_line(text)
}

fn append_group(text: &mut Bytes, what: &'static str, group: u8, level: u8) -> Result<(), NoMemory>
    requires what { length what.now < PIECE }
    ensures { OnOk result (text.new ≡ text.old
        ++ worded (codes "mac" ∷ codes "bsr" ∷ what.now ∷ decimal group ∷ decimal level ∷ [])) }
{
    let mut short = ShortText::new();
    short.add(b"mac bsr");
    add_word(&mut short, what);
    add_number(&mut short, u64::from(group));
    add_number(&mut short, u64::from(level));
    short.end_line(text)
}

// Ends a line by four numbers.
fn end_with_four(
    text: &mut Bytes,
    short: &mut ShortText,
    a: u8,
    b: u8,
    c: u8,
    d: u8,
) -> Result<(), NoMemory>
    requires { length short.old ≤ PIECE }
    ensures { OnOk result (text.new ≡ text.old ++ (short.old
        ++ ended (decimal a ∷ decimal b ∷ decimal c ∷ decimal d ∷ []))) }
{
    add_number(short, u64::from(a));
    add_number(short, u64::from(b));
    add_number(short, u64::from(c));
    add_number(short, u64::from(d));
    short.end_line(text)
}

fn append_levels(text: &mut Bytes, levels: [u8; 4]) -> Result<(), NoMemory>
    ensures { OnOk result (text.new ≡ text.old ++ worded (bsr_words (Bsr.Long levels))) }
{
    let [a, b, c, d] = levels;
    let mut short = ShortText::new();
    short.add(b"mac bsr long");
    end_with_four(text, &mut short, a, b, c, d)
}

fn append_buffers(text: &mut Bytes, report: &Bsr) -> Result<(), NoMemory>
    ensures { OnOk result (text.new ≡ text.old ++ worded (bsr_words report.now)) }
{
    match report {
        Bsr::Truncated { group, level } => append_group(text, "truncated", *group, *level),
        Bsr::Short { group, level } => append_group(text, "short", *group, *level),
        Bsr::Long { levels } => append_levels(text, *levels),
    }
}

fn append_identity(text: &mut Bytes, what: &'static str, identity: &[u8]) -> Result<(), NoMemory>
    requires what { length what.now < PIECE }
    ensures { OnOk result (text.new ≡ text.old
        ++ worded (codes "mac" ∷ what.now ∷ encode_lower identity.now ∷ [])) }
{
    let mut short = ShortText::new();
    short.add(b"mac");
    add_word(&mut short, what);
    short.append_to(text)?;
    add_hex(text, identity)?;
    text.push(b'\n')
}

/// Adds the text of a control element of a block, and a line feed.
pub fn append_control(text: &mut Bytes, element: &Control) -> Result<(), NoMemory>
    ensures { OnOk result (text.new ≡ text.old ++ worded (control_words element.now)) }
{
    match element {
        Control::Contention(identity) => append_identity(text, "contention", identity),
        Control::Advance(value) => append_value(text, "mac ta", u32::from(*value)),
        Control::Drx => text.append(b"mac drx\n"),
        Control::Phr(level) => append_value(text, "mac phr", u32::from(*level)),
        Control::Crnti(identity) => {
            let octets = [(*identity / 256) as u8, (*identity % 256) as u8];
            append_identity(text, "crnti", &octets)
        }
        Control::Report(report) => append_buffers(text, report),
    }
}

/// A UMD PDU.
pub fn append_umd(text: &mut Bytes, sn: u32, fi: u8, lens: &Lens) -> Result<(), NoMemory>
    ensures { OnOk result (text.new ≡ text.old
        ++ worded (record_words (Record.RlcUm sn fi lens.now))) }
{
    let mut short = ShortText::new();
    short.add(b"rlc um");
    add_number(&mut short, u64::from(sn));
    add_framing(&mut short, fi);
    end_with_lens(text, &mut short, lens)
}

// Begins with the fields that an AMD PDU and a segment of one begin with.
#[inline(always)]
fn amd_head(kind: &'static str, sn: u32, poll: bool, fi: u8) -> ShortText
    requires { length kind.now < PIECE }
    ensures text { result
        ≡ kind.now ++ 32 ∷ (decimal sn ++ 32 ∷ (bit_text poll ++ 32 ∷ framing_text fi)) }
    ensures room { length result ≤ 2 * PIECE + 5 }
{
    let mut short = ShortText::new();
    short.add(kind.as_bytes());
    add_number(&mut short, u64::from(sn));
    add_bit(&mut short, poll);
    add_framing(&mut short, fi);
    short
}

/// An AMD PDU.
pub fn append_amd(
    text: &mut Bytes,
    sn: u32,
    poll: bool,
    fi: u8,
    lens: &Lens,
) -> Result<(), NoMemory>
    ensures { OnOk result (text.new ≡ text.old
        ++ worded (record_words (Record.RlcAm sn poll fi lens.now))) }
{
    let mut short = amd_head("rlc am", sn, poll, fi);
    end_with_lens(text, &mut short, lens)
}

/// An AMD PDU segment.
pub fn append_segment(
    text: &mut Bytes,
    sn: u32,
    poll: bool,
    fi: u8,
    last: bool,
    so: u32,
    lens: &Lens,
) -> Result<(), NoMemory>
    ensures { OnOk result (text.new ≡ text.old
        ++ worded (record_words (Record.RlcSeg sn poll fi last so lens.now))) }
{
    let mut short = amd_head("rlc seg", sn, poll, fi);
    add_bit(&mut short, last);
    add_number(&mut short, u64::from(so));
    end_with_lens(text, &mut short, lens)
}

/// A STATUS.
pub fn append_status(text: &mut Bytes, ack: u32, nacks: &Nacks) -> Result<(), NoMemory>
    ensures { OnOk result (text.new ≡ text.old
        ++ worded (record_words (Record.RlcStatus ack nacks.now))) }
{
    let mut short = ShortText::new();
    short.add(b"rlc status");
    add_number(&mut short, u64::from(ack));
    end_with_nacks(text, &mut short, nacks)
}

/// A PDCP PDU of a signalling bearer.
pub fn append_signalling(text: &mut Bytes, sn: u32, len: u32, tag: &[u8]) -> Result<(), NoMemory>
    ensures { OnOk result (text.new ≡ text.old
        ++ worded (record_words (Record.PdcpSrb sn len tag.now))) }
{
    let mut short = ShortText::new();
    short.add(b"pdcp srb");
    add_number(&mut short, u64::from(sn));
    add_number(&mut short, u64::from(len));
    short.append_to(text)?;
    add_hex(text, tag)?;
    text.push(b'\n')
}

// A part of a block that has a number and a bitmap.
fn append_mapped(
    text: &mut Bytes,
    what: &'static str,
    from: u32,
    bitmap: &[u8],
) -> Result<(), NoMemory>
    requires what { length what.now < PIECE }
    ensures { OnOk result (text.new ≡ text.old
        ++ worded (what.now ∷ decimal from ∷ bitmap_text bitmap.now ∷ [])) }
{
    let mut short = ShortText::new();
    short.add(what.as_bytes());
    add_number(&mut short, u64::from(from));
    short.append_to(text)?;
    add_bitmap(text, bitmap)?;
    text.push(b'\n')
}

/// A PDCP status report.
pub fn append_report(text: &mut Bytes, fms: u32, bitmap: &[u8]) -> Result<(), NoMemory>
    ensures { OnOk result (text.new ≡ text.old
        ++ worded (record_words (Record.PdcpReport fms bitmap.now))) }
{
    append_mapped(text, "pdcp report", fms, bitmap)
}

/// A block is shown.
pub fn append_shown(
    text: &mut Bytes,
    place: u32,
    direction: Direction,
    len: u32,
) -> Result<(), NoMemory>
    ensures { OnOk result (text.new ≡ text.old
        ++ worded (record_words (Record.Shown place direction len))) }
{
    let mut short = ShortText::new();
    short.add(b"record");
    add_number(&mut short, u64::from(place));
    add_direction(&mut short, direction);
    add_number(&mut short, u64::from(len));
    short.end_line(text)
}

/// A shown PDU that can't be read: at which octet, and why by its number.
pub fn append_bad(text: &mut Bytes, layer: &'static str, at: u32, why: u64) -> Result<(), NoMemory>
    requires layer { length layer.now < PIECE }
    ensures { OnOk result (text.new ≡ text.old
        ++ worded (codes "bad" ∷ layer.now ∷ decimal at ∷ decimal why ∷ [])) }
{
    let mut short = ShortText::new();
    short.add(b"bad");
    add_word(&mut short, layer);
    add_number(&mut short, u64::from(at));
    add_number(&mut short, why);
    short.end_line(text)
}
