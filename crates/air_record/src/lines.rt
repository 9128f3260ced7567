ghost use Rattle.std.specs.Prelude.{◌≡◌, ◌≤◌, ◌<◌, ◌++◌, ◌∷◌, [], OnOk, codes, length};
ghost use Rattle.air_record.specs.Text.{worded, line_words, bearer_words};
ghost use Rattle.hex.specs.Hex.{encode_lower};
ghost use Rattle.std.specs.Fmt.{decimal};

use crate::line::{Line, Outcome};
use crate::naming::{add_clock, add_outcome, add_side, cipher_word, kind_word};
use crate::short_text::{PIECE, ShortText};
use crate::word::{add_given, add_hex, add_number, add_word, end_counted};
use bearer_types::BearerConfig;
use eps_sec::{Key, Keys};
use l2_bits::{Bytes, NoMemory};
use l2_types::{Clock, DrxConfig, Side};

/// The most octets before a line in its record.
pub(crate) const HEAD: usize = 26;

// Behind what a short text has, each adds a line.

fn append_keys(text: &mut Bytes, short: &mut ShortText, keys: &Keys) -> Result<(), NoMemory>
    requires { length short.old ≤ HEAD }
    ensures { OnOk result
        (text.new ≡ text.old ++ (short.old ++ worded (line_words (Line.Keys keys.now)))) }
{
    short.add(b"keys");
    add_word(short, cipher_word(keys.alg));
    short.append_to(text)?;
    add_hex(text, &keys.user.octets)?;
    add_hex(text, &keys.rrc.octets)?;
    add_hex(text, &keys.integrity.octets)?;
    text.push(b'\n')
}

fn append_bearer(
    text: &mut Bytes,
    short: &mut ShortText,
    config: &BearerConfig,
    options: &[u8],
) -> Result<(), NoMemory>
    requires { length short.old ≤ HEAD }
    ensures { OnOk result
        (text.new ≡ text.old ++ (short.old ++
        worded (bearer_words config.now.channel.lcid config.now.kind options.now))) }
{
    short.add(b"bearer");
    add_number(short, u64::from(config.channel.lcid));
    add_word(short, kind_word(config.kind));
    if options.is_empty() {
        return short.end_line(text);
    }
    short.append_to(text)?;
    add_given(text, options)?;
    text.push(b'\n')
}

fn append_submit(
    text: &mut Bytes,
    short: &mut ShortText,
    side: Side,
    lcid: u8,
    octets: &[u8],
) -> Result<(), NoMemory>
    requires { length short.old ≤ HEAD }
    ensures { OnOk result
        (text.new ≡ text.old ++ (short.old ++
        worded (line_words (Line.Submit side lcid octets.now)))) }
{
    short.add(b"submit");
    add_side(short, side);
    add_number(short, u64::from(lcid));
    short.append_to(text)?;
    add_hex(text, octets)?;
    text.push(b'\n')
}

fn append_tti(
    text: &mut Bytes,
    short: &mut ShortText,
    up_grant: u32,
    up: Outcome,
    down_grant: u32,
    down: Outcome,
) -> Result<(), NoMemory>
    requires { length short.old ≤ HEAD }
    ensures { OnOk result
        (text.new ≡ text.old ++ (short.old ++
        worded (line_words (Line.Tti up_grant up down_grant down)))) }
{
    short.add(b"tti");
    add_number(short, u64::from(up_grant));
    add_outcome(short, up);
    add_number(short, u64::from(down_grant));
    add_outcome(short, down);
    short.end_line(text)
}

fn append_expire(
    text: &mut Bytes,
    short: &mut ShortText,
    side: Side,
    lcid: u8,
    clock: Clock,
) -> Result<(), NoMemory>
    requires { length short.old ≤ HEAD }
    ensures { OnOk result
        (text.new ≡ text.old ++ (short.old ++ worded (line_words (Line.Expire side lcid clock)))) }
{
    short.add(b"expire");
    add_side(short, side);
    add_number(short, u64::from(lcid));
    add_clock(short, clock);
    short.end_line(text)
}

fn append_handover<'a>(
    text: &mut Bytes,
    short: &mut ShortText,
    user: &'a Key,
    rrc: &'a Key,
    integrity: &'a Key,
) -> Result<(), NoMemory>
    requires { length short.old ≤ HEAD }
    ensures { OnOk result
        (text.new ≡ text.old ++ (short.old ++
        worded (line_words (Line.Handover user.now rrc.now integrity.now)))) }
{
    short.add(b"handover");
    short.append_to(text)?;
    add_hex(text, &user.octets)?;
    add_hex(text, &rrc.octets)?;
    add_hex(text, &integrity.octets)?;
    text.push(b'\n')
}

fn append_loop(
    text: &mut Bytes,
    short: &mut ShortText,
    mode: &'static str,
    with: u32,
) -> Result<(), NoMemory>
    requires mode { length mode.now < PIECE }
    requires head { length short.old ≤ HEAD }
    ensures { OnOk result
        (text.new ≡ text.old ++ (short.old ++
        worded (codes "loop" ∷ mode.now ∷ decimal with ∷ []))) }
{
    short.add(b"loop");
    add_word(short, mode);
    add_number(short, u64::from(with));
    short.end_line(text)
}

fn append_forge(
    text: &mut Bytes,
    short: &mut ShortText,
    side: Side,
    octets: &[u8],
) -> Result<(), NoMemory>
    requires { length short.old ≤ HEAD }
    ensures { OnOk result
        (text.new ≡ text.old ++ (short.old ++ worded (line_words (Line.Forge side octets.now)))) }
{
    short.add(b"forge");
    add_side(short, side);
    short.append_to(text)?;
    add_hex(text, octets)?;
    text.push(b'\n')
}

fn append_discard(
    text: &mut Bytes,
    short: &mut ShortText,
    lcid: u8,
    ttis: u32,
) -> Result<(), NoMemory>
    requires { length short.old ≤ HEAD }
    ensures { OnOk result
        (text.new ≡ text.old ++ (short.old ++ worded (line_words (Line.Discard lcid ttis)))) }
{
    short.add(b"discard");
    add_number(short, u64::from(lcid));
    add_number(short, u64::from(ttis));
    short.end_line(text)
}

fn append_drx(text: &mut Bytes, short: &mut ShortText, config: &DrxConfig) -> Result<(), NoMemory>
    requires { length short.old ≤ HEAD }
    ensures { OnOk result
        (text.new ≡ text.old ++ (short.old ++ worded (line_words (Line.Drx config.now)))) }
{
    short.add(b"drx");
    add_number(short, u64::from(config.on));
    add_number(short, u64::from(config.inactivity));
    add_number(short, u64::from(config.retransmit));
    add_number(short, u64::from(config.cycle));
    add_number(short, u64::from(config.offset));
    short.end_line(text)
}

// A line of one word.
fn append_word(text: &mut Bytes, short: &mut ShortText, word: &'static str) -> Result<(), NoMemory>
    requires word { length word.now < PIECE }
    requires head { length short.old ≤ HEAD }
    ensures { OnOk result (text.new ≡ text.old ++ (short.old ++ worded (word.now ∷ []))) }
{
    short.add(word.as_bytes());
    short.end_line(text)
}

/// Adds the text of a line, and a line feed.
pub fn append_line(text: &mut Bytes, short: &mut ShortText, line: &Line) -> Result<(), NoMemory>
    requires { length short.old ≤ HEAD }
    ensures { OnOk result (text.new ≡ text.old ++ (short.old ++ worded (line_words line.now))) }
{
    match line {
        Line::Harq { visits } => end_counted(text, short, "harq", u64::from(*visits)),
        Line::Bsr => append_word(text, short, "bsr on"),
        Line::Keys { keys } => append_keys(text, short, keys),
        Line::Bearer { config, options } => append_bearer(text, short, config, options.as_slice()),
        Line::Submit { side, lcid, octets } => append_submit(
            text,
            short,
            *side,
            *lcid,
            octets.as_slice(),
        ),
        Line::Tti {
            up_grant,
            up,
            down_grant,
            down,
        } => append_tti(text, short, *up_grant, *up, *down_grant, *down),
        Line::Expire { side, lcid, clock } => append_expire(text, short, *side, *lcid, *clock),
        Line::Handover {
            user,
            rrc,
            integrity,
        } => append_handover(text, short, user, rrc, integrity),
        Line::LoopOff => append_word(text, short, "loop off"),
        Line::LoopA { size } => append_loop(text, short, "a", *size),
        Line::LoopB { delay } => append_loop(text, short, "b", *delay),
        Line::Drain { grant } => end_counted(text, short, "drain", u64::from(*grant)),
        Line::Forge { side, octets } => append_forge(text, short, *side, octets.as_slice()),
        Line::End => append_word(text, short, "end"),
        Line::Discard { lcid, ttis } => append_discard(text, short, *lcid, *ttis),
        Line::Drx { config } => append_drx(text, short, config),
    }
}
