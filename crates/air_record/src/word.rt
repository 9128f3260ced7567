// Words with the space before each: in a short text, or in a list where they may be long.
ghost use Rattle.std.specs.Prelude.{◌≡◌, ◌<◌, ◌≤◌, ◌+◌, ◌*◌, ◌++◌, ◌∷◌, [], OnOk, IfSome, map, drop, length};
ghost use Rattle.air_record.specs.Text.{worded, ended, lens_text, nacks_text, nack_text};
ghost use Rattle.air_record.specs.Text.{comma_before, count_text, bitmap_text};
ghost use Rattle.std.specs.Fmt.{decimal};
ghost use Rattle.hex.specs.Hex.{encode_lower};

use crate::record::Lens;
use crate::short_text::{PIECE, ROOM, ShortText};
use itoa::Buffer;
use l2_bits::{Bytes, Items, NoMemory};
use rlc_pdu::{Nack, Nacks};
use text_digits::{append_hex, append_number};

/// Adds a space and a word.
#[inline(always)]
pub fn add_word(short: &mut ShortText, word: &'static str)
    requires word { length word.now < PIECE }
    requires room { length short.old + PIECE ≤ ROOM }
    ensures text { short.new ≡ short.old ++ 32 ∷ word.now }
    ensures room { length short.new ≤ length short.old + PIECE }
{
    short.add(b" ");
    short.add(word.as_bytes());
}

// The digit of a number below 10.
#[inline(always)]
fn digit(number: u64) -> u8
    requires { number < 10 }
    ensures { result ≡ 48 + number }
{
    b'0' + number as u8
}

// Adds a space and a number of three digits or more, of which most have few.
#[inline(never)]
#[tactic(auto, using(crate::proofs::Digits::digits))]
fn add_long(short: &mut ShortText, number: u64)
    requires number { 100 ≤ number }
    requires room { length short.old + PIECE ≤ ROOM }
    ensures text { short.new ≡ short.old ++ 32 ∷ decimal number }
    ensures room { length short.new ≤ length short.old + PIECE }
{
    let (tens, ones) = (number / 10, digit(number % 10));
    let (hundreds, tens) = (tens / 10, digit(tens % 10));
    if number < 1000 {
        short.add(&[b' ', digit(hundreds), tens, ones]);
        return;
    }
    if number < 10_000 {
        short.add(&[b' ', digit(hundreds / 10), digit(hundreds % 10), tens, ones]);
        return;
    }
    let mut buffer = Buffer::new();
    short.add(b" ");
    short.add(buffer.format(number).as_bytes());
}

/// Adds a space and a number. Most are of one digit or two.
#[inline(always)]
#[tactic(auto, using(crate::proofs::Digits::digits, std::proofs::lemmas::Fmt::decimal_digit))]
pub fn add_number(short: &mut ShortText, number: u64)
    requires { length short.old + PIECE ≤ ROOM }
    ensures text { short.new ≡ short.old ++ 32 ∷ decimal number }
    ensures room { length short.new ≤ length short.old + PIECE }
{
    if number < 10 {
        short.add(&[b' ', digit(number)]);
    } else if number < 100 {
        short.add(&[b' ', digit(number / 10), digit(number % 10)]);
    } else {
        add_long(short, number);
    }
}

/// Adds a space and a number, or `-` for none.
#[inline(always)]
pub fn add_count(short: &mut ShortText, count: Option<u32>)
    requires { length short.old + PIECE ≤ ROOM }
    ensures text { short.new ≡ short.old ++ 32 ∷ count_text count }
    ensures room { length short.new ≤ length short.old + PIECE }
{
    match count {
        None => short.add(b" -"),
        Some(count) => add_number(short, u64::from(count)),
    }
}

/// Adds a space and octets in hexadecimal.
pub fn add_hex(text: &mut Bytes, octets: &[u8]) -> Result<(), NoMemory>
    ensures { OnOk result (text.new ≡ text.old ++ 32 ∷ encode_lower octets.now) }
{
    text.push(b' ')?;
    append_hex(text, octets)
}

/// Adds a space and octets as they were given.
pub fn add_given(text: &mut Bytes, given: &[u8]) -> Result<(), NoMemory>
    ensures { OnOk result (text.new ≡ text.old ++ 32 ∷ given.now) }
{
    text.push(b' ')?;
    text.append(given)
}

/// Adds a space and octets in hexadecimal, or `-` for none.
pub fn add_bitmap(text: &mut Bytes, bitmap: &[u8]) -> Result<(), NoMemory>
    ensures { OnOk result (text.new ≡ text.old ++ 32 ∷ bitmap_text bitmap.now) }
{
    if bitmap.is_empty() {
        return text.append(b" -");
    }
    add_hex(text, bitmap)
}

fn item_at<T: Copy>(items: &Items<T>, at: usize) -> T
    requires { at < length items.now }
    ensures { drop at items.now ≡ result ∷ drop (at + 1) items.now }
{
    match items.get(at) {
        Some(item) => *item,
        None => unreachable!(),
    }
}

// The lengths from the second on, with a comma before each.
fn append_more_lens(text: &mut Bytes, lens: &Lens) -> Result<(), NoMemory>
    ensures { OnOk result (text.new ≡ text.old ++ comma_before (map decimal (drop 1 lens.now))) }
{
    for at in 1..lens.len() {
        text.push(b',')?;
        append_number(text, u64::from(item_at(lens, at)))?;
    }
    Ok(())
}

// The only length, where there are no others.
fn only_len(lens: &Lens) -> Option<u32>
    ensures { IfSome result (λ len. lens_text lens.now ≡ decimal len) }
{
    let Some(first) = lens.get(0) else {
        return None;
    };
    if lens.len() != 1 {
        return None;
    }
    Some(*first)
}

/// Ends a line by a space and lengths with a comma between two, of which there mostly is one.
pub fn end_with_lens(text: &mut Bytes, short: &mut ShortText, lens: &Lens) -> Result<(), NoMemory>
    requires { length short.old + PIECE < ROOM }
    ensures { OnOk result
        (text.new ≡ text.old ++ (short.old ++ 32 ∷ (lens_text lens.now ++ 10 ∷ []))) }
{
    if let Some(only) = only_len(lens) {
        add_number(short, u64::from(only));
        return short.end_line(text);
    }
    let Some(first) = lens.get(0) else {
        short.add(b" ");
        return short.end_line(text);
    };
    add_number(short, u64::from(*first));
    short.append_to(text)?;
    append_more_lens(text, lens)?;
    text.push(b'\n')
}

fn append_nack(text: &mut Bytes, nack: &Nack) -> Result<(), NoMemory>
    ensures { OnOk result (text.new ≡ text.old ++ nack_text nack.now) }
{
    append_number(text, u64::from(nack.sn))?;
    let Some(part) = nack.part else {
        return Ok(());
    };
    text.push(b':')?;
    append_number(text, u64::from(part.start))?;
    text.push(b'-')?;
    append_number(text, u64::from(part.end))
}

// The entries from the second on, with a comma before each.
fn append_more_nacks(text: &mut Bytes, nacks: &Nacks) -> Result<(), NoMemory>
    ensures { OnOk result (text.new ≡ text.old ++ comma_before (map nack_text (drop 1 nacks.now))) }
{
    for at in 1..nacks.len() {
        text.push(b',')?;
        append_nack(text, &item_at(nacks, at))?;
    }
    Ok(())
}

/// Ends a line by a space and entries with a comma between two, or `-` for none, which is most.
pub fn end_with_nacks(
    text: &mut Bytes,
    short: &mut ShortText,
    nacks: &Nacks,
) -> Result<(), NoMemory>
    requires { length short.old + PIECE < ROOM }
    ensures { OnOk result
        (text.new ≡ text.old ++ (short.old ++ 32 ∷ (nacks_text nacks.now ++ 10 ∷ []))) }
{
    let Some(first) = nacks.get(0) else {
        short.add(b" -");
        return short.end_line(text);
    };
    short.add(b" ");
    short.append_to(text)?;
    append_nack(text, first)?;
    append_more_nacks(text, nacks)?;
    text.push(b'\n')
}

/// Ends a line by a name and a number.
#[inline(always)]
pub fn end_counted(
    text: &mut Bytes,
    short: &mut ShortText,
    name: &'static str,
    count: u64,
) -> Result<(), NoMemory>
    requires name { length name.now < PIECE }
    requires room { length short.old + 2 * PIECE < ROOM }
    ensures { OnOk result
        (text.new ≡ text.old ++ (short.old ++ worded (name.now ∷ decimal count ∷ []))) }
{
    short.add(name.as_bytes());
    add_number(short, count);
    short.end_line(text)
}
