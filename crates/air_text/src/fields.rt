ghost use Rattle.std.specs.Prelude.{◌≡◌, ◌≢◌, ◌⊎◌, [], ◌∷◌, slice_index, ◌≤◌, ◌<◌, ◌^◌, ◌+◌, ◌*◌};
ghost use Rattle.std.specs.Prelude.{◌-◌, ℕ, List, length, IfOk, IfSome, OnOk, MatchOption, IsTrue};
ghost use Rattle.std.specs.Prelude.{codes, map};
ghost use Rattle.air_text.specs.Words.{Gives, HasRead, words_of, texts};
ghost use Rattle.air_text.specs.Fields.{number_of, either_of, limit_of, octets_of, side_of};
ghost use Rattle.air_text.specs.Fields.{clock_of, kind_of, outcome_of, outcome, cipher_of, word_of};
ghost use Rattle.air_text.specs.Fields.{is_number};
ghost use Rattle.text_digits.specs.Numerals.{is_digit, value_behind};
ghost use Rattle.air_text.specs.Reading.{key_of};
ghost use Rattle.std.specs.List.{AllPass, list_all};
ghost use Rattle.std.specs.Str.{bytes_eq};

use crate::fault::{LineFault, LineRefusal};
use air_record::{Fate, Outcome};
use eps_sec::{Cipher, Key};
use hex::FromHexError;
use l2_bits::Bytes;
use l2_types::{Clock, Kind, Side};
use memchr::memchr;
use std::alloc::{AllocError, Global};
use text_digits::read_hex;

pub fn words<'a>(alloc: Global, text: &'a [u8]) -> Result<Vec<&'a [u8]>, AllocError>
    ensures { IfOk result (λ words. texts words.items ≡ words_of text.now) }
{
    let mut words = Vec::with_capacity(alloc, 8)?;
    let mut rest = text;
    while let Some((word, behind)) = split_word(rest) {
        words.push(word)?;
        rest = behind;
    }
    Ok(words)
}

/// Whether a text is a word.
pub fn is_word(text: &[u8], wanted: &[u8]) -> bool
    ensures { result ≡ bytes_eq text.now wanted.now }
{
    text == wanted
}

fn all_digits(text: &[u8]) -> bool
    ensures value { result ≡ list_all is_digit text.now }
    ensures digits { IsTrue result → AllPass is_digit text.now }
{
    text.iter().all(|x| b'0' <= *x && *x <= b'9')
}

#[tactic(auto, unfolding(crate::specs::Fields::is_number))]
fn is_numeral(text: &[u8]) -> bool
    ensures value { result ≡ is_number text.now }
    ensures digits { IsTrue result → AllPass is_digit text.now }
{
    if text.is_empty() {
        return false;
    }
    if text.len() > 1 && text[0] == b'0' {
        return false;
    }
    all_digits(text)
}

// The number that digits say, or anything above the most where it is above.
fn value(text: &[u8], most: u32) -> Option<u32>
    requires { AllPass is_digit text.now }
    ensures { MatchOption result (most < value_behind 0 text.now) (λ n. (n ≤ most)
        × (n ≡ value_behind 0 text.now)) }
{
    let mut so_far = 0u64;
    for x in text {
        so_far = so_far * 10 + u64::from(*x - b'0');
        if so_far > u64::from(most) {
            return None;
        }
    }
    Some(so_far as u32)
}

#[tactic(auto, unfolding(crate::specs::Fields::number_of))]
pub fn number(text: &[u8], least: u32, most: u32) -> Result<u32, LineRefusal>
    ensures value { result ≡ number_of least most text.now }
    ensures within { IfOk result (λ n. (least ≤ n) × (n ≤ most)) }
{
    if !is_numeral(text) {
        return Err(LineRefusal::Number);
    }
    let Some(number) = value(text, most) else {
        return Err(LineRefusal::Range);
    };
    if number < least {
        return Err(LineRefusal::Range);
    }
    Ok(number)
}

#[tactic(auto, unfolding(crate::specs::Fields::either_of))]
pub fn either(text: &[u8], one: u32, other: u32) -> Result<u32, LineRefusal>
    ensures value { result ≡ either_of one other text.now }
    ensures within { IfOk result (λ n. (n ≡ one) ⊎ (n ≡ other)) }
{
    let number = number(text, 0, 100)?;
    if number == one {
        return Ok(number);
    }
    if number == other {
        return Ok(number);
    }
    Err(LineRefusal::Range)
}

#[tactic(auto, unfolding(crate::specs::Fields::limit_of))]
pub fn limit(text: &[u8], none: &[u8], least: u32, most: u32) -> Result<Option<u32>, LineRefusal>
    ensures value { result ≡ limit_of none.now least most text.now }
    ensures within { IfOk result (λ limit. IfSome limit (λ n. (least ≤ n) × (n ≤ most))) }
{
    if text == none {
        return Ok(None);
    }
    let number = number(text, least, most)?;
    Ok(Some(number))
}

#[tactic(auto, using(crate::proofs::Octets::some_octets), unfolding(crate::specs::Fields::octets_of))]
pub fn octets(alloc: Global, text: &[u8], most: usize) -> Result<Bytes, LineFault>
    ensures value { Gives result (octets_of most text.now) }
    ensures some { IfOk result (λ octets. 1 ≤ length octets) }
    ensures short { IfOk result (λ octets. length octets ≤ most) }
{
    let mut octets = Bytes::with_capacity(alloc, text.len() / 2)?;
    octets_into(&mut octets, text, most)?;
    Ok(octets)
}

/// Reads octets in hexadecimal, at least one and at most so many, into a list in place of what it
/// holds.
#[tactic(auto, using(crate::proofs::Octets::some_octets), unfolding(crate::specs::Fields::octets_of))]
pub fn octets_into(octets: &mut Bytes, text: &[u8], most: usize) -> Result<(), LineFault>
    ensures value { HasRead (octets_of most text.now) octets.new result }
    ensures some { OnOk result (1 ≤ length octets.new) }
    ensures short { OnOk result (length octets.new ≤ most) }
{
    if text.is_empty() {
        return Err(LineFault::Refused(LineRefusal::Hex));
    }
    if !read_hex(text, octets)? {
        return Err(LineFault::Refused(LineRefusal::Hex));
    }
    if octets.as_slice().len() > most {
        return Err(LineFault::Refused(LineRefusal::Range));
    }
    Ok(())
}

fn key_octets(octets: &[u8]) -> [u8; 16]
    requires { length octets.now ≡ 16 }
    ensures { result ≡ octets.now }
{
    let mut key = [0u8; 16];
    key.copy_from_slice(octets);
    key
}

#[tactic(auto, unfolding(crate::specs::Reading::key_of))]
pub fn key(alloc: Global, text: &[u8]) -> Result<Key, LineFault>
    ensures { Gives result (key_of text.now) }
{
    if text.is_empty() {
        return Err(LineFault::Refused(LineRefusal::Hex));
    }
    let octets = match hex::decode(alloc, text) {
        Ok(octets) => octets,
        Err(FromHexError::OutOfMemory) => return Err(LineFault::NoMemory),
        Err(_) => return Err(LineFault::Refused(LineRefusal::Hex)),
    };
    if octets.len() != 16 {
        return Err(LineFault::Refused(LineRefusal::Range));
    }
    Ok(Key {
        octets: key_octets(&octets),
    })
}

#[tactic(auto, unfolding(crate::specs::Fields::side_of))]
pub fn side(text: &[u8]) -> Result<Side, LineRefusal>
    ensures { result ≡ side_of text.now }
{
    if is_word(text, b"ue") {
        return Ok(Side::Ue);
    }
    if is_word(text, b"nb") {
        return Ok(Side::Nb);
    }
    Err(LineRefusal::Word)
}

#[tactic(auto, unfolding(crate::specs::Fields::clock_of))]
pub fn clock(text: &[u8]) -> Result<Clock, LineRefusal>
    ensures { result ≡ clock_of text.now }
{
    if is_word(text, b"poll") {
        return Ok(Clock::Poll);
    }
    if is_word(text, b"reorder") {
        return Ok(Clock::Reorder);
    }
    if is_word(text, b"prohibit") {
        return Ok(Clock::Prohibit);
    }
    Err(LineRefusal::Word)
}

#[tactic(auto, unfolding(crate::specs::Fields::kind_of))]
pub fn kind(text: &[u8]) -> Result<Kind, LineRefusal>
    ensures { result ≡ kind_of text.now }
{
    if is_word(text, b"tm") {
        return Ok(Kind::Tm);
    }
    if is_word(text, b"srb") {
        return Ok(Kind::Srb);
    }
    if is_word(text, b"um") {
        return Ok(Kind::Um);
    }
    if is_word(text, b"am") {
        return Ok(Kind::Am);
    }
    Err(LineRefusal::Word)
}

fn fate(fate: Fate, flipped: bool) -> Outcome
    ensures { result ≡ outcome fate flipped }
{
    Outcome { fate, flipped }
}

#[tactic(auto, unfolding(crate::specs::Fields::outcome_of))]
pub fn outcome(text: &[u8]) -> Result<Outcome, LineRefusal>
    ensures { result ≡ outcome_of text.now }
{
    if is_word(text, b"ok") {
        return Ok(fate(Fate::Ok, false));
    }
    if is_word(text, b"ok~") {
        return Ok(fate(Fate::Ok, true));
    }
    if is_word(text, b"bad") {
        return Ok(fate(Fate::Bad, false));
    }
    if is_word(text, b"bad~") {
        return Ok(fate(Fate::Bad, true));
    }
    if is_word(text, b"miss") {
        return Ok(fate(Fate::Miss, false));
    }
    if is_word(text, b"miss~") {
        return Ok(fate(Fate::Miss, true));
    }
    Err(LineRefusal::Word)
}

#[tactic(auto, unfolding(crate::specs::Fields::cipher_of))]
pub fn cipher(text: &[u8]) -> Result<Cipher, LineRefusal>
    ensures { result ≡ cipher_of text.now }
{
    match number(text, 0, 100)? {
        0 => Ok(Cipher::Eea0),
        2 => Ok(Cipher::Eea2),
        _ => Err(LineRefusal::Range),
    }
}

#[tactic(auto, unfolding(crate::specs::Fields::word_of))]
pub fn word(text: &[u8], wanted: &[u8]) -> Result<(), LineRefusal>
    ensures { result ≡ word_of wanted.now text.now }
{
    if text == wanted {
        Ok(())
    } else {
        Err(LineRefusal::Word)
    }
}

// A text without the spaces at its beginning.
fn without_spaces(text: &[u8]) -> &[u8]
    ensures words { words_of result.now ≡ words_of text.now }
    ensures begins { slice_index result.now 0 ≢ 32 }
{
    let mut text = text;
    while let [b' ', rest @ ..] = text {
        text = rest;
    }
    text
}

/// The first word of a text, and what is behind it; `None` where there is no word.
pub fn split_word(text: &[u8]) -> Option<(&[u8], &[u8])>
    ensures { MatchOption result (words_of text.now ≡ [])
        (λ p. words_of text.now ≡ p.0.now ∷ words_of p.1.now) }
{
    let text = without_spaces(text);
    if text.is_empty() {
        return None;
    }
    match memchr(b' ', text) {
        None => Some((text, &[])),
        Some(at) => Some(text.split_at(at)),
    }
}
