ghost use Rattle.std.specs.Prelude.{◌≡◌, ◌<◌, ◌-◌, ◌++◌, length, replicate, OnOk, IfOk, true};
ghost use Rattle.std.specs.Prelude.{false, Some, None, MatchOption, MatchResult, map};
ghost use Rattle.hex.specs.Hex.{decode_of};
ghost use Rattle.text_digits.specs.Pairs.{number_value, small_value, letter_value, value};
ghost use Rattle.text_digits.specs.Pairs.{all_digits, joined, pairs, is_no_capital};
ghost use Rattle.std.specs.List.{list_all};

use l2_bits::{Bytes, NoMemory};
use std::simd::prelude::*;

/// The digits that are read at a time.
const BLOCK: usize = 64;

// Which letters are digits: those of either case, or those of lower case alone.
#[derive(Clone, Copy)]
enum Letters {
    Either,
    Lower,
}

// The value of each decimal digit, and 16 or more for anything else: less the octet behind `9` the
// digits are 246 to 255 and all else is below, so that 6 less and 240 less they are 0 to 9, and all
// else is 16 to 255.
#[inline(always)]
fn number_values(digits: u8x64) -> u8x64
    ensures { result ≡ map number_value digits }
{
    (digits - u8x64::splat(b'9' + 1)).saturating_sub(u8x64::splat(6)) - u8x64::splat(240)
}

// The value of each letter of lower case, and 16 or more for anything else: less `a` the letters
// are 0 to 5, so that with 10 more they are 10 to 15, and all else is 16 to 255.
#[inline(always)]
fn small_values(digits: u8x64) -> u8x64
    ensures { result ≡ map small_value digits }
{
    (digits - u8x64::splat(b'a')).simd_min(u8x64::splat(245)) + u8x64::splat(10)
}

// The value of each letter, and 16 or more for anything else: the cases differ in one bit.
#[inline(always)]
fn letter_values(letters: Letters, digits: u8x64) -> u8x64
    ensures { result ≡ map (letter_value letters) digits }
{
    match letters {
        Letters::Either => small_values(digits | u8x64::splat(32)),
        Letters::Lower => small_values(digits),
    }
}

// The value of each digit, and 16 or more for anything else.
#[inline(always)]
fn values(letters: Letters, digits: u8x64) -> u8x64
    ensures { result ≡ map (value letters) digits }
{
    number_values(digits).simd_min(letter_values(letters, digits))
}

#[inline(always)]
fn are_digits(values: u8x64) -> bool
    ensures { result ≡ all_digits values }
{
    values.simd_ge(u8x64::splat(16)).to_bitmask() == 0
}

// The octets by the values of their digits. Of two digits the first is the low octet of a word, and
// 4096 times the word and the word itself have the octet that the two say as their high one.
#[inline(always)]
fn joined(values: u8x64) -> u8x32
    ensures { result ≡ joined values }
{
    let words = u16x32::from_le_bytes(values);
    ((words * u16x32::splat(4096 + 1)) >> u16x32::splat(8)).cast::<u8>()
}

// The octets that a block of digits says, or none where it isn't digits alone.
#[inline(always)]
fn read_block(letters: Letters, digits: &[u8]) -> Option<[u8; BLOCK / 2]>
    requires { length digits.now ≡ BLOCK }
    ensures { MatchOption result (pairs letters digits.now ≡ None)
        (λ octets. pairs letters digits.now ≡ Some octets) }
{
    let values = values(letters, u8x64::from_slice(digits));
    if are_digits(values) {
        Some(joined(values).to_array())
    } else {
        None
    }
}

// A block that begins with fewer digits, and goes on with zeros.
#[inline(always)]
fn filled(few: &[u8]) -> [u8; BLOCK]
    requires { length few.now < BLOCK }
    ensures { result ≡ few.now ++ replicate (BLOCK - length few.now) 48 }
{
    let mut block = [b'0'; BLOCK];
    block[..few.len()].copy_from_slice(few);
    block
}

// Adds the octets that fewer digits than a block say; `false` where they aren't pairs of digits
// alone.
fn append_few(letters: Letters, octets: &mut Bytes, digits: &[u8]) -> Result<bool, NoMemory>
    requires { length digits.now < BLOCK }
    ensures { IfOk result
        (λ good. MatchOption (pairs letters digits.now) (good ≡ false) (λ few. (good ≡ true)
        × (octets.new ≡ octets.old ++ few))) }
{
    if digits.len() % 2 != 0 {
        return Ok(false);
    }
    let Some(read) = read_block(letters, &filled(digits)) else {
        return Ok(false);
    };
    octets.append(&read[..digits.len() / 2])?;
    Ok(true)
}

// Reads digits, two for each octet, into a list in place of what it holds.
#[inline(always)]
fn read(letters: Letters, text: &[u8], octets: &mut Bytes) -> Result<bool, NoMemory>
    ensures { IfOk result
        (λ good. MatchOption (pairs letters text.now) (good ≡ false)
        (λ read. (good ≡ true) × (octets.new ≡ read))) }
{
    octets.clear();
    let mut rest = text;
    while rest.len() >= BLOCK {
        let (block, behind) = rest.split_at(BLOCK);
        let Some(read) = read_block(letters, block) else {
            return Ok(false);
        };
        octets.append(&read)?;
        rest = behind;
    }
    let good = append_few(letters, octets, rest)?;
    Ok(good)
}

/// Reads hexadecimal digits of either case, two for each octet, into a list in place of what it
/// holds.
///
/// `false` exactly where the text is anything else.
pub fn read_hex(text: &[u8], octets: &mut Bytes) -> Result<bool, NoMemory>
    ensures { IfOk result
        (λ good. MatchResult (decode_of text.now) (λ read. (good ≡ true) × (octets.new ≡ read))
        (λ _. good ≡ false)) }
{
    read(Letters::Either, text, octets)
}

/// Reads hexadecimal digits of lower case, as `read_hex` does.
///
/// `false` exactly where the text is anything else.
pub fn read_lower_hex(text: &[u8], octets: &mut Bytes) -> Result<bool, NoMemory>
    ensures lower { IfOk result
        (λ good. list_all is_no_capital text.now ≡ true → MatchResult (decode_of text.now)
        (λ read. (good ≡ true) × (octets.new ≡ read)) (λ _. good ≡ false)) }
    ensures capital { IfOk result
        (λ good. list_all is_no_capital text.now ≡ false → good ≡ false) }
{
    read(Letters::Lower, text, octets)
}
