ghost use Rattle.std.specs.Prelude.{◌≡◌, ◌≢◌, ◌≤◌, ◌<◌, ◌^◌, ◌-◌, ◌+◌, ◌*◌, ℕ, List, length, IfOk};
ghost use Rattle.std.specs.Prelude.{IsTrue, Some, true, MatchOption, MatchResult};
ghost use Rattle.std.specs.List.{list_all, AllPass};
ghost use Rattle.std.specs.Str.{bytes_eq};
ghost use Rattle.std.specs.Fmt.{decimal};
ghost use Rattle.hex.specs.Hex.{encode_lower, IsBytes};
ghost use Rattle.text_digits.specs.Numerals.{is_digit, value_behind};
ghost use Rattle.text_digits.specs.Pairs.{is_no_capital};
ghost use Rattle.air_record.specs.Text.{count_text, bitmap_text};
ghost use Rattle.air_text.specs.Fields.{is_number};
ghost use Rattle.journal_text.specs.Answers.{Gives};
ghost use Rattle.journal_text.specs.Fields.{number_to, long_of, count_of, octets_of, array_of};
ghost use Rattle.journal_text.specs.Fields.{bitmap_of};
ghost use Rattle.journal_text.specs.Records.{IsCount, AreOctets, IsArray};

use crate::fault::TextFault;
use air_text::LineRefusal;
use hex::decode_to_slice;
use l2_bits::Bytes;
use std::alloc::Global;
use text_digits::read_lower_hex;

/// Whether a text is a word.
#[inline(always)]
#[tactic(auto, using(crate::proofs::Numbers::same_word))]
pub fn says(text: &[u8], word: &[u8]) -> bool
    ensures value { result ≡ bytes_eq text.now word.now }
    ensures same { IsTrue result → text.now ≡ word.now }
{
    text == word
}

#[tactic(auto, using(crate::proofs::Numbers::written), unfolding(crate::specs::Fields::number_to))]
fn number_to(text: &[u8], most: u32) -> Result<u32, TextFault>
    ensures value { result ≡ number_to most text.now }
    ensures text { IfOk result (λ n. (decimal n ≡ text.now) × (n ≤ most)) }
{
    match air_text::number(text, 0, most) {
        Ok(number) => Ok(number),
        Err(_) => Err(TextFault::NotARecord),
    }
}

/// A number of 8 bits.
pub fn octet(text: &[u8]) -> Result<u8, TextFault>
    ensures value { result ≡ number_to 255 text.now }
    ensures text { IfOk result (λ n. (decimal n ≡ text.now) × (n < 2 ^ 8)) }
{
    let number = number_to(text, 255)?;
    Ok(number as u8)
}

/// A number of 32 bits.
pub fn number(text: &[u8]) -> Result<u32, TextFault>
    ensures value { result ≡ number_to 4294967295 text.now }
    ensures text { IfOk result (λ n. (decimal n ≡ text.now) × (n < 2 ^ 32)) }
{
    number_to(text, u32::MAX)
}

// The number that digits say, `None` where it has more than 64 bits.
fn long_value(text: &[u8]) -> Option<u64>
    requires { AllPass is_digit text.now }
    ensures { MatchOption result (2 ^ 64 ≤ value_behind 0 text.now)
        (λ n. (n ≡ value_behind 0 text.now) × (n < 2 ^ 64)) }
{
    let mut so_far = 0u64;
    for x in text {
        if so_far > u64::MAX / 10 {
            return None;
        }
        let digit = u64::from(*x - b'0');
        if digit > u64::MAX - so_far * 10 {
            return None;
        }
        so_far = so_far * 10 + digit;
    }
    Some(so_far)
}

/// A number of 64 bits. Most have 32.
#[tactic(auto, using(crate::proofs::Numbers::longs), unfolding(crate::specs::Fields::long_of))]
pub fn long_number(text: &[u8]) -> Result<u64, TextFault>
    ensures value { result ≡ long_of text.now }
    ensures text { IfOk result (λ n. (decimal n ≡ text.now) × (n < 2 ^ 64)) }
{
    match air_text::number(text, 0, u32::MAX) {
        Ok(number) => Ok(u64::from(number)),
        Err(LineRefusal::Range) => match long_value(text) {
            Some(number) => Ok(number),
            None => Err(TextFault::NotARecord),
        },
        Err(_) => Err(TextFault::NotARecord),
    }
}

/// A number of 32 bits, or none for `-`.
#[tactic(auto, unfolding(crate::specs::Fields::count_of))]
pub fn count(text: &[u8]) -> Result<Option<u32>, TextFault>
    ensures value { result ≡ count_of text.now }
    ensures text { IfOk result (λ count. (count_text count ≡ text.now) × IsCount count) }
{
    if says(text, b"-") {
        return Ok(None);
    }
    let number = number(text)?;
    Ok(Some(number))
}

/// Octets in hexadecimal digits of lower case, one at least.
#[tactic(auto, unfolding(crate::specs::Fields::octets_of))]
pub fn octets(alloc: Global, text: &[u8]) -> Result<Bytes, TextFault>
    ensures value { Gives result (octets_of text.now) }
    ensures text { IfOk result (λ octets. (encode_lower octets ≡ text.now) × AreOctets octets) }
{
    if text.is_empty() {
        return Err(TextFault::NotARecord);
    }
    let mut octets = Bytes::with_capacity(alloc, text.len() / 2)?;
    if !read_lower_hex(text, &mut octets)? {
        return Err(TextFault::NotARecord);
    }
    Ok(octets)
}

// All of the text is looked at, since a loop that may end early takes one octet at a time.
fn has_no_capital(text: &[u8]) -> bool
    ensures { result ≡ list_all is_no_capital text.now }
{
    let mut none = true;
    for x in text {
        none = none & (*x < b'A' || b'F' < *x);
    }
    none
}

/// As many octets as an array has.
#[tactic(auto, unfolding(crate::specs::Fields::array_of))]
pub fn array<const N: usize>(text: &[u8]) -> Result<[u8; N], TextFault>
    ensures value { result ≡ array_of N text.now }
    ensures text { IfOk result (λ octets. (encode_lower octets ≡ text.now) × IsArray N octets) }
{
    if !has_no_capital(text) {
        return Err(TextFault::NotARecord);
    }
    let mut octets = [0u8; N];
    match decode_to_slice(text, &mut octets) {
        Ok(()) => Ok(octets),
        Err(_) => Err(TextFault::NotARecord),
    }
}

/// Octets, or none for `-`.
#[tactic(auto, unfolding(crate::specs::Fields::bitmap_of))]
pub fn bitmap(alloc: Global, text: &[u8]) -> Result<Bytes, TextFault>
    ensures value { Gives result (bitmap_of text.now) }
    ensures text { IfOk result (λ octets. (bitmap_text octets ≡ text.now) × IsBytes octets) }
{
    if says(text, b"-") {
        return Ok(Bytes::new(alloc));
    }
    octets(alloc, text)
}
