ghost use Rattle.std.specs.Prelude.{◌≡◌, ◌<◌, ◌-◌, ◌++◌, length, map, replicate, OnOk};
ghost use Rattle.hex.specs.Hex.{encode_lower};
ghost use Rattle.text_digits.specs.Pairs.{high_digit, low_digit};

use l2_bits::{Bytes, NoMemory};
use std::simd::prelude::*;

/// The octets whose digits are written at a time.
const BLOCK: usize = 64;

/// Those of what is left behind the last block, as long as so many are left.
const PIECE: usize = 16;

/// The lower case digits, once for each sixteen lanes of a vector.
const DIGITS: [u8; BLOCK] = *b"0123456789abcdef0123456789abcdef0123456789abcdef0123456789abcdef";

// The digit of the high half of each octet.
#[inline(always)]
fn high_digits(octets: u8x64) -> u8x64
    ensures { result ≡ map high_digit octets }
{
    u8x64::from_array(DIGITS).swizzle_dyn_within::<16>(octets >> u8x64::splat(4))
}

// The digit of the low half of each octet.
#[inline(always)]
fn low_digits(octets: u8x64) -> u8x64
    ensures { result ≡ map low_digit octets }
{
    u8x64::from_array(DIGITS).swizzle_dyn_within::<16>(octets & u8x64::splat(15))
}

// The lanes of two vectors.
#[inline(always)]
fn lanes(first: u8x64, second: u8x64) -> [u8; 2 * BLOCK]
    ensures { result ≡ first ++ second }
{
    let mut lanes = [0u8; 2 * BLOCK];
    first.copy_to_slice(&mut lanes[..BLOCK]);
    second.copy_to_slice(&mut lanes[BLOCK..]);
    lanes
}

// The digits of a block: those of the high halves and of the low halves, by turns.
#[inline(always)]
fn block_digits(block: &[u8]) -> [u8; 2 * BLOCK]
    requires { length block.now ≡ BLOCK }
    ensures { result ≡ encode_lower block.now }
{
    let octets = u8x64::from_slice(block);
    let (first, second) = high_digits(octets).interleave(low_digits(octets));
    lanes(first, second)
}

/// The places of two vectors by turns.
const TURNS: [usize; 2 * PIECE] = [
    0, 16, 1, 17, 2, 18, 3, 19, 4, 20, 5, 21, 6, 22, 7, 23, 8, 24, 9, 25, 10, 26, 11, 27, 12, 28,
    13, 29, 14, 30, 15, 31,
];

// The digits of a piece, as those of a block.
#[inline(always)]
fn piece_digits(piece: &[u8]) -> [u8; 2 * PIECE]
    requires { length piece.now ≡ PIECE }
    ensures { result ≡ encode_lower piece.now }
{
    let octets = u8x16::from_slice(piece);
    let digits = u8x16::from_slice(&DIGITS);
    let high = digits.swizzle_dyn(octets >> u8x16::splat(4));
    let low = digits.swizzle_dyn(octets & u8x16::splat(15));
    high.shuffle::<32>(low, TURNS).to_array()
}

// A piece that begins with fewer octets, and goes on with zeros.
#[inline(always)]
fn filled(few: &[u8]) -> [u8; PIECE]
    requires { length few.now < PIECE }
    ensures { result ≡ few.now ++ replicate (PIECE - length few.now) 0 }
{
    let mut piece = [0u8; PIECE];
    piece[..few.len()].copy_from_slice(few);
    piece
}

// Adds the digits of fewer octets than a piece has.
fn append_few(text: &mut Bytes, few: &[u8]) -> Result<(), NoMemory>
    requires { length few.now < PIECE }
    ensures { OnOk result (text.new ≡ text.old ++ encode_lower few.now) }
{
    let [_, ..] = few else {
        return Ok(());
    };
    let digits = piece_digits(&filled(few));
    text.append(&digits[..2 * few.len()])
}

/// Adds octets in lower case hexadecimal digits, two for each, at the end.
pub fn append_hex(text: &mut Bytes, octets: &[u8]) -> Result<(), NoMemory>
    ensures { OnOk result (text.new ≡ text.old ++ encode_lower octets.now) }
{
    let mut rest = octets;
    while rest.len() >= BLOCK {
        let (block, behind) = rest.split_at(BLOCK);
        text.append(&block_digits(block))?;
        rest = behind;
    }
    while rest.len() >= PIECE {
        let (piece, behind) = rest.split_at(PIECE);
        text.append(&piece_digits(piece))?;
        rest = behind;
    }
    append_few(text, rest)
}
