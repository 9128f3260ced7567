//! 128-EEA2: AES-128 in counter mode (TS 33.401, B.1.3).

ghost use Rattle.std.specs.Prelude.{◌≡◌, ◌<◌, ◌≤◌, ◌+◌, ◌==◌, false, length, take, slice_index};
ghost use Rattle.std.specs.Prelude.{bit_xor};
ghost use Rattle.std.specs.Simd.Lanes.{zip2, chunk, put_chunk};
ghost use Rattle.eps_sec.specs.Aes.{aes};
ghost use Rattle.eps_sec.specs.Words.{state, IsFrontOf};
ghost use Rattle.eps_sec.specs.Modes.{prefix, first_counter, counter_block, stream_octet};
ghost use Rattle.eps_sec.specs.Modes.{add_stream, ciphered};

use crate::cipher::{Front, Schedule, encrypt_words, octets_of, words_of};
use crate::keys::Cipher;
use std::simd::prelude::*;

/// Ciphers or deciphers `text` in place; both are the same.
///
/// `count` is the COUNT of the PDU, `bearer` its radio bearer's identity less 1, and `direction` is
/// 0 on the uplink and 1 on the downlink. `Eea0` leaves the text as it is.
pub fn eea_apply(
    schedule: &Schedule,
    alg: Cipher,
    count: u32,
    bearer: u32,
    direction: u32,
    text: &mut [u8],
)
    requires bearer { bearer < 32 }
    requires direction { direction < 2 }
    ensures text { text.new ≡ ciphered alg schedule.now count bearer direction text.old }
    ensures back { ciphered alg schedule.now count bearer direction text.new ≡ text.old }
{
    match alg {
        Cipher::Eea0 => {}
        Cipher::Eea2 => add_stream(schedule, first_counter(count, bearer, direction), text),
    }
}

/// COUNT, BEARER and DIRECTION as both algorithms take them, with 26 zero bits.
pub(crate) fn prefix(count: u32, bearer: u32, direction: u32) -> [u8; 8]
    requires bearer { bearer < 32 }
    requires direction { direction < 2 }
    ensures { result ≡ prefix count bearer direction }
{
    let [a, b, c, d] = count.to_be_bytes();
    [a, b, c, d, (8 * bearer + 4 * direction) as u8, 0, 0, 0]
}

fn first_counter(count: u32, bearer: u32, direction: u32) -> u128
    requires bearer { bearer < 32 }
    requires direction { direction < 2 }
    ensures { result ≡ first_counter count bearer direction }
{
    let [a, b, c, d, e, f, g, h] = prefix(count, bearer, direction);
    u128::from_be_bytes([a, b, c, d, e, f, g, h, 0, 0, 0, 0, 0, 0, 0, 0])
}

fn counter_block(first: u128, i: usize) -> [u8; 16]
    ensures { result ≡ counter_block first i }
{
    first.wrapping_add(i as u128).to_be_bytes()
}

// What the counter blocks have in common that differ from block `i` in their last octet alone.
fn front_at(schedule: &Schedule, first: u128, i: usize) -> Front
    ensures { IsFrontOf result.word result.words schedule.now (take 15 (counter_block first i)) }
{
    Front::new(schedule, &words_of(&counter_block(first, i)))
}

// Whether the step from counter block `i` to the next carries out of the last octet.
fn has_carry(first: u128, i: usize) -> bool
    ensures octet { result ≡ (slice_index (counter_block first i) 15 == 255) }
    ensures head { result ≡ false → take 15 (counter_block first (i + 1))
        ≡ take 15 (counter_block first i) }
{
    counter_block(first, i)[15] == 255
}

// The words of the encrypted counter block `i`.
#[inline(always)]
fn stream_words(schedule: &Schedule, front: &Front, first: u128, i: usize) -> [u32; 4]
    requires { IsFrontOf front.now.word front.now.words schedule.now (take 15 (counter_block first i)) }
    ensures { state result ≡ aes schedule.now (counter_block first i) }
{
    front.encrypt(schedule, &words_of(&counter_block(first, i)))
}

// The octets of words, each word's highest first.
#[inline(always)]
fn octets_in(words: u32x4) -> u8x16
    ensures { result ≡ state words }
{
    words
        .to_le_bytes()
        .swizzle([3, 2, 1, 0, 7, 6, 5, 4, 11, 10, 9, 8, 15, 14, 13, 12])
}

// Adds 16 octets of the stream to those of a text from `start` on, all at once.
#[inline(always)]
fn add_words(stream: &[u32; 4], text: &mut [u8], start: usize)
    requires { start + 16 ≤ length text.old }
    ensures { text.new ≡ put_chunk start text.old
        (zip2 bit_xor (chunk start 16 text.old) (state stream.now)) }
{
    let sum = u8x16::from_slice(&text[start..]) ^ octets_in(u32x4::from_array(*stream));
    sum.copy_to_slice(&mut text[start..]);
}

/// Adds the encrypted counter blocks from `first` on to `text`.
pub(crate) fn add_stream(schedule: &Schedule, first: u128, text: &mut [u8])
    ensures { text.new ≡ add_stream (stream_octet schedule.now first) 0 text.old }
{
    if text.len() <= 16 {
        add_block(schedule, first, text);
        return;
    }
    let whole = text.len() / 16;
    let mut front = front_at(schedule, first, 0);
    for i in 0..whole {
        let stream = stream_words(schedule, &front, first, i);
        add_words(&stream, text, 16 * i);
        if has_carry(first, i) {
            front = front_at(schedule, first, i + 1);
        }
    }
    let start = 16 * whole;
    if start == text.len() {
        return;
    }
    let block = octets_of(&stream_words(schedule, &front, first, whole));
    for k in start..text.len() {
        text[k] ^= block[k - start];
    }
}

// Adds the first counter block to a text no longer than it, for which preparing would cost more
// than it saves.
fn add_block(schedule: &Schedule, first: u128, text: &mut [u8])
    requires { length text.now ≤ 16 }
    ensures { text.new ≡ add_stream (stream_octet schedule.now first) 0 text.old }
{
    if text.is_empty() {
        return;
    }
    let block = octets_of(&encrypt_words(schedule, &words_of(&counter_block(first, 0))));
    for k in 0..text.len() {
        text[k] ^= block[k];
    }
}
