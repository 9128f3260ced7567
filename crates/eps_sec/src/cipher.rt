//! The block cipher over words.
//!
//! A state is four words, one for each column, with row 0 in the highest octet. A round looks up
//! what each octet adds to its column, so that SubBytes, ShiftRows and MixColumns are four look-ups
//! a column, with a table for each row.

ghost use Rattle.std.specs.Prelude.{◌≡◌, ◌≤◌, ℕ, List, [], ◌∷◌, take};
ghost use Rattle.eps_sec.specs.Field.{sub_byte};
ghost use Rattle.eps_sec.specs.Aes.{add_words, sub_word, rot_word, power_of_x, next_key, sub_bytes};
ghost use Rattle.eps_sec.specs.Aes.{shift_rows, mix_columns, add_round_key, round_key, rounds, aes};
ghost use Rattle.eps_sec.specs.Words.{column, row, mix_column, state, IsFrontOf};

use crate::field::times;
use crate::keys::Key;
use crate::tables::{from_row_0, from_row_1, from_row_2, from_row_3, sub_byte};
use std::marker::Model;

/// The round keys of a key (FIPS 197, section 5.2). Contracts see the key itself.
#[derive(Debug, Drop)]
pub struct Schedule {
    keys: [[u32; 4]; 11],
}

impl Model for Schedule {
    ghost use Rattle.std.specs.Prelude.{ℕ, List, [], slice_index_or};
    ghost use Rattle.eps_sec.specs.Words.{state, AreRoundKeys};

    ghost Value = { List ℕ };

    ghost view = { λ s. state (slice_index_or s.keys 0 []) };

    ghost invariant = { λ s. AreRoundKeys s.keys };
}

impl Schedule {
    /// Expands the key.
    pub fn new(key: &Key) -> Schedule
        ensures { result ≡ key.now.octets }
    {
        let mut keys = [words_of(&key.octets); 11];
        let mut power = 1;
        for n in 0..10 {
            keys[n + 1] = next_key(&keys[n], power);
            power = times(2, power);
        }
        Schedule { keys }
    }
}

/// The block under the key (FIPS 197, section 5.1).
pub fn encrypt_block(schedule: &Schedule, block: &[u8; 16]) -> [u8; 16]
    ensures { result ≡ aes schedule.now block.now }
{
    octets_of(&encrypt_words(schedule, &words_of(block)))
}

/// A block under the key, both as words.
pub(crate) fn encrypt_words(schedule: &Schedule, block: &[u32; 4]) -> [u32; 4]
    ensures { state result ≡ aes schedule.now (state block.now) }
{
    encrypt_from(schedule, 0, block)
}

// The block under the key, from its state before round key `start` is added.
//
// It stays a function of its own: where it is inlined, its loop has fewer registers and is slower.
#[inline(never)]
fn encrypt_from(schedule: &Schedule, start: usize, before: &[u32; 4]) -> [u32; 4]
    requires { start ≤ 9 }
    ensures { (block : List ℕ) → add_round_key (round_key schedule.now start) (state before.now)
        ≡ rounds schedule.now block start → state result ≡ aes schedule.now block }
{
    let keys = &schedule.keys;
    let mut state = *before;
    for n in start..9 {
        state = mixed_round(&add_key(&keys[n], &state));
    }
    let last = last_round(&add_key(&keys[9], &state));
    add_key(&keys[10], &last)
}

// The octet that the S-box takes to 0, so that a round adds nothing for it.
const NOTHING: u8 = 0x52;

/// What the first two rounds make of all the blocks that differ in their last octet alone.
///
/// That octet goes into one word in the first round, and that word into one octet of each in the
/// second.
#[derive(Debug, Drop)]
pub(crate) struct Front {
    word: u32,
    words: [u32; 4],
}

impl Front {
    /// Prepares the blocks that are as `block` but for its last octet.
    #[inline(never)]
    pub(crate) fn new(schedule: &Schedule, block: &[u32; 4]) -> Front
        ensures { IsFrontOf result.word result.words schedule.now (take 15 (state block.now)) }
    {
        let [a, b, c, d] = add_key(&schedule.keys[0], block);
        let d = u32::from_be_bytes([row_0(d), row_1(d), row_2(d), NOTHING]);
        let [w, x, y, z] = add_key(&schedule.keys[1], &mixed_round(&[a, b, c, d]));
        let nothing = u32::from_be_bytes([NOTHING; 4]);
        Front {
            word: w,
            words: mixed_round(&[nothing, x, y, z]),
        }
    }

    /// One of them under the key.
    #[inline(always)]
    pub(crate) fn encrypt(&self, schedule: &Schedule, block: &[u32; 4]) -> [u32; 4]
        requires { IsFrontOf self.now.word self.now.words schedule.now (take 15 (state block.now)) }
        ensures { state result ≡ aes schedule.now (state block.now) }
    {
        let word = self.word ^ from_row_3(row_3(block[3] ^ schedule.keys[0][3]));
        let [a, b, c, d] = self.words;
        let state = [
            a ^ from_row_0(row_0(word)),
            b ^ from_row_3(row_3(word)),
            c ^ from_row_2(row_2(word)),
            d ^ from_row_1(row_1(word)),
        ];
        encrypt_from(schedule, 2, &state)
    }
}

// The round key after `k`, with the power of x that its number has.
fn next_key(k: &[u32; 4], power: u8) -> [u32; 4]
    ensures { (n : ℕ) → power ≡ power_of_x n → state result ≡ next_key n (state k.now) }
{
    let a = k[0] ^ turned(k[3], power);
    let b = k[1] ^ a;
    let c = k[2] ^ b;
    let d = k[3] ^ c;
    [a, b, c, d]
}

// The word turned and substituted, with the round constant.
fn turned(word: u32, power: u8) -> u32
    ensures { column result ≡ add_words (sub_word (rot_word (column word))) (power ∷ 0 ∷ 0 ∷ 0 ∷ []) }
{
    u32::from_be_bytes([
        sub_byte(row_1(word)) ^ power,
        sub_byte(row_2(word)),
        sub_byte(row_3(word)),
        sub_byte(row_0(word)),
    ])
}

fn row_0(word: u32) -> u8
    ensures { result ≡ row word 0 }
{
    (word >> 24) as u8
}

fn row_1(word: u32) -> u8
    ensures { result ≡ row word 1 }
{
    (word >> 16 & 255) as u8
}

fn row_2(word: u32) -> u8
    ensures { result ≡ row word 2 }
{
    (word >> 8 & 255) as u8
}

fn row_3(word: u32) -> u8
    ensures { result ≡ row word 3 }
{
    (word & 255) as u8
}

pub(crate) fn add_key(k: &[u32; 4], s: &[u32; 4]) -> [u32; 4]
    ensures { state result ≡ add_round_key (state k.now) (state s.now) }
{
    [s[0] ^ k[0], s[1] ^ k[1], s[2] ^ k[2], s[3] ^ k[3]]
}

// SubBytes, ShiftRows and MixColumns.
fn mixed_round(s: &[u32; 4]) -> [u32; 4]
    ensures { state result ≡ mix_columns (shift_rows (sub_bytes (state s.now))) }
{
    let [a, b, c, d] = *s;
    [
        mixed(a, b, c, d),
        mixed(b, c, d, a),
        mixed(c, d, a, b),
        mixed(d, a, b, c),
    ]
}

// The column whose rows come from these words.
fn mixed(a: u32, b: u32, c: u32, d: u32) -> u32
    ensures { column result ≡ mix_column (sub_byte (row a 0)) (sub_byte (row b 1))
        (sub_byte (row c 2)) (sub_byte (row d 3)) }
{
    from_row_0(row_0(a)) ^ from_row_1(row_1(b)) ^ from_row_2(row_2(c)) ^ from_row_3(row_3(d))
}

// SubBytes and ShiftRows.
fn last_round(s: &[u32; 4]) -> [u32; 4]
    ensures { state result ≡ shift_rows (sub_bytes (state s.now)) }
{
    let [a, b, c, d] = *s;
    [
        substituted(a, b, c, d),
        substituted(b, c, d, a),
        substituted(c, d, a, b),
        substituted(d, a, b, c),
    ]
}

// The column whose rows come from these words, not mixed.
fn substituted(a: u32, b: u32, c: u32, d: u32) -> u32
    ensures { column result ≡ sub_byte (row a 0) ∷ sub_byte (row b 1) ∷ sub_byte (row c 2)
        ∷ sub_byte (row d 3) ∷ [] }
{
    u32::from_be_bytes([
        sub_byte(row_0(a)),
        sub_byte(row_1(b)),
        sub_byte(row_2(c)),
        sub_byte(row_3(d)),
    ])
}

pub(crate) fn words_of(block: &[u8; 16]) -> [u32; 4]
    ensures { state result ≡ block.now }
{
    let [a, b, c, d, e, f, g, h, i, j, k, l, m, n, o, p] = *block;
    [
        u32::from_be_bytes([a, b, c, d]),
        u32::from_be_bytes([e, f, g, h]),
        u32::from_be_bytes([i, j, k, l]),
        u32::from_be_bytes([m, n, o, p]),
    ]
}

pub(crate) fn octets_of(words: &[u32; 4]) -> [u8; 16]
    ensures { result ≡ state words.now }
{
    let [a, b, c, d] = words[0].to_be_bytes();
    let [e, f, g, h] = words[1].to_be_bytes();
    let [i, j, k, l] = words[2].to_be_bytes();
    let [m, n, o, p] = words[3].to_be_bytes();
    [a, b, c, d, e, f, g, h, i, j, k, l, m, n, o, p]
}
