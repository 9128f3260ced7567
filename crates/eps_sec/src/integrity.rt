//! AES-CMAC (RFC 4493), and 128-EIA2 over it (TS 33.401, B.2.3).

ghost use Rattle.std.specs.Prelude.{ℕ, ◌≡◌, ◌+◌, ◌*◌, ◌^◌, ◌<◌, ◌≤◌, ◌++◌, length, slice_index};
ghost use Rattle.eps_sec.specs.Modes.{add_blocks, double, double_block, block_of, last_block};
ghost use Rattle.eps_sec.specs.Modes.{last_number, cmac, eia2};

use crate::cipher::{Schedule, encrypt_block};
use crate::ciphering::prefix;

/// The code that authenticates `message`.
pub fn cmac(schedule: &Schedule, message: &[u8]) -> [u8; 16]
    ensures { result ≡ cmac schedule.now message.now }
{
    cmac_of(schedule, &[], message)
}

/// The code MAC-I of `message`.
///
/// `count` is the COUNT of the PDU, `bearer` its radio bearer's identity less 1, and `direction` is
/// 0 on the uplink and 1 on the downlink.
pub fn eia_tag(
    schedule: &Schedule,
    count: u32,
    bearer: u32,
    direction: u32,
    message: &[u8],
) -> [u8; 4]
    requires bearer { bearer < 32 }
    requires direction { direction < 2 }
    ensures { result ≡ eia2 schedule.now count bearer direction message.now }
{
    let [a, b, c, d, ..] = cmac_of(schedule, &prefix(count, bearer, direction), message);
    [a, b, c, d]
}

// The code of the two pieces, one behind the other.
fn cmac_of(schedule: &Schedule, head: &[u8], body: &[u8]) -> [u8; 16]
    requires { length head.now ≤ 8 }
    ensures { result ≡ cmac schedule.now (head.now ++ body.now) }
{
    let last = (head.len() + body.len()).saturating_sub(1) / 16;
    let mut sum = [0; 16];
    for i in 0..last {
        sum = encrypt_block(schedule, &add_blocks(&block_of(head, body, &[], i), &sum));
    }
    let end = last_block(schedule, head, body, last);
    encrypt_block(schedule, &add_blocks(&end, &sum))
}

fn last_block(schedule: &Schedule, head: &[u8], body: &[u8], last: usize) -> [u8; 16]
    requires number { last ≡ last_number (head.now ++ body.now) }
    requires head { length head.now ≤ 8 }
    ensures { result ≡ last_block schedule.now (head.now ++ body.now) }
{
    let subkey_1 = double_block(&encrypt_block(schedule, &[0; 16]));
    if head.len() + body.len() == 16 * (last + 1) {
        add_blocks(&subkey_1, &block_of(head, body, &[], last))
    } else {
        let subkey_2 = double_block(&subkey_1);
        add_blocks(&subkey_2, &block_of(head, body, &[0x80], last))
    }
}

fn double_block(block: &[u8; 16]) -> [u8; 16]
    ensures { result ≡ double_block block.now }
{
    double(u128::from_be_bytes(*block)).to_be_bytes()
}

const HALF: u128 = 1 << 127;

fn double(n: u128) -> u128
    ensures { result ≡ double n }
{
    if n < HALF {
        2 * n
    } else {
        (2 * (n - HALF)) ^ 0x87
    }
}

// Block `i` of the three pieces together, with zeros past their end.
fn block_of(head: &[u8], body: &[u8], tail: &[u8], i: usize) -> [u8; 16]
    requires small { 16 * i + 16 < 2 ^ 64 }
    requires head { length head.now ≤ 8 }
    ensures { result ≡ block_of (head.now ++ body.now ++ tail.now) i }
{
    let start = 16 * i;
    if head.len() <= start && start + 16 <= head.len() + body.len() {
        octets_at(body, start - head.len())
    } else {
        octets_across(head, body, tail, start)
    }
}

// The 16 octets of `body` from `start` on.
fn octets_at(body: &[u8], start: usize) -> [u8; 16]
    requires { start + 16 ≤ length body.now }
    ensures len { length result ≡ 16 }
    ensures places { (j : ℕ) → j < 16 → slice_index result j ≡ slice_index body.now (start + j) }
{
    let mut block = [0; 16];
    for j in 0..16 {
        block[j] = body[start + j];
    }
    block
}

// The 16 octets of the three pieces together from `start` on, with zeros past their end.
fn octets_across(head: &[u8], body: &[u8], tail: &[u8], start: usize) -> [u8; 16]
    requires { start + 16 < 2 ^ 64 }
    ensures len { length result ≡ 16 }
    ensures places { (j : ℕ) → j < 16 → slice_index result j
        ≡ slice_index (head.now ++ body.now ++ tail.now) (start + j) }
{
    let mut block = [0; 16];
    for j in 0..16 {
        block[j] = octet(head, body, tail, start + j);
    }
    block
}

// An octet of the three pieces together, or 0 past their end.
fn octet(head: &[u8], body: &[u8], tail: &[u8], k: usize) -> u8
    ensures { result ≡ slice_index (head.now ++ body.now ++ tail.now) k }
{
    if k < head.len() {
        return head[k];
    }
    let k = k - head.len();
    if k < body.len() {
        return body[k];
    }
    let k = k - body.len();
    if k < tail.len() { tail[k] } else { 0 }
}

fn add_blocks(k: &[u8; 16], s: &[u8; 16]) -> [u8; 16]
    ensures { result ≡ add_blocks k.now s.now }
{
    let mut sum = [0; 16];
    for j in 0..16 {
        sum[j] = s[j] ^ k[j];
    }
    sum
}
