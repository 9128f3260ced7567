//! The block cipher, ciphering and integrity.

use eps_sec::{Cipher, Key, Schedule, eea_apply, eia_tag, encrypt_block};

const KEY: Key = Key {
    octets: [
        0x2b, 0x7e, 0x15, 0x16, 0x28, 0xae, 0xd2, 0xa6, 0xab, 0xf7, 0x15, 0x88, 0x09, 0xcf, 0x4f,
        0x3c,
    ],
};

/// So many blocks, each the one before under the key.
pub fn aes(blocks: u32) -> u64 {
    let schedule = Schedule::new(&KEY);
    let mut block = [0; 16];
    for _ in 0..blocks {
        block = encrypt_block(&schedule, &block);
    }
    number_of(&block)
}

/// The text ciphered in place.
pub fn eea2(text: &mut [u8]) -> u64 {
    let schedule = Schedule::new(&KEY);
    eea_apply(&schedule, Cipher::Eea2, 1, 2, 1, text);
    number_of(text)
}

/// The code of the message.
pub fn eia2(message: &[u8]) -> u64 {
    let schedule = Schedule::new(&KEY);
    number_of(&eia_tag(&schedule, 1, 2, 1, message))
}

// The last octets as a number, at most eight of them.
fn number_of(octets: &[u8]) -> u64 {
    let mut number = 0u64;
    for octet in octets.iter().rev().take(8) {
        number = number << 8 | u64::from(*octet);
    }
    number
}
