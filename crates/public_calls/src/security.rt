//! The block cipher, and ciphering and integrity over it.

ghost use Rattle.std.specs.Prelude.{◌<◌};

use crate::fault::Fault;
use eps_sec::{Cipher, Key, Schedule, eea_apply, eia_tag, encrypt_block};
use std::alloc::Global;

/// What the standards call COUNT, BEARER and DIRECTION.
#[derive(Clone, Copy)]
pub struct Input {
    pub count: u32,
    pub bearer: u32,
    pub direction: u32,
}

fn schedule(key: [u8; 16]) -> Schedule {
    Schedule::new(&Key { octets: key })
}

pub fn aes(alloc: Global, key: [u8; 16], block: [u8; 16]) -> Result<String, Fault> {
    Ok(hex::encode(alloc, encrypt_block(&schedule(key), &block))?)
}

pub fn cmac(alloc: Global, key: [u8; 16], message: &[u8]) -> Result<String, Fault> {
    Ok(hex::encode(alloc, eps_sec::cmac(&schedule(key), message))?)
}

pub fn eea(
    alloc: Global,
    cipher: Cipher,
    key: [u8; 16],
    input: Input,
    text: Vec<u8>,
) -> Result<String, Fault> {
    let Input {
        count,
        bearer,
        direction,
    } = input;
    if bearer >= 32 || direction >= 2 {
        return Err(Fault::Words);
    }
    let mut text = text;
    eea_apply(&schedule(key), cipher, count, bearer, direction, &mut text);
    Ok(hex::encode(alloc, text.as_slice())?)
}

pub fn eia2(alloc: Global, key: [u8; 16], input: Input, message: &[u8]) -> Result<String, Fault> {
    let Input {
        count,
        bearer,
        direction,
    } = input;
    if bearer >= 32 || direction >= 2 {
        return Err(Fault::Words);
    }
    let tag = eia_tag(&schedule(key), count, bearer, direction, message);
    Ok(hex::encode(alloc, tag)?)
}
