//! AES-128, and the ciphering 128-EEA2 and the integrity 128-EIA2 of LTE over it.
//!
//! Contracts speak of the standards' own definitions, which stand in `specs/`: the block cipher of
//! FIPS 197 over lists of octets (`Field`, `Aes`), and the modes of TS 33.401, Annex B, and RFC
//! 4493 (`Modes`). The code computes with words and tables. No call takes memory.
#![tactic(auto)]

mod cipher;
mod ciphering;
mod field;
mod integrity;
mod keys;
mod tables;

pub use cipher::{Schedule, encrypt_block};
pub use ciphering::eea_apply;
pub use integrity::{cmac, eia_tag};
pub use keys::{Cipher, Key, Keys};
