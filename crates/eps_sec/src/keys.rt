//! Keys and the choice of a cipher.

/// A key of 128 bits.
#[derive(Clone, Copy, Debug, PartialEq, Eq)]
pub struct Key {
    /// The octets, the first one first.
    pub octets: [u8; 16],
}

/// The ciphering of user data (TS 33.401, section 5.1.3).
#[derive(Clone, Copy, Debug, PartialEq, Eq)]
pub enum Cipher {
    /// No ciphering.
    Eea0,
    /// AES-128 in counter mode.
    Eea2,
}

/// The keys of a terminal while it is attached to one cell, and its cipher.
#[derive(Clone, Copy, Debug, PartialEq, Eq)]
pub struct Keys {
    /// The cipher of user data and of signalling.
    pub alg: Cipher,
    /// The key that ciphers user data.
    pub user: Key,
    /// The key that ciphers signalling.
    pub rrc: Key,
    /// The key of the integrity of signalling.
    pub integrity: Key,
}
