//! SDUs.

ghost use Rattle.std.specs.Prelude.{◌≡◌, ◌≢◌, ◌≤◌, [], length, IfOk};

use l2_bits::{Bytes, NoMemory};
use l2_types::GREATEST_SDU;
use std::alloc::Global;
use std::marker::Model;

/// The octets of an SDU, of which there are 1 to 8188 (TS 36.323 4.3.1).
#[derive(Drop)]
pub struct Sdu {
    octets: Bytes,
}

impl Model for Sdu {
    ghost use Rattle.l2_types.specs.declared.limits.TheConstants.{GREATEST_SDU};
    ghost use Rattle.std.specs.Prelude.{◌≤◌, List, ℕ, length};

    ghost Value = { List ℕ };

    ghost view = { λ s. s.octets };

    ghost invariant = { λ s. (1 ≤ length s.octets) × (length s.octets ≤ GREATEST_SDU) };
}

impl Sdu {
    /// A copy of the octets.
    pub fn copy(alloc: Global, octets: &[u8]) -> Result<Sdu, NoMemory>
        requires some { 1 ≤ length octets.now }
        requires few { length octets.now ≤ GREATEST_SDU }
        ensures { IfOk result (λ sdu. sdu ≡ octets.now) }
    {
        Ok(Sdu {
            octets: Bytes::from_slice(alloc, octets)?,
        })
    }

    /// The number of octets.
    pub fn len(&self) -> u32
        ensures value { result ≡ length self.now }
        ensures some { 1 ≤ result }
        ensures few { result ≤ GREATEST_SDU }
    {
        self.octets.as_slice().len() as u32
    }

    /// The octets.
    pub fn as_slice(&self) -> &[u8]
        ensures value { result.now ≡ self.now }
        ensures some { 1 ≤ length result.now }
        ensures few { length result.now ≤ GREATEST_SDU }
    {
        self.octets.as_slice()
    }
}
