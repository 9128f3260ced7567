ghost use Rattle.std.specs.Prelude.{◌≡◌, ◌+◌, ◌*◌, ◌/◌, ◌%◌, ◌^◌, ◌<◌, ◌≤◌, take, drop, length};
ghost use Rattle.std.specs.Prelude.{IfOk, IfErr};
ghost use Rattle.l2_bits.specs.Bits.{number, bits_of, left, take_field};
ghost use Rattle.l2_bits.specs.declared.limits.TheConstants.{OCTETS_LIMIT};

use crate::fault::Short;
use std::marker::Model;

/// Reads fields of bits, the most significant bit first.
///
/// Contracts see the octets and how many of their bits have been read.
#[derive(Drop)]
pub struct BitReader<'a> {
    octets: &'a [u8],
    at: usize,
}

impl<'a> Model for BitReader<'a> {
    ghost use Rattle.l2_bits.specs.declared.limits.TheConstants.{OCTETS_LIMIT};
    ghost use Rattle.std.specs.Prelude.{◌*◌, ◌^◌, ◌≤◌, ◌<◌, length};
    ghost use Rattle.l2_bits.specs.Bits.{Reading};

    ghost Value = { Reading };

    ghost view = { λ r. record { octets = r.octets.now; at = r.at } };

    ghost invariant = { λ r. (r.at ≤ 8 * length r.octets.now)
        × (length r.octets.now < OCTETS_LIMIT) };
}

impl<'a> BitReader<'a> {
    /// A reader in front of the first bit of fewer than 2^28 octets.
    pub fn new(from: &'a [u8]) -> BitReader<'a>
        requires { length from.now < OCTETS_LIMIT }
        ensures { result ≡ record { octets = from.now; at = 0 } }
    {
        BitReader {
            octets: from,
            at: 0,
        }
    }

    /// The number that the next `n` bits write, `n` being at most 32.
    ///
    /// `Short` comes exactly where fewer bits are left; nothing is then read.
    pub fn take(&mut self, n: u32) -> Result<u32, Short>
        requires { n ≤ 32 }
        ensures ok { IfOk result (λ value. take_field n (left self.old)
            ≡ Some (value, left self.new)) }
        ensures short { IfErr result
            (λ e. (take_field n (left self.old) ≡ None) × (e.at_bit ≡ self.old.at)
            × (self.new ≡ self.old)) }
        ensures at { IfOk result (λ _. self.new.at ≡ self.old.at + n) }
        ensures octets { self.new.octets ≡ self.old.octets }
    {
        let bits = 8 * self.octets.len() - self.at;
        if bits < n as usize {
            return Err(Short {
                at_bit: self.at as u32,
            });
        }
        let value = field(self.octets, self.at, n);
        self.at += n as usize;
        Ok(value)
    }

    /// The octets that haven't been read, at the boundary of an octet.
    pub fn rest(&self) -> &'a [u8]
        requires { self.now.at % 8 ≡ 0 }
        ensures { result.now ≡ drop (self.now.at / 8) self.now.octets }
    {
        self.octets.split_at(self.at / 8).1
    }
}

/// The number that `n` bits write from bit `at` on, `n` being at most 32.
///
/// It is what a `BitReader` at that place takes, for readers that are `Copy`.
pub fn field(octets: &[u8], at: usize, n: u32) -> u32
    requires few { n ≤ 32 }
    requires within { at + n ≤ 8 * length octets.now }
    requires short { length octets.now < OCTETS_LIMIT }
    ensures number { result ≡ number (take n (drop at (bits_of octets.now))) }
    ensures below { result < 2 ^ n }
{
    let end = at + n as usize;
    let first = at / 8;
    let last = (end + 7) / 8;
    let whole = from_octets(&octets[first..last]);
    let behind = 8 * last - end;
    ((whole >> behind) % (1 << n)) as u32
}

/// The number that up to five octets write.
#[tactic(auto, using(crate::proofs::BitFields::next_octet, crate::proofs::BitFields::few_octets_fit))]
fn from_octets(octets: &[u8]) -> u64
    requires { length octets.now ≤ 5 }
    ensures { result ≡ number (bits_of octets.now) }
{
    let mut whole: u64 = 0;
    for octet in octets {
        whole = 256 * whole + u64::from(*octet);
    }
    whole
}
