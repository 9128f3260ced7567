ghost use Rattle.std.specs.Prelude.{◌≡◌, ◌+◌, ◌%◌, ◌^◌, ◌<◌, ◌≤◌, [], ◌++◌, length, OnOk, OnErr};
ghost use Rattle.std.specs.Prelude.{vec_len, vec_capacity};
ghost use Rattle.l2_bits.specs.Bits.{bits, bits_of, filling};

use crate::bytes::Bytes;
use crate::fault::NoMemory;
use std::alloc::Global;
use std::marker::Model;

/// Writes fields of bits, the most significant bit first. Contracts see the bits written.
#[derive(Drop)]
pub struct BitWriter {
    octets: Vec<u8>,
    /// The bits behind the last whole octet.
    pending: u64,
    /// How many bits are pending, below 8.
    count: u32,
}

impl Model for BitWriter {
    ghost use Rattle.std.specs.Prelude.{Bool, List, ◌<◌, ◌^◌, ◌++◌};
    ghost use Rattle.l2_bits.specs.Bits.{bits, bits_of};

    ghost Value = { List Bool };

    ghost view = { λ w. bits_of w.octets.items ++ bits w.count w.pending };

    ghost invariant = { λ w. (w.count < 8) × (w.pending < 2 ^ w.count) };
}

impl BitWriter {
    /// A writer of no bits. It takes no memory.
    #[tactic(auto, unfolding(crate::specs::Bits::bits))]
    pub fn new(alloc: Global) -> BitWriter
        ensures { result ≡ [] }
    {
        BitWriter {
            octets: Vec::new(alloc),
            pending: 0,
            count: 0,
        }
    }

    /// Adds a number as `n` bits, `n` being at most 32. An `Err` changes nothing.
    pub fn put(&mut self, value: u32, n: u32) -> Result<(), NoMemory>
        requires few { n ≤ 32 }
        requires fits { value < 2 ^ n }
        ensures ok { OnOk result (self.new ≡ self.old ++ bits n value) }
        ensures len { OnOk result (length self.new ≡ length self.old + n) }
        ensures err { OnErr result (self.new ≡ self.old) }
    {
        self.octets.reserve(4)?;
        let pending = (self.pending << n) + u64::from(value);
        let (pending, count) = settle(&mut self.octets, pending, self.count + n);
        self.pending = pending;
        self.count = count;
        Ok(())
    }

    /// Adds zero bits to the end of an octet. An `Err` changes nothing.
    pub fn fill(&mut self) -> Result<(), NoMemory>
        ensures ok { OnOk result (self.new ≡ self.old ++ bits (filling (length self.old)) 0) }
        ensures boundary { OnOk result (length self.new % 8 ≡ 0) }
        ensures err { OnErr result (self.new ≡ self.old) }
    {
        let n = (8 - self.count) % 8;
        self.put(0, n)
    }

    /// The octets that the bits fill, at the boundary of an octet.
    pub fn finish(self) -> Bytes
        requires { length self % 8 ≡ 0 }
        ensures { bits_of result ≡ self }
    {
        let BitWriter {
            octets,
            pending: _,
            count: _,
        } = self;
        Bytes::from_vec(octets)
    }
}

/// Moves the whole octets of the pending bits to the octets, and answers the bits left and their
/// number.
#[tactic(auto, using(crate::proofs::BitFields::next_out, crate::proofs::BitFields::below_split))]
fn settle(octets: &mut Vec<u8>, pending: u64, count: u32) -> (u64, u32)
    requires few { count < 40 }
    requires fits { pending < 2 ^ count }
    requires room { vec_len octets.old + 4 ≤ vec_capacity octets.old }
    ensures same { bits_of octets.new.items ++ bits result.1 result.0
        ≡ bits_of octets.old.items ++ bits count pending }
    ensures part { result.1 < 8 }
    ensures below { result.0 < 2 ^ result.1 }
{
    let mut pending = pending;
    let mut count = count;
    while count >= 8 {
        count -= 8;
        octets.push_reserved((pending >> count) as u8);
        pending %= 1 << count;
    }
    (pending, count)
}
