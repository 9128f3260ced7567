ghost use Rattle.std.specs.Prelude.{◌≡◌, [], ◌∷◌, ◌++◌, IfOk, OnOk, OnErr, replicate};

use crate::fault::NoMemory;
use std::alloc::Global;
use std::marker::Model;

/// A list of octets, which contracts see as such.
#[derive(Debug, Drop)]
pub struct Bytes {
    octets: Vec<u8>,
}

impl Model for Bytes {
    ghost use Rattle.std.specs.Prelude.{ℕ, List};

    ghost Value = { List ℕ };

    ghost view = { λ b. b.octets.items };
}

impl Bytes {
    /// The empty list. It takes no memory.
    pub fn new(alloc: Global) -> Bytes
        ensures { result ≡ [] }
    {
        Bytes {
            octets: Vec::new(alloc),
        }
    }

    /// The empty list with room for so many octets, which are then added without taking memory
    /// again.
    pub fn with_capacity(alloc: Global, capacity: usize) -> Result<Bytes, NoMemory>
        ensures { IfOk result (λ bytes. bytes ≡ []) }
    {
        Ok(Bytes {
            octets: Vec::with_capacity(alloc, capacity)?,
        })
    }

    /// A copy of the octets.
    pub fn from_slice(alloc: Global, from: &[u8]) -> Result<Bytes, NoMemory>
        ensures { IfOk result (λ bytes. bytes ≡ from.now) }
    {
        Ok(Bytes {
            octets: Vec::from_slice(alloc, from)?,
        })
    }

    /// The octets of a vector, which aren't copied.
    pub fn from_vec(octets: Vec<u8>) -> Bytes
        ensures { result ≡ octets.items }
    {
        Bytes { octets }
    }

    /// The octets as a vector, without copying them, to be changed where they lie.
    pub fn into_vec(self) -> Vec<u8>
        ensures { result.items ≡ self }
    {
        self.octets
    }

    /// Adds a copy of the octets at the end. An `Err` changes nothing.
    #[inline(always)]
    pub fn append(&mut self, from: &[u8]) -> Result<(), NoMemory>
        ensures ok { OnOk result (self.new ≡ self.old ++ from.now) }
        ensures err { OnErr result (self.new ≡ self.old) }
    {
        self.octets.extend_from_slice(from)?;
        Ok(())
    }

    /// Adds an octet at the end. An `Err` changes nothing.
    #[inline(always)]
    pub fn push(&mut self, octet: u8) -> Result<(), NoMemory>
        ensures ok { OnOk result (self.new ≡ self.old ++ octet ∷ []) }
        ensures err { OnErr result (self.new ≡ self.old) }
    {
        self.octets.push(octet)?;
        Ok(())
    }

    /// Adds an octet `n` times at the end. An `Err` changes nothing.
    pub fn append_times(&mut self, octet: u8, n: u32) -> Result<(), NoMemory>
        ensures ok { OnOk result (self.new ≡ self.old ++ replicate n octet) }
        ensures err { OnErr result (self.new ≡ self.old) }
    {
        let len = self.octets.len();
        self.octets.resize(len + n as usize, octet)?;
        Ok(())
    }

    /// Takes out all octets, and keeps the memory for later ones.
    pub fn clear(&mut self)
        ensures { self.new ≡ [] }
    {
        self.octets.clear();
    }

    /// The octets.
    pub fn as_slice(&self) -> &[u8]
        ensures { result.now ≡ self.now }
    {
        &self.octets
    }
}
