ghost use Rattle.std.specs.Prelude.{◌≡◌, ◌++◌, ◌∷◌, [], ◌+◌, ◌≤◌, ◌<◌, length, OnOk, OnErr, IfOk};
ghost use Rattle.std.specs.Prelude.{true};
ghost use Rattle.journal_stream.specs.SentOctets.{none_sent, with_pdu, has_next, with_field};
ghost use Rattle.journal_stream.specs.SentOctets.{has_octets, ends_at, next_number, forgotten};
ghost use Rattle.journal_stream.specs.SentOctets.{stand_in};

use crate::unwritten::Unwritten;
use l2_bits::{Bytes, NoMemory};
use std::alloc::Global;
use std::collections::VecDeque;
use std::marker::Model;

/// The octets of an acknowledged flow in one life, at its sender: those of the stream that aren't
/// written yet, and the data fields of the numbers that aren't forgotten. Contracts see
/// `specs/SentOctets.antt`.
#[derive(Drop)]
pub struct SentOctets {
    unwritten: Unwritten,
    base: u64,
    fields: VecDeque<Bytes>,
}

impl Model for SentOctets {
    ghost use Rattle.journal_stream.specs.SentOctets.{SentOctets};

    ghost Value = { SentOctets };

    ghost view = { λ s. record {
      unwritten = s.unwritten;
      base = s.base;
      fields = s.fields.items;
    } };
}

impl SentOctets {
    /// As a life begins. It takes no memory.
    pub fn new(alloc: Global) -> SentOctets
        ensures { result ≡ none_sent }
    {
        SentOctets {
            unwritten: Unwritten::new(alloc),
            base: 0,
            fields: VecDeque::new(alloc),
        }
    }

    /// RLC takes a PDU of PDCP (TS 36.322 5.1.3.1.1). An `Err` changes nothing.
    pub fn take(&mut self, pdu: &[u8]) -> Result<(), NoMemory>
        ensures ok { OnOk result (self.new ≡ with_pdu pdu.now self.old) }
        ensures err { OnErr result (self.new ≡ self.old) }
    {
        self.unwritten.append(pdu)
    }

    /// Whether these octets of the stream come next.
    pub fn comes_next(&self, octets: &[u8]) -> bool
        ensures { result ≡ has_next octets.now self.now }
    {
        self.unwritten.begins_with(octets)
    }

    /// The sender writes the next number, with these octets in its data field: those that come
    /// next. An `Err` changes nothing.
    pub fn write(&mut self, field: Bytes) -> Result<(), NoMemory>
        requires { has_next field self.old ≡ true }
        ensures ok { OnOk result (self.new ≡ with_field field self.old) }
        ensures err { OnErr result (self.new ≡ self.old) }
    {
        let many = field.as_slice().len();
        self.fields.push_back(field)?;
        self.unwritten.pass(many);
        Ok(())
    }

    /// The first number that isn't forgotten.
    pub fn base(&self) -> u64
        ensures { result ≡ self.now.base }
    {
        self.base
    }

    /// The number that is written next; `NoMemory` where it has more than 64 bits.
    pub fn next(&self) -> Result<u64, NoMemory>
        ensures { IfOk result (λ number. number ≡ next_number self.now) }
    {
        let many = self.fields.len() as u64;
        self.base.checked_add(many).ok_or(NoMemory)
    }

    /// Whether these octets stand in the data field of a number, from a place on (TS 36.322 5.2.1).
    /// Of a number that is forgotten none do.
    pub fn stand(&self, number: u64, from: u32, octets: &[u8]) -> bool
        ensures { result ≡ has_octets number from octets.now self.now }
    {
        let Some(at) = number.checked_sub(self.base) else {
            return false;
        };
        match self.fields.get(at as usize) {
            Some(field) => stand_in(field.as_slice(), from as usize, octets),
            None => stand_in(&[], from as usize, octets),
        }
    }

    /// Whether the data field of a number ends at a place, that is, has so many octets. That of a
    /// number that is forgotten ends nowhere; that of one that isn't written is empty.
    pub fn ends_at(&self, number: u64, at: u64) -> bool
        ensures { result ≡ ends_at number at self.now }
    {
        let Some(place) = number.checked_sub(self.base) else {
            return false;
        };
        match self.fields.get(place as usize) {
            Some(field) => field.as_slice().len() as u64 == at,
            None => at == 0,
        }
    }

    /// So many numbers more are forgotten, or all.
    pub fn forget(&mut self, many: u64) -> Result<(), NoMemory>
        ensures { OnOk result (self.new ≡ forgotten many self.old) }
    {
        let mut left = many;
        while left > 0 {
            if self.fields.pop_front().is_none() {
                break;
            }
            self.base = self.base.checked_add(1).ok_or(NoMemory)?;
            left -= 1;
        }
        Ok(())
    }
}

// Whether octets stand in a field, from a place on.
fn stand_in(field: &[u8], from: usize, octets: &[u8]) -> bool
    ensures { result ≡ stand_in field.now from octets.now }
{
    if from > field.len() {
        return false;
    }
    let left = &field[from..];
    if left.len() < octets.len() {
        return false;
    }
    &left[..octets.len()] == octets
}
