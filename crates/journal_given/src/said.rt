// What a status report says.
ghost use Rattle.std.specs.Prelude.{◌≡◌, ◌<◌, ◌≤◌, ◌*◌, ◌+◌, ◌/◌, ◌%◌, ◌-◌, ◌^◌, ◌==◌, IfOk};
ghost use Rattle.std.specs.Prelude.{length, drop, option_copied};
ghost use Rattle.pdcp_pdu.specs.Grammar.{bit_of};
ghost use Rattle.journal_lives.specs.CountsCome.{none_come};
ghost use Rattle.journal_given.specs.Supplies.{come_by, says, is_short, is_same_list, is_at};
ghost use Rattle.journal_given.specs.Supplies.{marked_from};

use journal_lives::FlowLives;
use l2_bits::NoMemory;
use std::alloc::Global;
use std::marker::Model;

// A bit of a report's bitmap; 0 past its end.
fn bit(bitmap: &[u8], at: usize) -> bool
    ensures { result ≡ bit_of bitmap.now at }
{
    if at / 8 >= bitmap.len() {
        return false;
    }
    has_bit(bitmap[at / 8], at % 8)
}

fn has_bit(octet: u8, at: usize) -> bool
    requires { at < 8 }
    ensures { result ≡ (octet / 2 ^ (7 - at) % 2 == 1) }
{
    match at {
        0 => octet / 128 % 2 == 1,
        1 => octet / 64 % 2 == 1,
        2 => octet / 32 % 2 == 1,
        3 => octet / 16 % 2 == 1,
        4 => octet / 8 % 2 == 1,
        5 => octet / 4 % 2 == 1,
        6 => octet / 2 % 2 == 1,
        _ => octet % 2 == 1,
    }
}

fn is_short(bitmap: &[u8]) -> bool
    ensures { result ≡ is_short bitmap.now }
{
    bitmap.is_empty() || bitmap[bitmap.len() - 1] != 0
}

// Whether a COUNT stands at a place.
fn is_at(counts: &[u64], at: usize, count: u64) -> bool
    ensures { result ≡ is_at count (drop at counts.now) }
{
    match counts.get(at) {
        Some(own) => *own == count,
        None => false,
    }
}

// Whether a bitmap marks these COUNTs, where its first bit is that of one.
#[tactic(auto, using(crate::proofs::Marks::walks))]
fn are_marked(counts: &[u64], first: u64, bitmap: &[u8]) -> Result<bool, NoMemory>
    ensures { IfOk result (λ are. are ≡ is_same_list
        (marked_from bitmap.now first 0 (8 * length bitmap.now)) counts.now) }
{
    let many = bitmap.len().checked_mul(8).ok_or(NoMemory)?;
    let mut at = 0;
    let mut k = 0;
    while k < many {
        if bit(bitmap, k) {
            let count = first.checked_add(k as u64).ok_or(NoMemory)?;
            if !is_at(counts, at, count) {
                return Ok(false);
            }
            at += 1;
        }
        k += 1;
    }
    Ok(at == counts.len())
}

#[tactic(auto, using(std::proofs::lemmas::List::append_assoc))]
fn counts_beyond(alloc: Global, flow: &FlowLives) -> Result<Vec<u64>, NoMemory>
    ensures { IfOk result (λ counts. counts.items ≡ flow.now.come.beyond) }
{
    let mut counts = Vec::new(alloc);
    for count in flow.beyond() {
        counts.push(u64::from(*count))?;
    }
    Ok(counts)
}

// The COUNTs that had come: all below one, and some beyond it.
#[derive(Drop)]
pub(crate) struct Said {
    next: u64,
    beyond: Vec<u64>,
}

impl Model for Said {
    ghost use Rattle.journal_lives.specs.CountsCome.{CountsCome};

    ghost Value = { CountsCome };

    ghost view = { λ s. record { next = s.next; beyond = s.beyond.items } };
}

impl Said {
    // It takes no memory.
    pub(crate) fn none(alloc: Global, first: u32) -> Said
        ensures { result ≡ none_come first }
    {
        Said {
            next: u64::from(first),
            beyond: Vec::new(alloc),
        }
    }

    // Those of a flow.
    pub(crate) fn of(alloc: Global, flow: Option<&FlowLives>) -> Result<Said, NoMemory>
        ensures { IfOk result (λ said. said ≡ come_by (option_copied flow.entry)) }
    {
        match flow {
            Some(flow) => Ok(Said {
                next: flow.next_count(),
                beyond: counts_beyond(alloc, flow)?,
            }),
            None => Ok(Said::none(alloc, 0)),
        }
    }

    pub(crate) fn next(&self) -> u64
        ensures { result ≡ self.now.next }
    {
        self.next
    }

    pub(crate) fn beyond(&self) -> &[u64]
        ensures { result.now ≡ self.now.beyond }
    {
        self.beyond.as_slice()
    }

    // Whether a report says so, whose FMS has so many bits.
    pub(crate) fn is(&self, fms: u32, bitmap: &[u8], bits: u32) -> Result<bool, NoMemory>
        requires { bits ≤ 32 }
        ensures { IfOk result (λ is. is ≡ says fms bitmap.now bits self.now) }
    {
        let modulus: u64 = 1 << bits;
        if u64::from(fms) != self.next % modulus {
            return Ok(false);
        }
        let first = self.next.checked_add(1).ok_or(NoMemory)?;
        if !are_marked(self.beyond.as_slice(), first, bitmap)? {
            return Ok(false);
        }
        Ok(is_short(bitmap))
    }
}
