ghost use Rattle.std.specs.Prelude.{◌≡◌, ◌++◌, ◌+◌, ◌<◌, ◌≤◌, ◌^◌, OnOk, [], ◌∷◌, length, drop};
ghost use Rattle.std.specs.Prelude.{slice_get};
ghost use Rattle.rlc_am_tx_window.specs.Ledger.{empty_ledger, opened, offered, paid_at, is_last_of};
ghost use Rattle.rlc_am_tx_window.specs.Ledger.{credited, credited_all, leading_paid, swept};
ghost use Rattle.rlc_am_tx_window.specs.Ledger.{left_in, paid, size_done, last_size};

use l2_bits::NoMemory;
use std::alloc::Global;
use std::collections::VecDeque;
use std::marker::Model;

// An SDU's octets, and those of them that aren't acknowledged.
#[derive(Clone, Copy)]
struct Entry {
    size: u32,
    owed: u32,
}

impl Model for Entry {
    ghost use Rattle.rlc_am_tx_window.specs.Ledger.{Owed};

    ghost Value = { Owed };

    ghost view = { λ e. record { size = e.size; owed = e.owed } };

    ghost inverse = { λ r. record { size = r.size; owed = r.owed } };
}

/// What of the offered SDUs isn't acknowledged. An SDU goes by its place among those offered,
/// counted from 0.
#[derive(Drop)]
pub struct Accounts {
    oldest: u64,
    entries: VecDeque<Entry>,
    news: VecDeque<u64>,
    left: u64,
}

impl Model for Accounts {
    ghost use Rattle.std.specs.Prelude.{◌≡◌, ◌<◌, ◌≤◌, ◌+◌, ◌^◌, length};
    ghost use Rattle.rlc_am_tx_window.specs.Ledger.{Ledger, left_in};

    ghost Value = { Ledger };

    ghost view = { λ l. record { oldest = l.oldest; entries = l.entries.items; news = l.news.items } };

    ghost invariant = { λ l. (l.oldest + length l.entries.items ≤ 2 ^ 62) × (left_in l.entries.items ≡ l.left)
        × (l.left ≤ 2 ^ 63) };
}

impl Accounts {
    /// No SDU has been offered.
    pub fn new(alloc: Global) -> Accounts
        ensures { result ≡ empty_ledger }
    {
        Accounts {
            oldest: 0,
            entries: VecDeque::new(alloc),
            news: VecDeque::new(alloc),
            left: 0,
        }
    }

    /// How many SDUs were offered.
    pub fn offered(&self) -> u64
        ensures value { result ≡ offered self.now }
        ensures below { result ≤ 2 ^ 62 }
    {
        self.oldest + self.entries.len() as u64
    }

    /// An SDU of so many octets is offered.
    #[tactic(auto, using(crate::proofs::LedgerSteps::opens))]
    pub fn open(&mut self, size: u32) -> Result<(), NoMemory>
        ensures { OnOk result (self.new ≡ opened self.old size) }
    {
        if self.offered() >= 1 << 62 || self.left >= 1 << 62 {
            return Err(NoMemory);
        }
        self.entries.push_back(Entry { size, owed: size })?;
        self.left += u64::from(size);
        Ok(())
    }

    /// Takes the next place that is newly confirmed.
    pub fn confirmed(&mut self) -> Option<u64>
        ensures value { result ≡ slice_get self.old.news 0 }
        ensures state { self.new ≡ record self.old { news = drop 1 self.old.news } }
    {
        self.news.pop_front()
    }

    // So many octets of the SDU of a place are acknowledged.
    #[tactic(auto, using(crate::proofs::LedgerSteps::credits))]
    fn credit(&mut self, place: u64, len: u32) -> Result<(), NoMemory>
        ensures { OnOk result (self.new ≡ credited self.old place len) }
    {
        if place < self.oldest {
            return Ok(());
        }
        let at = (place - self.oldest) as usize;
        if is_last(&self.entries, at, len) {
            self.news.push_back(place)?;
        }
        self.left -= pay(&mut self.entries, at, len);
        Ok(())
    }

    /// The elements of a PDU are acknowledged, the first one being of the SDU of a place.
    pub fn credit_all(&mut self, place: u64, lens: &[u32]) -> Result<(), NoMemory>
        requires { place + length lens.now < 2 ^ 64 }
        ensures { OnOk result (self.new ≡ credited_all self.old place lens.now) }
    {
        for (i, len) in lens.iter().enumerate() {
            self.credit(place + i as u64, *len)?;
        }
        Ok(())
    }

    /// The octets of the SDUs that aren't wholly acknowledged.
    pub fn left(&self) -> u64
        ensures { result ≡ left_in self.now.entries }
    {
        self.left
    }

    /// Drops the SDUs that are wholly acknowledged, as far as they stand first.
    #[tactic(auto, using(crate::proofs::LedgerSteps::sweeps))]
    pub fn sweep(&mut self)
        ensures { self.new ≡ swept self.old }
    {
        sweep(&mut self.entries, &mut self.oldest);
    }
}

fn is_last(entries: &VecDeque<Entry>, at: usize, len: u32) -> bool
    ensures { result ≡ is_last_of (slice_get entries.now.items at) len }
{
    match entries.get(at) {
        Some(entry) => {
            let entry = *entry;
            entry.owed > 0 && entry.owed <= len
        }
        None => false,
    }
}

// Answers the octets of an SDU that is now wholly acknowledged.
fn pay(entries: &mut VecDeque<Entry>, at: usize, len: u32) -> u64
    ensures entries { entries.new.items
        ≡ paid_at (slice_get entries.old.items at) entries.old.items at len }
    ensures done { result ≡ last_size (slice_get entries.old.items at) len }
{
    match entries.get_mut(at) {
        Some(entry) => pay_one(entry, len),
        None => 0,
    }
}

fn pay_one(entry: &mut Entry, len: u32) -> u64
    ensures entry { entry.new ≡ paid entry.old len }
    ensures done { result ≡ size_done entry.old len }
{
    let last = entry.owed > 0 && entry.owed <= len;
    entry.owed = entry.owed.saturating_sub(len);
    if last { u64::from(entry.size) } else { 0 }
}

fn sweep(entries: &mut VecDeque<Entry>, oldest: &mut u64)
    requires { oldest.old + length entries.old.items < 2 ^ 64 }
    ensures sum { oldest.new + length entries.new.items ≡ oldest.old + length entries.old.items }
    ensures oldest { oldest.new ≡ oldest.old + leading_paid entries.old.items }
    ensures entries { entries.new.items ≡ drop (leading_paid entries.old.items) entries.old.items }
{
    while let Some(entry) = entries.front() {
        if entry.owed != 0 {
            break;
        }
        let _paid = entries.pop_front();
        *oldest += 1;
    }
}
