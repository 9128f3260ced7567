//! The sender, as long as memory is there.

ghost use Rattle.std.specs.Prelude.{◌≡◌, ◌+◌, ◌-◌, ◌*◌, ◌<◌, ◌≤◌, ◌^◌, [], ◌∷◌, ◌++◌, length, take};
ghost use Rattle.std.specs.Prelude.{drop, slice_get, Some, None, is_some, option_map, OnOk, OnErr};
ghost use Rattle.std.specs.Prelude.{map, min, IfOk, IfErr, IfSome, IsNone, MatchOption, true};
ghost use Rattle.std.specs.Prelude.{false, if◌then◌else◌};
ghost use Rattle.pdcp_pdu.specs.Kinds.{IsKind};
ghost use Rattle.pdcp_sec.specs.Protection.{protection_of};
ghost use Rattle.pdcp_tx.specs.Pdus.{modulus, width};
ghost use Rattle.pdcp_tx_store.specs.Given.{from_unacked, data_of, first_open, first_unacked};
ghost use Rattle.pdcp_tx_store.specs.Given.{with_entry, settled};
ghost use Rattle.pdcp_tx_store.specs.Waiting.{length_all};
ghost use Rattle.pdcp_tx_store.specs.declared.given.Entry.TheVariants.{Data, Own};
ghost use Rattle.pdcp_tx.specs.State.{HasSize, IsShort, start, refusal, IsAnswer, submitted};
ghost use Rattle.pdcp_tx.specs.State.{offers, again_offer, new_offers, sizes, size, taking, took};
ghost use Rattle.pdcp_tx.specs.State.{took_owed, took_again, took_new, given_new, written, sent};
ghost use Rattle.pdcp_tx.specs.State.{confirmed, moved, low, or_else, fms_count, ahead, reported};
ghost use Rattle.pdcp_tx.specs.State.{reported_from, left, after_late, late_length, is_overdue};
ghost use Rattle.pdcp_tx.specs.State.{restarted, begun, next_from, waiting_on, first_again, owing};
ghost use Rattle.pdcp_tx.specs.State.{ticked};

use crate::kind::{extra, modulus, width};
use crate::security::write_pdu;
use eps_sec::Keys;
use l2_bits::{Bytes, NoMemory, SubmitRefusal};
use l2_types::{GREATEST_SDU, MOST_WAITING};
use pdcp_pdu::PdcpKind;
use pdcp_sec::Security;
use pdcp_tx_store::{Again, Entry, Ledger, Queue, Sdu, Sent};
use std::alloc::Global;
use std::marker::Model;

/// A PDU for RLC. A status report has no COUNT.
#[derive(Drop)]
pub struct Next {
    pub count: Option<u32>,
    pub len: u32,
    pub octets: Bytes,
}

#[derive(Drop)]
pub struct Sender {
    alloc: Global,
    kind: PdcpKind,
    security: Security,
    next: u64,
    base: u64,
    bound: u64,
    owed: Option<Bytes>,
    reporting: bool,
    given: Ledger,
    again: Again,
    waiting: Queue,
    clock: u64,
    discard: Option<u32>,
}

impl Model for Sender {
    ghost use Rattle.std.specs.Prelude.{◌+◌, ◌≤◌, ◌^◌, length};
    ghost use Rattle.pdcp_pdu.specs.Kinds.{IsKind};
    ghost use Rattle.pdcp_tx.specs.State.{State};

    ghost Value = { State };

    ghost view = { λ s. record {
      kind = s.kind;
      protection = s.security;
      next = s.next;
      base = s.base;
      bound = s.bound;
      owed = s.owed;
      reporting = s.reporting;
      given = s.given;
      again = s.again;
      waiting = s.waiting;
      clock = s.clock;
      discard = s.discard;
    } };

    ghost invariant = { λ s. (s.next + length s.waiting ≤ 2 ^ 32) × (s.base ≤ 2 ^ 32) × IsKind s.kind };
}

impl Sender {
    #[tactic(auto, unfolding(crate::specs::State::start))]
    pub fn new(alloc: Global, kind: PdcpKind, security: Security, first: u32) -> Sender
        requires { IsKind kind }
        ensures { result ≡ start kind security first }
    {
        Sender {
            alloc,
            kind,
            security,
            next: u64::from(first),
            base: u64::from(first),
            bound: u64::from(first) + width(kind),
            owed: None,
            reporting: false,
            given: Ledger::new(alloc),
            again: Again::new(alloc),
            waiting: Queue::new(alloc),
            clock: 0,
            discard: None,
        }
    }

    #[tactic(auto, unfolding(crate::specs::State::refusal))]
    fn refusal(&self, sdu: &[u8]) -> Option<SubmitRefusal>
        ensures value { result ≡ refusal self.now sdu.now }
        ensures answer { IfSome result (λ e. IsAnswer e (refusal self.now sdu.now)) }
        ensures room { IsNone result → self.now.next + length self.now.waiting < 2 ^ 32 }
        ensures some { IsNone result → 1 ≤ length sdu.now }
        ensures few { IsNone result → length sdu.now ≤ GREATEST_SDU }
    {
        if sdu.is_empty() {
            Some(SubmitRefusal::Empty)
        } else if sdu.len() > GREATEST_SDU {
            Some(SubmitRefusal::TooLong)
        } else if self.waiting.len() >= MOST_WAITING {
            Some(SubmitRefusal::Full)
        } else if self.next + self.waiting.len() as u64 == 1 << 32 {
            Some(SubmitRefusal::CountEnd)
        } else {
            None
        }
    }

    /// Takes over an SDU. Nothing changes where it isn't taken over.
    #[tactic(auto, unfolding(crate::specs::State::submitted))]
    pub fn submit(&mut self, sdu: &[u8]) -> Result<(), SubmitRefusal>
        ensures fits { OnOk result (refusal self.old sdu.now ≡ None) }
        ensures ok { OnOk result (self.new ≡ submitted self.old sdu.now) }
        ensures answer { IfErr result (λ e. IsAnswer e (refusal self.old sdu.now)) }
        ensures err { OnErr result (self.new ≡ self.old) }
    {
        if let Some(refusal) = self.refusal(sdu) {
            return Err(refusal);
        }
        let Ok(octets) = Sdu::copy(self.alloc, sdu) else {
            return Err(SubmitRefusal::NoMemory);
        };
        match self.waiting.push(octets, self.clock) {
            Ok(()) => Ok(()),
            Err(_) => Err(SubmitRefusal::NoMemory),
        }
    }

    /// Returns how many of the SDUs that wait have COUNTs below the bound.
    fn room(&self) -> usize
        ensures within { result ≤ length self.now.waiting }
        ensures value { take result self.now.waiting
            ≡ take (self.now.bound - self.now.next) self.now.waiting }
    {
        let room = self.bound.saturating_sub(self.next);
        let len = self.waiting.len();
        if room < len as u64 {
            room as usize
        } else {
            len
        }
    }

    /// Returns whether something may be taken.
    #[tactic(auto, unfolding(crate::specs::State::offers))]
    pub fn may_take(&self) -> bool
        ensures { result ≡ is_some (slice_get (offers self.now) 0) }
    {
        self.owed.is_some() || self.again.len() > 0 || self.room() > 0
    }

    /// Returns the octets of the PDUs that may be handed over.
    #[tactic(auto, unfolding(crate::specs::State::offers), using(crate::proofs::Offers::octets_are))]
    pub fn octets(&self) -> u64
        ensures value { result ≡ sizes self.now.kind (offers self.now) }
        ensures below { result < 2 ^ 63 + 2 ^ 62 + 2 ^ 37 }
    {
        let room = self.room();
        let extra = extra(self.kind);
        self.owed_octets()
            + (self.again.octets() + times(self.again.len(), extra))
            + (self.waiting.octets(room) + times(room as u64, extra))
    }

    /// Returns the octets of the PDUs that may be handed over, and two for each.
    #[tactic(auto, unfolding(crate::specs::State::offers), using(crate::proofs::Offers::needs_are))]
    pub fn waiting(&self) -> u64
        ensures { result ≡ sizes self.now.kind (offers self.now) + 2 * length (offers self.now) }
    {
        self.octets() + 2 * (self.owed_count() + self.again.len() + self.room() as u64)
    }

    /// Returns the octets of the SDUs that wait or aren't confirmed.
    #[tactic(auto, unfolding(crate::specs::State::left))]
    pub fn left(&self) -> u64
        ensures { result ≡ left self.now }
    {
        self.given.octets() + self.again.octets() + self.waiting.octets(self.waiting.len())
    }

    fn owed_count(&self) -> u64
        ensures { result ≡ (if is_some self.now.owed then 1 else 0) }
    {
        if self.owed.is_some() { 1 } else { 0 }
    }

    fn owed_octets(&self) -> u64
        ensures value { result ≡ or_else (option_map length self.now.owed) 0 }
        ensures below { result < 2 ^ 63 }
    {
        match &self.owed {
            Some(report) => report.as_slice().len() as u64,
            None => 0,
        }
    }

    /// Takes the first of what may be taken.
    #[tactic(auto, unfolding(crate::specs::State::took, crate::specs::State::taking, crate::specs::State::offers))]
    pub fn next_pdu(&mut self) -> Result<Option<Next>, NoMemory>
        ensures answer { IfOk result (λ next. next ≡ taking self.old) }
        ensures size { IfSome self.old.owed IsShort → IfOk result (λ next. IfSome next HasSize) }
        ensures state { OnOk result (self.new ≡ took self.old) }
    {
        match self.owed.take() {
            Some(report) => self.take_report(report),
            None => self.take_sdu(),
        }
    }

    fn take_report(&mut self, report: Bytes) -> Result<Option<Next>, NoMemory>
        requires { self.old.owed ≡ None }
        ensures answer { IfOk result (λ next. next
            ≡ Some (written self.old.kind self.old.protection None report)) }
        ensures size { IsShort report → IfOk result (λ next. IfSome next HasSize) }
        ensures state { OnOk result
            (self.new ≡ record self.old { given = with_entry self.old.given Own }) }
    {
        self.given.push(Entry::Own)?;
        Ok(Some(Next {
            count: None,
            len: 0,
            octets: report,
        }))
    }

    fn take_sdu(&mut self) -> Result<Option<Next>, NoMemory>
        requires { self.old.owed ≡ None }
        ensures answer { IfOk result (λ next. next
            ≡ option_map (λ o. written self.old.kind self.old.protection o.count o.text)
            (slice_get (map again_offer self.old.again
            ++ new_offers self.old.next (take (self.old.bound - self.old.next) self.old.waiting))
            0)) }
        ensures size { IfOk result (λ next. IfSome next HasSize) }
        ensures state { OnOk result (self.new ≡ took_again self.old.again self.old) }
    {
        match self.again.pop() {
            Some(sent) => self.take_again(sent),
            None => self.take_new(),
        }
    }

    fn take_again(&mut self, sent: Sent) -> Result<Option<Next>, NoMemory>
        ensures answer { IfOk result (λ next. next
            ≡ Some (written self.old.kind self.old.protection (Some sent.count) sent.octets)) }
        ensures size { IfOk result (λ next. IfSome next HasSize) }
        ensures state { OnOk result
            (self.new ≡ record self.old { given = settled (with_entry self.old.given (Data sent)) }) }
    {
        let next = self.write(sent.count, &sent.octets)?;
        self.given.push(Entry::Data(sent))?;
        self.given.settle();
        Ok(Some(next))
    }

    #[tactic(auto, using(crate::proofs::Offers::firsts))]
    fn take_new(&mut self) -> Result<Option<Next>, NoMemory>
        ensures answer { IfOk result (λ next. next
            ≡ option_map (λ o. written self.old.kind self.old.protection o.count o.text)
            (slice_get
            (new_offers self.old.next (take (self.old.bound - self.old.next) self.old.waiting)) 0)) }
        ensures size { IfOk result (λ next. IfSome next HasSize) }
        ensures state { OnOk result
            (self.new ≡ took_new (take (self.old.bound - self.old.next) self.old.waiting) self.old) }
    {
        if self.bound <= self.next {
            return Ok(None);
        }
        match self.waiting.pop() {
            Some(one) => self.give_new(one.octets),
            None => Ok(None),
        }
    }

    fn give_new(&mut self, octets: Sdu) -> Result<Option<Next>, NoMemory>
        requires { self.old.next + length self.old.waiting < 2 ^ 32 }
        ensures answer { IfOk result (λ next. next
            ≡ Some (written self.old.kind self.old.protection (Some self.old.next) octets)) }
        ensures size { IfOk result (λ next. IfSome next HasSize) }
        ensures state { OnOk result
            (self.new ≡ record self.old {
              next = self.old.next + 1;
              given = given_new self.old.kind self.old.given self.old.next octets;
            }) }
    {
        let count = self.next as u32;
        let next = self.write(count, &octets)?;
        self.next += 1;
        keep_new(&mut self.given, self.kind, count, octets)?;
        Ok(Some(next))
    }

    #[inline(always)]
    fn write(&self, count: u32, sdu: &Sdu) -> Result<Next, NoMemory>
        ensures answer { IfOk result (λ next. next
            ≡ written self.now.kind self.now.protection (Some count) sdu.now) }
        ensures size { IfOk result HasSize }
    {
        Ok(Next {
            count: Some(count),
            len: sdu.len(),
            octets: write_pdu(&self.security, self.alloc, self.kind, count, sdu.as_slice())?,
        })
    }

    /// RLC has acknowledged the PDU that was given at a place in this life.
    #[tactic(auto, unfolding(crate::specs::State::confirmed))]
    pub fn confirm(&mut self, place: u64)
        ensures { self.new ≡ confirmed self.old place }
    {
        let own = self.given.acknowledge(place);
        self.reporting = self.reporting && !own;
        self.given.settle();
        self.move_bound();
    }

    fn move_bound(&mut self)
        ensures { self.new ≡ moved self.old }
    {
        if !self.reporting {
            self.bound = self.low() + width(self.kind);
        }
    }

    /// Returns the first COUNT that isn't confirmed.
    fn low(&self) -> u64
        ensures value { result ≡ low self.now }
        ensures below { result ≤ 2 ^ 32 }
    {
        match self.given.first_open() {
            Some(count) => u64::from(count),
            None => self.low_again(),
        }
    }

    fn low_again(&self) -> u64
        ensures value { result ≡ or_else (first_unacked self.now.again) self.now.next }
        ensures below { result ≤ 2 ^ 32 }
    {
        match self.again.first_unacked() {
            Some(count) => u64::from(count),
            None => self.next,
        }
    }

    /// A status report has come. Returns whether its FMS has a COUNT.
    #[tactic(auto, unfolding(crate::specs::State::reported))]
    pub fn report(&mut self, fms: u32, bitmap: &[u8]) -> bool
        ensures answer { result ≡ is_some (fms_count self.old.kind self.old.base fms) }
        ensures state { self.new ≡ reported self.old fms bitmap.now }
    {
        match fms_count(self.kind, self.base, fms) {
            Some(from) => {
                self.given.hear(from, bitmap);
                self.again.hear(from, bitmap);
                self.given.settle();
                self.move_bound();
                true
            }
            None => false,
        }
    }

    /// A status report is to be sent.
    pub fn owe(&mut self, report: Bytes)
        ensures { self.new ≡ owing self.old report }
    {
        self.owed = Some(report);
        self.reporting = true;
    }

    /// Sets the length of the discard timers.
    pub fn set_discard(&mut self, ttis: u32)
        ensures { self.new ≡ record self.old { discard = Some ttis } }
    {
        self.discard = Some(ttis);
    }

    /// A TTI begins.
    pub fn tick(&mut self)
        ensures { self.new ≡ ticked self.old }
    {
        self.clock = self.clock.saturating_add(1);
    }

    fn is_overdue(&self) -> bool
        ensures { result ≡ is_overdue self.now }
    {
        match (self.discard, self.waiting.front()) {
            (Some(ttis), Some(one)) => self.clock.saturating_sub(one.born) >= u64::from(ttis),
            _ => false,
        }
    }

    /// Drops the first SDU that waits, where its discard timer has ended, and returns its length.
    #[tactic(auto, unfolding(crate::specs::State::after_late, crate::specs::State::late_length))]
    pub fn late(&mut self) -> Option<u32>
        ensures value { result ≡ late_length self.old }
        ensures state { self.new ≡ after_late self.old }
    {
        if !self.is_overdue() {
            return None;
        }
        let one = self.waiting.pop()?;
        Some(one.octets.len())
    }

    /// Begins a new life under other keys. An `Err` changes nothing.
    #[tactic(auto, unfolding(crate::specs::State::restarted))]
    pub fn restart(&mut self, keys: &Keys) -> Result<(), NoMemory>
        ensures ok { OnOk result (self.new ≡ restarted self.old keys.now) }
        ensures err { OnErr result (self.new ≡ self.old) }
    {
        self.given.move_before(&mut self.again)?;
        self.reset();
        self.begin_life(keys);
        Ok(())
    }

    // What the kind of the bearer forgets between two lives.
    fn reset(&mut self)
        ensures { self.new ≡ record self.old {
          next = next_from self.old.kind self.old.next;
          waiting = waiting_on self.old.kind self.old.waiting;
        } }
    {
        match self.kind {
            PdcpKind::Srb => {
                self.waiting = Queue::new(self.alloc);
                self.next = 0;
            }
            PdcpKind::Um { bits: _ } => {
                self.next = 0;
            }
            PdcpKind::Am { bits: _ } => {}
        }
    }

    fn begin_life(&mut self, keys: &Keys)
        ensures { self.new
            ≡ begun self.old
            (protection_of self.old.kind keys.now self.old.protection.bearer
            self.old.protection.direction) }
    {
        let first = match self.again.first() {
            Some(count) => u64::from(count),
            None => self.next,
        };
        self.security.renew(self.kind, keys);
        self.base = first;
        self.bound = first + width(self.kind);
        self.owed = None;
        self.reporting = false;
        self.given = Ledger::new(self.alloc);
    }
}

fn keep_new(given: &mut Ledger, kind: PdcpKind, count: u32, octets: Sdu) -> Result<(), NoMemory>
    ensures { OnOk result (given.new ≡ given_new kind given.old count octets) }
{
    if !kind.is_am() {
        return Ok(());
    }
    given.push(Entry::Data(Sent {
        count,
        octets,
        acked: false,
    }))
}

/// Returns how far an FMS lies above a COUNT.
fn ahead(kind: PdcpKind, base: u64, fms: u32) -> u64
    requires kind { IsKind kind }
    ensures value { result ≡ ahead kind base fms }
    ensures below { result < 2 ^ 16 }
{
    let size = modulus(kind);
    (u64::from(fms) + size - base % size) % size
}

fn fms_count(kind: PdcpKind, base: u64, fms: u32) -> Option<u64>
    requires kind { IsKind kind }
    requires base { base ≤ 2 ^ 32 }
    ensures { result ≡ fms_count kind base fms }
{
    let ahead = ahead(kind, base, fms);
    if ahead <= width(kind) {
        Some(base + ahead)
    } else {
        None
    }
}

#[tactic(auto, using(crate::proofs::Offers::times_few))]
fn times(count: u64, extra: u64) -> u64
    requires count { count ≤ 2 ^ 32 }
    requires extra { extra ≤ 5 }
    ensures value { result ≡ count * extra }
    ensures below { result ≤ 2 ^ 35 }
{
    count * extra
}
