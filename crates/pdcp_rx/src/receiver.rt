//! The receiver, but for its end by want of memory.
ghost use Rattle.std.specs.Prelude.{◌≡◌, ◌+◌, ◌/◌, ◌<◌, ◌≤◌, ◌^◌, if◌then◌else◌, length, drop};
ghost use Rattle.std.specs.Prelude.{slice_get, OnOk, IfOk, IfNone, IsTrue};
ghost use Rattle.pdcp_rx.specs.declared.got.Got.TheVariants.{Stored, Up};
ghost use Rattle.pdcp_rx.specs.Held.{Ends};
ghost use Rattle.pdcp_rx.specs.Opening.{IsLong};
ghost use Rattle.pdcp_pdu.specs.Kinds.{IsKind, bits_of, is_am};
ghost use Rattle.pdcp_sec.specs.Protection.{protection_of};
ghost use Rattle.pdcp_rx.specs.State.{above, passed_over, opened_at, got_data, left_data};
ghost use Rattle.pdcp_rx.specs.State.{got_opened, left_opened, placed, raised, got, arrived};
ghost use Rattle.pdcp_rx.specs.State.{report, restarted, fresh, waits};

use crate::got::{Cause, Got};
use crate::held::{bitmap, first_gap, hand_up, is_held, store};
use crate::kind::{waits, width};
use crate::reading::{Read, read_pdu};
use crate::security::{Opened, open};
use eps_sec::Keys;
use l2_bits::{Bytes, NoMemory, Packets};
use l2_num::ahead;
use pdcp_pdu::{PdcpKind, write_long_report, write_report};
use pdcp_sec::Security;
use std::alloc::Global;
use std::collections::VecDeque;
use std::marker::Model;

/// The first number that is no COUNT.
const END: u64 = 1 << 32;

#[derive(Debug, Drop)]
pub struct Receiver {
    alloc: Global,
    kind: PdcpKind,
    security: Security,
    // The COUNT after the last that was handed up (Next_PDCP_RX_SN and RX_HFN).
    next: u64,
    // From `next` on.
    held: VecDeque<Option<Bytes>>,
    ready: Packets,
}

impl Model for Receiver {
    ghost use Rattle.std.specs.Prelude.{◌+◌, ◌≤◌, ◌^◌, length};
    ghost use Rattle.pdcp_pdu.specs.Kinds.{IsKind};
    ghost use Rattle.pdcp_rx.specs.State.{State};

    ghost Value = { State };

    ghost view = { λ r. record {
      kind = r.kind;
      protection = r.security;
      next = r.next;
      held = r.held.items;
      ready = r.ready;
    } };

    ghost invariant = { λ r. (r.next + length r.held.items ≤ 2 ^ 32) × (length r.held.items ≤ 2 ^ 15)
        × IsKind r.kind };
}

impl Receiver {
    #[tactic(auto, unfolding(crate::specs::State::fresh))]
    pub fn new(
        alloc: Global,
        kind: PdcpKind,
        first: u32,
        keys: &Keys,
        bearer: u32,
        direction: u32,
    ) -> Receiver
        requires kind { IsKind kind }
        requires bearer { bearer < 32 }
        requires direction { direction < 2 }
        ensures { result ≡ fresh kind (protection_of kind keys.now bearer direction) first }
    {
        Receiver {
            alloc,
            kind,
            security: Security::new(kind, keys, bearer, direction),
            next: u64::from(first),
            held: VecDeque::new(alloc),
            ready: Packets::new(alloc),
        }
    }

    #[tactic(auto, unfolding(crate::specs::State::got, crate::specs::State::arrived))]
    pub fn arrive(&mut self, pdu: &[u8], cause: Cause) -> Result<Got, NoMemory>
        ensures got { IfOk result (λ g. g ≡ got self.old pdu.now cause) }
        ensures state { OnOk result (self.new ≡ arrived self.old pdu.now cause) }
        ensures kind { self.new.kind ≡ self.old.kind }
    {
        match read_pdu(self.kind, pdu) {
            Ok(Read::Data { sn, body }) => self.take(sn, body, cause),
            Ok(Read::Report { fms, bitmap }) => {
                let bitmap = Bytes::from_slice(self.alloc, bitmap)?;
                Ok(Got::Report { fms, bitmap })
            }
            Err(refusal) => Ok(Got::Unreadable(refusal)),
        }
    }

    // Takes what stands at the COUNT with this SN.
    fn take(&mut self, sn: u32, body: &[u8], cause: Cause) -> Result<Got, NoMemory>
        requires sn { sn < 2 ^ bits_of self.old.kind }
        requires long { IsLong self.old.kind body.now }
        ensures got { IfOk result
            (λ g. g ≡ got_data (passed_over self.old (above self.old sn)) self.old cause
            (above self.old sn) (opened_at self.old (above self.old sn) body.now)) }
        ensures state { OnOk result
            (self.new ≡ left_data (passed_over self.old (above self.old sn)) self.old cause
            (above self.old sn) (opened_at self.old (above self.old sn) body.now)) }
        ensures kind { self.new.kind ≡ self.old.kind }
    {
        let at = self.above(sn);
        if let Some(why) = self.passed_over(at) {
            return Ok(why);
        }
        let opened = self.open(at, body)?;
        self.land(cause, at, opened)
    }

    // How far above the next COUNT the one with this SN lies.
    fn above(&self, sn: u32) -> usize
        requires { sn < 2 ^ bits_of self.now.kind }
        ensures value { result ≡ above self.now sn }
        ensures below { result < 2 ^ 15 }
    {
        let size = 1u32 << self.kind.bits();
        ahead(sn, (self.next % u64::from(size)) as u32, size) as usize
    }

    fn passed_over(&self, at: usize) -> Option<Got>
        requires { at < 2 ^ 15 }
        ensures value { result ≡ passed_over self.now at }
        ensures in_range { IfNone result (self.now.next + at < 2 ^ 32) }
    {
        if at as u64 >= width(self.kind) || is_held(&self.held, at) {
            Some(Got::Old)
        } else if self.next + at as u64 >= END {
            Some(Got::OutOfRange)
        } else {
            None
        }
    }

    fn open(&self, at: usize, body: &[u8]) -> Result<Opened, NoMemory>
        requires count { self.now.next + at < 2 ^ 32 }
        requires long { IsLong self.now.kind body.now }
        ensures { IfOk result (λ o. o ≡ opened_at self.now at body.now) }
    {
        let count = (self.next + at as u64) as u32;
        open(&self.security, self.alloc, self.kind, count, body)
    }

    fn land(&mut self, cause: Cause, at: usize, opened: Opened) -> Result<Got, NoMemory>
        requires count { self.old.next + at < 2 ^ 32 }
        requires within { at < 2 ^ 15 }
        ensures got { IfOk result (λ g. g ≡ got_opened self.old cause at opened) }
        ensures state { OnOk result (self.new ≡ left_opened self.old cause at opened) }
        ensures kind { self.new.kind ≡ self.old.kind }
    {
        match opened {
            Opened::Sdu(sdu) => self.place(cause, at, sdu),
            Opened::Differs { found, wanted } => Ok(Got::Integrity { found, wanted }),
        }
    }

    fn place(&mut self, cause: Cause, at: usize, sdu: Bytes) -> Result<Got, NoMemory>
        requires count { self.old.next + at < 2 ^ 32 }
        requires within { at < 2 ^ 15 }
        ensures got { IfOk result (λ g. g ≡ (if waits self.old.kind cause at then Stored else Up)) }
        ensures state { OnOk result (self.new ≡ placed self.old cause at sdu) }
        ensures kind { self.new.kind ≡ self.old.kind }
    {
        store(&mut self.held, at, sdu)?;
        if waits(self.kind, cause, at) {
            return Ok(Got::Stored);
        }
        self.raise(at + 1)?;
        Ok(Got::Up)
    }

    // Hands up the SDUs of the first places, and those that follow without a gap.
    fn raise(&mut self, from: usize) -> Result<(), NoMemory>
        requires { from ≤ length self.old.held }
        ensures state { OnOk result (self.new ≡ raised self.old self.old.held from) }
        ensures kind { self.new.kind ≡ self.old.kind }
    {
        let count = first_gap(&self.held, from);
        hand_up(&mut self.held, &mut self.ready, count)?;
        self.next += count as u64;
        Ok(())
    }

    pub fn up(&mut self) -> Option<Bytes>
        ensures value { result ≡ slice_get self.old.ready 0 }
        ensures state { self.new ≡ record self.old { ready = drop 1 self.old.ready } }
    {
        self.ready.pop_front()
    }

    #[tactic(auto, using(crate::proofs::BitmapLemmas::report_lengths))]
    pub fn make_report(&self) -> Result<Bytes, NoMemory>
        requires kind { IsTrue (is_am self.now.kind) }
        requires ends { Ends self.now.held }
        ensures pdu { IfOk result (λ pdu. pdu ≡ report self.now) }
        ensures some { IfOk result (λ pdu. 1 ≤ length pdu) }
        ensures few { IfOk result (λ pdu. length pdu ≤ 8193) }
    {
        self.write_report((self.held.len() + 6) / 8)
    }

    #[tactic(auto, using(crate::proofs::BitmapLemmas::report_ends), unfolding(crate::specs::State::report))]
    fn write_report(&self, size: usize) -> Result<Bytes, NoMemory>
        requires kind { IsTrue (is_am self.now.kind) }
        requires ends { Ends self.now.held }
        requires size { size ≡ (length self.now.held + 6) / 8 }
        ensures { IfOk result (λ pdu. pdu ≡ report self.now) }
    {
        let bits = self.kind.bits();
        let fms = (self.next % (1 << bits)) as u32;
        let bitmap = bitmap(self.alloc, &self.held, size)?;
        if bits == 12 {
            return write_report(self.alloc, fms, &bitmap);
        }
        write_long_report(self.alloc, fms, &bitmap)
    }

    #[tactic(auto, unfolding(crate::specs::State::restarted))]
    pub fn restart(&mut self, keys: &Keys)
        ensures state { self.new ≡ restarted self.old keys.now }
        ensures kind { self.new.kind ≡ self.old.kind }
    {
        self.security.renew(self.kind, keys);
        if !self.kind.is_am() {
            self.next = 0;
            self.held.clear();
        }
    }
}
