ghost use Rattle.std.specs.Prelude.{◌≡◌, ◌<◌, ◌≤◌, OnOk, OnErr, IfOk};
ghost use Rattle.journal_account.specs.FlowEvents.{SduTaken, NumberWritten, OctetsArrived};
ghost use Rattle.journal_account.specs.FlowEvents.{ReorderStarted, ReorderExpired, OctetsResent};
ghost use Rattle.journal_account.specs.FlowEvents.{StatusHeard, PollExpired};
ghost use Rattle.journal_account.specs.FlowSending.{sent_in, octets_wait, acked_kept, namings_of};
ghost use Rattle.journal_account.specs.FlowArrivals.{next_in};
ghost use Rattle.journal_account.specs.FlowStatus.{is_true_status};
ghost use Rattle.journal_account.specs.FlowWholes.{is_whole_kept};
ghost use Rattle.journal_account.specs.FlowConfirmed.{is_confirmed_kept, confirmed_sdus};
ghost use Rattle.journal_account.specs.FlowAccount.{empty_account, sequenced, account_with};

use crate::arrivals::FlowArrivals;
use crate::confirmed::ConfirmedSdus;
use crate::entry::StatusEntry;
use crate::sdus::FlowSdus;
use crate::sending::FlowSending;
use l2_bits::NoMemory;
use std::alloc::Global;
use std::marker::Model;

/// What the events of an acknowledged flow in a life tell. Numbers are true numbers, and octets of
/// a number are told by their places in its data field: those at or above one and below another.
/// Contracts see the account of `specs/FlowAccount.antt`.
///
/// It takes memory for the numbers from VR(R) on and from VT(A) on, and for the SDUs that aren't in
/// sequence or don't end before VT(A).
#[derive(Drop)]
pub struct FlowAccount {
    arrivals: FlowArrivals,
    sdus: FlowSdus,
    confirmed: FlowSdus,
    sending: FlowSending,
    ignored: u64,
}

impl Model for FlowAccount {
    ghost use Rattle.journal_account.specs.FlowAccount.{FlowAccount};

    ghost Value = { FlowAccount };

    ghost view = { λ a. record {
      arrivals = a.arrivals;
      sdus = a.sdus;
      confirmed = a.confirmed;
      sending = a.sending;
      ignored = a.ignored;
    } };
}

impl FlowAccount {
    /// As a life begins; the flow fails where a number is named more often than `most` times so
    /// that it counts (maxRetxThreshold). It takes no memory.
    pub fn new(alloc: Global, most: u32) -> FlowAccount
        ensures { result ≡ empty_account most }
    {
        FlowAccount {
            arrivals: FlowArrivals::new(alloc),
            sdus: FlowSdus::new(alloc),
            confirmed: FlowSdus::new(alloc),
            sending: FlowSending::new(alloc, most),
            ignored: 0,
        }
    }

    /// VT(S), the number that is written next.
    pub fn next(&self) -> u64
        ensures { result ≡ next_in self.now.arrivals }
    {
        self.arrivals.next()
    }

    /// VR(R), the least number that isn't complete.
    pub fn front(&self) -> u64
        ensures { result ≡ self.now.arrivals.front }
    {
        self.arrivals.front()
    }

    /// VR(H), one above the greatest number of which an octet has come, or 0.
    pub fn top(&self) -> u64
        ensures { result ≡ self.now.arrivals.top }
    {
        self.arrivals.top()
    }

    /// VR(MS), below which a STATUS may report numbers as missing.
    pub fn bound(&self) -> u64
        ensures { result ≡ self.now.arrivals.bound }
    {
        self.arrivals.bound()
    }

    /// Whether a STATUS with this ACK and these entries, each with its true number, is true as the
    /// receiver stands: its entries are a beginning of what is missing below VR(MS), and its ACK is
    /// the least number that isn't complete and has no entry (TS 36.322 5.2.3, 6.2.1.6).
    pub fn is_true_status(&self, ack: u64, entries: &[StatusEntry]) -> bool
        ensures { result ≡ is_true_status ack entries.now self.now.arrivals }
    {
        self.arrivals.is_true_status(ack, entries)
    }

    /// How many SDUs are in sequence: all octets up to their ends have come.
    pub fn sequenced(&self) -> u64
        ensures { result ≡ self.now.sdus.sequenced }
    {
        self.sdus.sequenced()
    }

    /// Whether an SDU, counted from 0, was taken and all its octets have come, whatever came before
    /// them: it goes up where the life ends (TS 36.322 5.4).
    pub fn is_whole(&self, sdu: u64) -> bool
        ensures { result ≡ is_whole_kept sdu self.now }
    {
        if sdu < self.sdus.sequenced() {
            return true;
        }
        let gap = self.arrivals.stream_gap();
        match self.sdus.place_of(sdu - self.sdus.sequenced(), gap) {
            Some((start, end)) => self.arrivals.stream_came(start, end),
            None => false,
        }
    }

    /// Whether an SDU, counted from 0, was taken and each of its octets was written in a number
    /// that is acknowledged: RLC tells PDCP that it has come (TS 36.322 5.1.3.1.1).
    pub fn is_confirmed(&self, sdu: u64) -> bool
        ensures { result ≡ is_confirmed_kept sdu self.now }
    {
        if sdu < self.confirmed.sequenced() {
            return true;
        }
        let at = sdu - self.confirmed.sequenced();
        match self.confirmed.place_of(at, self.sending.start()) {
            Some((start, end)) => self.sending.stream_acked(start, end),
            None => false,
        }
    }

    /// Which SDUs are confirmed, in one walk over the numbers from VT(A) on and the SDUs that don't
    /// end before it.
    pub fn confirmed(&self, alloc: Global) -> Result<ConfirmedSdus, NoMemory>
        ensures { IfOk result (λ c. c ≡ confirmed_sdus self.now) }
    {
        let sdus = &self.confirmed;
        ConfirmedSdus::of(alloc, sdus.sequenced(), &self.sending, sdus.ends())
    }

    /// How many octets were taken.
    pub fn taken(&self) -> u64
        ensures { result ≡ self.now.sdus.taken }
    {
        self.sdus.taken()
    }

    /// How many octets were written in numbers.
    pub fn written(&self) -> u64
        ensures { result ≡ self.now.arrivals.written }
    {
        self.arrivals.written()
    }

    /// VT(A), the least number that isn't acknowledged.
    pub fn base(&self) -> u64
        ensures { result ≡ self.now.sending.base }
    {
        self.sending.base()
    }

    /// Whether the octets of a number from a place on below another all wait to be resent.
    pub fn octets_wait(&self, number: u64, from: u32, to: u32) -> bool
        ensures { result ≡ octets_wait number from to self.now.sending }
    {
        self.sending.octets_wait(number, from, to)
    }

    /// Whether a number is acknowledged (TS 36.322 5.2.1).
    pub fn is_acked(&self, number: u64) -> bool
        ensures { result ≡ acked_kept number self.now.sending }
    {
        self.sending.is_acked(number)
    }

    /// How often a number from VT(A) on was named so that it counts: RETX_COUNT is one less.
    pub fn namings(&self, number: u64) -> u32
        ensures { result ≡ namings_of number self.now.sending }
    {
        self.sending.namings(number)
    }

    /// The number at which the flow failed, once it has.
    pub fn limit(&self) -> Option<u64>
        ensures { result ≡ self.now.sending.limit }
    {
        self.sending.limit()
    }

    /// How many STATUS were ignored: as each came, its ACK lay below VT(A) (TS 36.322 5.2.1).
    pub fn ignored(&self) -> u64
        ensures { result ≡ self.now.ignored }
    {
        self.ignored
    }

    /// RLC takes an SDU or a status report of PDCP, of so many octets. An `Err` changes nothing.
    pub fn take(&mut self, size: u32) -> Result<(), NoMemory>
        ensures ok { OnOk result (self.new ≡ account_with (SduTaken size) self.old) }
        ensures err { OnErr result (self.new ≡ self.old) }
    {
        self.sdus.take(size)?;
        if self.confirmed.take(size).is_err() {
            self.sdus.give_back(size);
            return Err(NoMemory);
        }
        self.sequence();
        Ok(())
    }

    /// The sender writes the next number, with so many octets (TS 36.322 5.1.3.1.1). Behind an
    /// `Err` nothing is known.
    pub fn new_pdu(&mut self, size: u32) -> Result<(), NoMemory>
        requires some { 0 < size }
        requires within { size ≤ 32767 }
        ensures { OnOk result (self.new ≡ account_with (NumberWritten size) self.old) }
    {
        self.arrivals.add_number(size)?;
        self.sending.add_number(size)?;
        self.sequence();
        Ok(())
    }

    /// The sender writes octets of a number again (TS 36.322 5.2.1). An `Err` changes nothing.
    pub fn again(&mut self, number: u64, from: u32, to: u32) -> Result<(), NoMemory>
        requires written { number < sent_in self.old.sending }
        requires some { from < to }
        requires within { to ≤ 32767 }
        ensures ok { OnOk result
            (self.new ≡ account_with (OctetsResent number from to) self.old) }
        ensures err { OnErr result (self.new ≡ self.old) }
    {
        self.sending.resend(number, from, to)?;
        self.sequence();
        Ok(())
    }

    /// Octets of a number that was written come (TS 36.322 5.1.3.2.3). An `Err` changes nothing.
    pub fn arrive(&mut self, number: u64, from: u32, to: u32) -> Result<(), NoMemory>
        requires written { number < next_in self.old.arrivals }
        requires some { from < to }
        requires within { to ≤ 32767 }
        ensures ok { OnOk result
            (self.new ≡ account_with (OctetsArrived number from to) self.old) }
        ensures err { OnErr result (self.new ≡ self.old) }
    {
        self.arrivals.arrive(number, from, to)?;
        self.sequence();
        Ok(())
    }

    /// t-Reordering starts, with VR(X) at VR(H) (TS 36.322 5.1.3.2.3).
    pub fn start_reorder(&mut self)
        ensures { self.new ≡ account_with ReorderStarted self.old }
    {
        self.arrivals.start_reorder();
        self.sequence();
    }

    /// t-Reordering expires, and VR(MS) moves to the first number at or above VR(X) that isn't
    /// complete (TS 36.322 5.1.3.2.4).
    pub fn expire_reorder(&mut self)
        ensures { self.new ≡ account_with ReorderExpired self.old }
    {
        self.arrivals.expire_reorder();
        self.sequence();
    }

    /// A STATUS comes to the sender, with its ACK and its entries (TS 36.322 5.2.1). Behind an
    /// `Err` nothing is known.
    pub fn hear(&mut self, ack: u64, entries: &[StatusEntry]) -> Result<(), NoMemory>
        requires { ack ≤ sent_in self.old.sending }
        ensures { OnOk result (self.new ≡ account_with (StatusHeard ack entries.now) self.old) }
    {
        if ack < self.sending.base() {
            self.ignored = self.ignored.checked_add(1).ok_or(NoMemory)?;
        }
        self.sending.hear(ack, entries)?;
        self.sequence();
        Ok(())
    }

    /// t-PollRetransmit expires, and an SDU may be taken or not (TS 36.322 5.2.2.3). Behind an
    /// `Err` nothing is known.
    pub fn expire_poll(&mut self, more: bool) -> Result<(), NoMemory>
        ensures { OnOk result (self.new ≡ account_with (PollExpired more) self.old) }
    {
        let left = more || self.arrivals.written() < self.sdus.taken();
        self.sending.expire_poll(left)?;
        self.sequence();
        Ok(())
    }

    // SDUs that end before the first place that hasn't come are in sequence, and those that end
    // before VT(A) are confirmed.
    fn sequence(&mut self)
        ensures { self.new ≡ sequenced self.old }
    {
        self.sdus.sequence(self.arrivals.stream_gap());
        self.confirmed.sequence(self.sending.start());
    }
}
