ghost use Rattle.std.specs.Prelude.{◌≡◌, ◌∷◌, ◌++◌, [], ◌+◌, ◌-◌, ◌<◌, ◌≤◌, ◌^◌, ℕ, length};
ghost use Rattle.std.specs.Prelude.{take, drop};
ghost use Rattle.std.specs.Prelude.{OnOk, Option, if◌then◌else◌};
ghost use Rattle.journal_account.specs.FlowEvents.{NumberWritten, OctetsArrived, OctetsResent};
ghost use Rattle.journal_account.specs.FlowEvents.{ReorderStarted, ReorderExpired, StatusHeard};
ghost use Rattle.journal_account.specs.FlowEvents.{PollExpired};
ghost use Rattle.journal_account.specs.FlowSending.{sent_in};
ghost use Rattle.journal_account.specs.FlowArrivals.{next_in};
ghost use Rattle.journal_account.specs.FlowWholes.{is_whole_kept};
ghost use Rattle.journal_lives.specs.LifeEvents.{PduGiven, InLife, LifeEnded};
ghost use Rattle.journal_lives.specs.CountsCome.{with_counts};
ghost use Rattle.journal_lives.specs.FlowLives.{no_lives, settled_by, whole_counts};
ghost use Rattle.journal_lives.specs.FlowLives.{lives_with};

use crate::counts::CountsCome;
use journal_account::{FlowAccount, StatusEntry};
use l2_bits::NoMemory;
use std::alloc::Global;
use std::collections::{BTreeSet, VecDeque};
use std::marker::Model;

type Counts = VecDeque<Option<u32>>;

/// What the events of acknowledged data in one direction tell, through its lives: which COUNTs have
/// come, whole as an earlier life ended or in sequence in the one that runs. Contracts see the
/// account of `specs/FlowLives.antt`.
///
/// Behind an `Err` nothing is known. It takes memory as `FlowAccount` does, and for the COUNTs that
/// came while one before them hasn't.
#[derive(Drop)]
pub struct FlowLives {
    alloc: Global,
    most: u32,
    account: FlowAccount,
    counts: Counts,
    come: CountsCome,
}

impl Model for FlowLives {
    ghost use Rattle.journal_lives.specs.FlowLives.{FlowLives};

    ghost Value = { FlowLives };

    ghost view = { λ l. record {
      most = l.most;
      account = l.account;
      counts = l.counts.items;
      come = l.come;
    } };
}

impl FlowLives {
    /// As the first life begins, with maxRetxThreshold and the first COUNT. It takes no memory.
    pub fn new(alloc: Global, most: u32, first: u32) -> FlowLives
        ensures { result ≡ no_lives most first }
    {
        FlowLives {
            alloc,
            most,
            account: FlowAccount::new(alloc, most),
            counts: VecDeque::new(alloc),
            come: CountsCome::new(alloc, first),
        }
    }

    /// The account of the life that runs.
    pub fn account(&self) -> &FlowAccount
        ensures { result.now ≡ self.now.account }
    {
        &self.account
    }

    /// The first COUNT that hasn't come: all before it have, from the first on.
    pub fn next_count(&self) -> u64
        ensures { result ≡ self.now.come.next }
    {
        self.come.next()
    }

    /// The COUNTs beyond it that have come.
    pub fn beyond(&self) -> &BTreeSet<u32>
        ensures { result.now.keys ≡ self.now.come.beyond }
    {
        self.come.beyond()
    }

    /// RLC takes a PDU of PDCP of so many octets: an SDU's with its COUNT, or a status report.
    pub fn give(&mut self, count: Option<u32>, size: u32) -> Result<(), NoMemory>
        ensures { OnOk result (self.new ≡ lives_with (PduGiven count size) self.old) }
    {
        let before = self.account.sequenced();
        self.account.take(size)?;
        self.counts.push_back(count)?;
        self.settle(before)
    }

    /// The sender writes the next number, with so many octets (TS 36.322 5.1.3.1.1).
    pub fn new_pdu(&mut self, size: u32) -> Result<(), NoMemory>
        requires some { 0 < size }
        requires within { size ≤ 32767 }
        ensures { OnOk result (self.new ≡ lives_with (InLife (NumberWritten size)) self.old) }
    {
        let before = self.account.sequenced();
        self.account.new_pdu(size)?;
        self.settle(before)
    }

    /// The sender writes octets of a number again (TS 36.322 5.2.1).
    pub fn again(&mut self, number: u64, from: u32, to: u32) -> Result<(), NoMemory>
        requires written { number < sent_in self.old.account.sending }
        requires some { from < to }
        requires within { to ≤ 32767 }
        ensures { OnOk result
            (self.new ≡ lives_with (InLife (OctetsResent number from to)) self.old) }
    {
        let before = self.account.sequenced();
        self.account.again(number, from, to)?;
        self.settle(before)
    }

    /// Octets of a number that was written come (TS 36.322 5.1.3.2.3).
    pub fn arrive(&mut self, number: u64, from: u32, to: u32) -> Result<(), NoMemory>
        requires written { number < next_in self.old.account.arrivals }
        requires some { from < to }
        requires within { to ≤ 32767 }
        ensures { OnOk result
            (self.new ≡ lives_with (InLife (OctetsArrived number from to)) self.old) }
    {
        let before = self.account.sequenced();
        self.account.arrive(number, from, to)?;
        self.settle(before)
    }

    /// t-Reordering starts (TS 36.322 5.1.3.2.3).
    pub fn start_reorder(&mut self) -> Result<(), NoMemory>
        ensures { OnOk result (self.new ≡ lives_with (InLife ReorderStarted) self.old) }
    {
        let before = self.account.sequenced();
        self.account.start_reorder();
        self.settle(before)
    }

    /// t-Reordering expires (TS 36.322 5.1.3.2.4).
    pub fn expire_reorder(&mut self) -> Result<(), NoMemory>
        ensures { OnOk result (self.new ≡ lives_with (InLife ReorderExpired) self.old) }
    {
        let before = self.account.sequenced();
        self.account.expire_reorder();
        self.settle(before)
    }

    /// A STATUS comes to the sender, with its ACK and its entries (TS 36.322 5.2.1).
    pub fn hear(&mut self, ack: u64, entries: &[StatusEntry]) -> Result<(), NoMemory>
        requires { ack ≤ sent_in self.old.account.sending }
        ensures { OnOk result
            (self.new ≡ lives_with (InLife (StatusHeard ack entries.now)) self.old) }
    {
        let before = self.account.sequenced();
        self.account.hear(ack, entries)?;
        self.settle(before)
    }

    /// t-PollRetransmit expires, and an SDU may be taken or not (TS 36.322 5.2.2.3).
    pub fn expire_poll(&mut self, more: bool) -> Result<(), NoMemory>
        ensures { OnOk result (self.new ≡ lives_with (InLife (PollExpired more)) self.old) }
    {
        let before = self.account.sequenced();
        self.account.expire_poll(more)?;
        self.settle(before)
    }

    /// The life ends, and the next one begins (TS 36.322 5.4, TS 36.323 5.2).
    pub fn end_life(&mut self) -> Result<(), NoMemory>
        ensures { OnOk result (self.new ≡ lives_with LifeEnded self.old) }
    {
        add_whole(&self.account, &self.counts, &mut self.come)?;
        self.counts.clear();
        self.account = FlowAccount::new(self.alloc, self.most);
        Ok(())
    }

    // Those PDUs come that are in sequence, where so many were before.
    fn settle(&mut self, before: u64) -> Result<(), NoMemory>
        ensures { OnOk result
            (self.new ≡ settled_by (self.old.account.sdus.sequenced - before) self.old) }
    {
        let more = self.account.sequenced().saturating_sub(before);
        add_first(&mut self.counts, more, &mut self.come)
    }
}

fn add(come: &mut CountsCome, count: Option<u32>) -> Result<(), NoMemory>
    ensures { OnOk result (come.new ≡ with_counts (count ∷ []) come.old) }
{
    match count {
        Some(count) => come.add(count),
        None => Ok(()),
    }
}

// So many stand first that come.
fn add_first(counts: &mut Counts, many: u64, come: &mut CountsCome) -> Result<(), NoMemory>
    ensures come { OnOk result
        (come.new ≡ with_counts (take many counts.old.items) come.old) }
    ensures counts { OnOk result (counts.new.items ≡ drop many counts.old.items) }
{
    let mut left = many;
    while left > 0 {
        let Some(count) = counts.pop_front() else {
            break;
        };
        add(come, count)?;
        left -= 1;
    }
    Ok(())
}

fn add_if_whole(
    account: &FlowAccount,
    number: u64,
    count: Option<u32>,
    come: &mut CountsCome,
) -> Result<(), NoMemory>
    ensures { OnOk result
        (come.new ≡ with_counts (if is_whole_kept number account.now then count ∷ [] else [])
        come.old) }
{
    if account.is_whole(number) {
        add(come, count)?;
    }
    Ok(())
}

// Those come whose PDUs are whole as the life ends.
#[tactic(auto, using(crate::proofs::LifeSteps::whole_go))]
fn add_whole(account: &FlowAccount, counts: &Counts, come: &mut CountsCome) -> Result<(), NoMemory>
    ensures { OnOk result (come.new
        ≡ with_counts (whole_counts account.now account.now.sdus.sequenced counts.now.items)
        come.old) }
{
    let mut at = 0;
    while let Some(count) = counts.get(at) {
        let number = account.sequenced().checked_add(at as u64).ok_or(NoMemory)?;
        add_if_whole(account, number, *count, come)?;
        at += 1;
    }
    Ok(())
}
