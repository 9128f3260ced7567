// The SDUs of one direction of a bearer that weren't handed up.
ghost use Rattle.std.specs.Prelude.{◌≡◌, ◌≤◌, ◌-◌, ◌++◌, length, take, drop, max, OnOk};
ghost use Rattle.journal_delivered.specs.DeliveryChecking.{none_awaited, with_sdu};
ghost use Rattle.journal_delivered.specs.DeliveryChecking.{with_taken, with_discarded};
ghost use Rattle.journal_delivered.specs.DeliveryChecking.{with_compared, is_due, with_up};
ghost use Rattle.journal_delivered.specs.DeliveryChecking.{with_told, all_compared};
ghost use Rattle.journal_delivered.specs.DeliveryChecking.{settled, judged, with_end};

use l2_bits::{Bytes, NoMemory};
use std::alloc::Global;
use std::collections::VecDeque;
use std::marker::Model;
use std::mem;

type Sdus = VecDeque<Bytes>;

// What is told of the SDUs of one direction.
#[derive(Drop)]
pub(crate) enum SduTold<'a> {
    // One is submitted, by a line or by the test loop.
    Submitted(Bytes),
    // RLC takes that of a COUNT.
    Taken(u32),
    // The first that waits is discarded.
    Discarded,
    // One goes up at the other side.
    HandedUp(&'a [u8]),
}

// SDUs that wait have COUNTs now, as many as there are, until there are so many.
#[tactic(auto, using(crate::proofs::Filling::fills))]
fn fill(taken: &mut Sdus, waiting: &mut Sdus, room: u64) -> Result<(), NoMemory>
    ensures taken { OnOk result (taken.new.items
        ≡ taken.old.items ++ take (room - length taken.old.items) waiting.old.items) }
    ensures waiting { OnOk result
        (waiting.new.items ≡ drop (room - length taken.old.items) waiting.old.items) }
    ensures within { length taken.new.items ≤ max room (length taken.old.items) }
{
    while (taken.len() as u64) < room {
        let Some(sdu) = waiting.pop_front() else {
            break;
        };
        taken.push_back(sdu)?;
    }
    Ok(())
}

#[derive(Drop)]
pub(crate) struct AwaitedSdus {
    alloc: Global,
    low: u64,
    next: u64,
    taken: Sdus,
    waiting: Sdus,
    early: Sdus,
    right: bool,
}

impl Model for AwaitedSdus {
    ghost use Rattle.std.specs.Prelude.{◌+◌, ◌≤◌, ◌^◌, length as len};
    ghost use Rattle.journal_delivered.specs.DeliveryChecking.{AwaitedSdus};

    ghost Value = { AwaitedSdus };

    ghost view = { λ a. record {
      low = a.low;
      next = a.next;
      taken = a.taken.items;
      waiting = a.waiting.items;
      early = a.early.items;
      right = a.right;
    } };

    ghost invariant = { λ a. (a.low + len a.taken.items ≤ a.next) × (a.next ≤ 2 ^ 32) };
}

// Behind an `Err` nothing is known of what is kept.
impl AwaitedSdus {
    // As a bearer begins, with its first COUNT.
    pub(crate) fn new(alloc: Global, first: u32) -> AwaitedSdus
        ensures { result ≡ none_awaited first }
    {
        AwaitedSdus {
            alloc,
            low: u64::from(first),
            next: u64::from(first),
            taken: VecDeque::new(alloc),
            waiting: VecDeque::new(alloc),
            early: VecDeque::new(alloc),
            right: true,
        }
    }

    // Whether each SDU that was compared is the one that was due; behind the end of a group,
    // whether all went up that had to.
    pub(crate) fn is_right(&self) -> bool
        ensures { result ≡ self.now.right }
    {
        self.right
    }

    pub(crate) fn tell(&mut self, what: SduTold<'_>) -> Result<(), NoMemory>
        ensures { OnOk result (self.new ≡ with_told what.entry self.old) }
    {
        match what {
            SduTold::Submitted(sdu) => self.submit(sdu),
            SduTold::Taken(count) => self.take(count),
            SduTold::Discarded => {
                self.discard();
                Ok(())
            }
            SduTold::HandedUp(octets) => self.hand_up(octets),
        }
    }

    // The group ends; `came` is the first COUNT that hasn't come.
    pub(crate) fn end(&mut self, came: u64)
        ensures { self.new ≡ with_end came self.old }
    {
        self.settle();
        self.judge(came);
    }

    // An SDU waits, or has a COUNT already where more were taken than there were.
    fn submit(&mut self, sdu: Bytes) -> Result<(), NoMemory>
        ensures { OnOk result (self.new ≡ with_sdu sdu self.old) }
    {
        if (self.taken.len() as u64) < self.next - self.low {
            self.taken.push_back(sdu)?;
        } else {
            self.waiting.push_back(sdu)?;
        }
        Ok(())
    }

    fn take(&mut self, count: u32) -> Result<(), NoMemory>
        ensures { OnOk result (self.new ≡ with_taken count self.old) }
    {
        self.next = self.next.max(u64::from(count) + 1);
        fill(&mut self.taken, &mut self.waiting, self.next - self.low)
    }

    fn discard(&mut self)
        ensures { self.new ≡ with_discarded self.old }
    {
        let _ = self.waiting.pop_front();
    }

    fn is_due(&self) -> bool
        ensures { result ≡ is_due self.now }
    {
        self.early.is_empty() && !self.taken.is_empty()
    }

    // An SDU that isn't taken yet may still be discarded, so the end of the group compares it.
    fn hand_up(&mut self, octets: &[u8]) -> Result<(), NoMemory>
        ensures { OnOk result (self.new ≡ with_up octets.now self.old) }
    {
        if self.is_due() {
            self.compare(octets);
            return Ok(());
        }
        self.early
            .push_back(Bytes::from_slice(self.alloc, octets)?)?;
        Ok(())
    }

    fn compare(&mut self, octets: &[u8])
        ensures { self.new ≡ with_compared octets.now self.old }
    {
        match self.taken.pop_front() {
            Some(sdu) => {
                self.low += 1;
                self.right = self.right && sdu.as_slice() == octets;
            }
            None => self.right = false,
        }
    }

    fn compare_all(&mut self, mut sdus: Sdus)
        ensures { self.new ≡ all_compared sdus.items self.old }
    {
        while let Some(sdu) = sdus.pop_front() {
            self.compare(sdu.as_slice());
        }
    }

    fn settle(&mut self)
        ensures { self.new ≡ settled self.old }
    {
        if self.early.is_empty() {
            return;
        }
        let early = mem::replace(&mut self.early, VecDeque::new(self.alloc));
        self.compare_all(early);
    }

    // All went up before the first COUNT that hasn't come, and no more.
    fn judge(&mut self, came: u64)
        ensures { self.new ≡ judged came self.old }
    {
        let all = self.low == came || (self.low < came && self.taken.is_empty());
        self.right = self.right && all;
    }
}
