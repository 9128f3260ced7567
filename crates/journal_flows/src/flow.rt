// One acknowledged flow, through its lives.
ghost use Rattle.std.specs.Prelude.{◌≡◌, true, OnOk, IfOk};
ghost use Rattle.journal_account.specs.FlowArrivals.{next_in};
ghost use Rattle.journal_account.specs.FlowEvents.{StatusHeard};
ghost use Rattle.journal_account.specs.FlowSending.{sent_in};
ghost use Rattle.journal_lives.specs.FlowLives.{no_lives, lives_with};
ghost use Rattle.journal_lives.specs.LifeEvents.{InLife};
ghost use Rattle.journal_flows.specs.Possible.{is_possible, are_octets};
ghost use Rattle.journal_flows.specs.FlowKept.{event_of, kept_with};

use journal_account::StatusEntry;
use journal_lives::FlowLives;
use l2_bits::NoMemory;
use std::alloc::Global;
use std::marker::Model;

// SOs have 15 bits, and an SOend of 32767 is the last octet of a field (TS 36.322 6.2.2.7,
// 6.2.2.18).
const MOST_OCTETS: u32 = 32767;

// What happens to a flow, but for a STATUS.
#[derive(Clone, Copy)]
pub(crate) enum Happening {
    PduGiven { count: Option<u32>, size: u32 },
    NumberWritten { size: u32 },
    OctetsResent { number: u64, from: u32, to: u32 },
    OctetsArrived { number: u64, from: u32, to: u32 },
    ReorderStarted,
    ReorderExpired,
    PollExpired { more: bool },
    LifeEnded,
}

fn are_octets(from: u32, to: u32) -> bool
    ensures { result ≡ are_octets from to }
{
    from < to && to <= MOST_OCTETS
}

// Whether it can happen where VT(S) is `next`.
fn is_possible(next: u64, what: Happening) -> bool
    ensures { result ≡ is_possible next (event_of what) }
{
    match what {
        Happening::NumberWritten { size } => are_octets(0, size),
        Happening::OctetsResent { number, from, to } => number < next && are_octets(from, to),
        Happening::OctetsArrived { number, from, to } => number < next && are_octets(from, to),
        Happening::PduGiven { .. }
        | Happening::ReorderStarted
        | Happening::ReorderExpired
        | Happening::PollExpired { .. }
        | Happening::LifeEnded => true,
    }
}

fn change(lives: &mut FlowLives, what: Happening) -> Result<(), NoMemory>
    requires agree { sent_in lives.old.account.sending ≡ next_in lives.old.account.arrivals }
    requires possible { is_possible (next_in lives.old.account.arrivals) (event_of what) ≡ true }
    ensures { OnOk result (lives.new ≡ lives_with (event_of what) lives.old) }
{
    match what {
        Happening::PduGiven { count, size } => lives.give(count, size),
        Happening::NumberWritten { size } => lives.new_pdu(size),
        Happening::OctetsResent { number, from, to } => lives.again(number, from, to),
        Happening::OctetsArrived { number, from, to } => lives.arrive(number, from, to),
        Happening::ReorderStarted => lives.start_reorder(),
        Happening::ReorderExpired => lives.expire_reorder(),
        Happening::PollExpired { more } => lives.expire_poll(more),
        Happening::LifeEnded => lives.end_life(),
    }
}

#[derive(Drop)]
pub(crate) struct Flow {
    lives: FlowLives,
}

impl Model for Flow {
    ghost use Rattle.journal_lives.specs.FlowLives.{FlowLives as Lives};
    ghost use Rattle.journal_flows.specs.FlowKept.{IsOfHistory};

    ghost Value = { Lives };

    ghost view = { λ f. f.lives };

    ghost invariant = { λ f. IsOfHistory f.lives };
}

// An event takes a flow and gives it back changed, since behind an `Err` nothing is known of it.
// One that can't happen changes nothing.
impl Flow {
    pub(crate) fn new(alloc: Global, most: u32, first: u32) -> Flow
        ensures { result ≡ no_lives most first }
    {
        Flow {
            lives: FlowLives::new(alloc, most, first),
        }
    }

    pub(crate) fn lives(&self) -> &FlowLives
        ensures { result.now ≡ self.now }
    {
        &self.lives
    }

    // VT(S).
    pub(crate) fn next(&self) -> u64
        ensures { result ≡ next_in self.now.account.arrivals }
    {
        self.lives.account().next()
    }

    // VR(R).
    pub(crate) fn front(&self) -> u64
        ensures { result ≡ self.now.account.arrivals.front }
    {
        self.lives.account().front()
    }

    pub(crate) fn with(self, what: Happening) -> Result<Flow, NoMemory>
        ensures { IfOk result (λ flow. flow ≡ kept_with (event_of what) self) }
    {
        if !is_possible(self.next(), what) {
            return Ok(self);
        }
        let Flow { mut lives } = self;
        change(&mut lives, what)?;
        Ok(Flow { lives })
    }

    // A STATUS comes to the sender.
    pub(crate) fn with_status(self, ack: u64, entries: &[StatusEntry]) -> Result<Flow, NoMemory>
        ensures { IfOk result
            (λ flow. flow ≡ kept_with (InLife (StatusHeard ack entries.now)) self) }
    {
        if ack > self.next() {
            return Ok(self);
        }
        let Flow { mut lives } = self;
        lives.hear(ack, entries)?;
        Ok(Flow { lives })
    }
}
