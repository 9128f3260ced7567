// The SDUs of a queue, by their lengths in octets.
ghost use Rattle.std.specs.Prelude.{◌≡◌, OnOk, option_map};
ghost use Rattle.journal_queues.specs.Leaving.{with_told, with_sdu, is_even, is_even_in};

use l2_bits::{Items, NoMemory};
use l2_types::Kind;
use std::alloc::Global;
use std::marker::Model;

// Those that are told of as they leave it, beside those that were submitted to it.
#[derive(Drop)]
struct Leaving {
    same: bool,
    waiting: Items<u64>,
    told: Items<u64>,
}

impl Model for Leaving {
    ghost use Rattle.journal_queues.specs.Leaving.{Leaving};

    ghost Value = { Leaving };

    ghost view = { λ l. record {
      same = l.same;
      waiting = l.waiting;
      told = l.told;
    } };
}

// Behind an `Err` nothing is known of what is kept.
impl Leaving {
    ghost use Rattle.journal_queues.specs.Leaving.{none_left};

    fn new(alloc: Global) -> Leaving
        ensures { result ≡ none_left }
    {
        Leaving {
            same: true,
            waiting: Items::new(alloc),
            told: Items::new(alloc),
        }
    }

    fn tell(&mut self, len: u64) -> Result<(), NoMemory>
        ensures { OnOk result (self.new ≡ with_told len self.old) }
    {
        match self.waiting.pop_front() {
            Some(first) => {
                self.same = self.same && first == len;
                Ok(())
            }
            None => self.told.push(len),
        }
    }

    fn submit(&mut self, len: u64) -> Result<(), NoMemory>
        ensures { OnOk result (self.new ≡ with_sdu len self.old) }
    {
        match self.told.pop_front() {
            Some(first) => {
                self.same = self.same && len == first;
                Ok(())
            }
            None => self.waiting.push(len),
        }
    }

    // Those that are told of are the first of those that were submitted.
    fn is_even(&self) -> bool
        ensures { result ≡ is_even self.now }
    {
        self.same && self.told.is_empty()
    }
}

fn tell_in(leaving: &mut Option<Leaving>, len: u64) -> Result<(), NoMemory>
    ensures { OnOk result (leaving.new ≡ option_map (with_told len) leaving.old) }
{
    match leaving {
        Some(leaving) => leaving.tell(len),
        None => Ok(()),
    }
}

fn submit_in(leaving: &mut Option<Leaving>, len: u64) -> Result<(), NoMemory>
    ensures { OnOk result (leaving.new ≡ option_map (with_sdu len) leaving.old) }
{
    match leaving {
        Some(leaving) => leaving.submit(len),
        None => Ok(()),
    }
}

fn is_even_in(leaving: &Option<Leaving>) -> bool
    ensures { result ≡ is_even_in leaving.now }
{
    match leaving {
        Some(leaving) => leaving.is_even(),
        None => true,
    }
}

// The queue of a side and a channel: through all lives, and in the life that runs, as far as the
// kind of its bearer has to be judged so.
#[derive(Default, Drop)]
pub(crate) struct Queue {
    all: Option<Leaving>,
    life: Option<Leaving>,
    begun: bool,
}

impl Model for Queue {
    ghost use Rattle.journal_queues.specs.Leaving.{Queue};

    ghost Value = { Queue };

    ghost view = { λ q. record {
      all = q.all;
      life = q.life;
      begun = q.begun;
    } };
}

// Behind an `Err` nothing is known of what is kept.
impl Queue {
    ghost use Rattle.journal_queues.specs.Leaving.{no_bearer, queue_told, queue_given};
    ghost use Rattle.journal_queues.specs.Leaving.{handed_over, begun_as, is_queue_right};

    // Before a bearer begins.
    pub(crate) fn new(alloc: Global) -> Queue
        ensures { result ≡ no_bearer }
    {
        Queue {
            all: Some(Leaving::new(alloc)),
            life: Some(Leaving::new(alloc)),
            begun: false,
        }
    }

    // An SDU is told of as it leaves the queue.
    pub(crate) fn tell(&mut self, len: u64) -> Result<(), NoMemory>
        ensures { OnOk result (self.new ≡ queue_told len self.old) }
    {
        tell_in(&mut self.all, len)?;
        tell_in(&mut self.life, len)
    }

    pub(crate) fn submit(&mut self, len: u64) -> Result<(), NoMemory>
        ensures { OnOk result (self.new ≡ queue_given len self.old) }
    {
        submit_in(&mut self.all, len)?;
        submit_in(&mut self.life, len)
    }

    // Another life begins.
    pub(crate) fn hand_over(&mut self, alloc: Global)
        ensures { self.new ≡ handed_over self.old }
    {
        if self.life.is_some() {
            self.life = Some(Leaving::new(alloc));
        }
    }

    // A bearer of a kind begins. The SDUs of an acknowledged one are taken again in later lives.
    pub(crate) fn begin(&mut self, kind: Kind)
        ensures { self.new ≡ begun_as kind self.old }
    {
        self.begun = true;
        match kind {
            Kind::Um => self.life = None,
            Kind::Tm | Kind::Srb => self.all = None,
            Kind::Am => {
                self.all = None;
                self.life = None;
            }
        }
    }

    // Where a bearer has begun, those that left it are the first that were submitted.
    pub(crate) fn is_right(&self) -> bool
        ensures { result ≡ is_queue_right self.now }
    {
        !self.begun || (is_even_in(&self.all) && is_even_in(&self.life))
    }
}
