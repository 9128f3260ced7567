// The processes of one direction, at its receiver.
ghost use Rattle.std.specs.Prelude.{◌≡◌};

use arrayvec::ArrayVec;
use std::marker::Model;

/// What came of a visit at the receiver.
#[derive(Clone, Copy, Debug, PartialEq, Eq)]
pub enum Answer {
    /// An intact block, which is to be handed up.
    Up,
    /// A block once more that was decoded before: it is acknowledged, and not handed up.
    Again,
    /// A damaged block.
    Damaged,
    /// Nothing was sent.
    Nothing,
}

#[derive(Drop)]
struct Process {
    // Downlink: the NDI of the last block seen, and whether one with it was decoded.
    seen: Option<bool>,
    decoded: bool,
    // Uplink: the NDI of the last award, and the visits that it has left, 0 where none is awaited.
    ndi: bool,
    left: u32,
}

impl Model for Process {
    ghost use Rattle.harq.specs.Receiving.{ReceiveProcess, receive_process};

    ghost Value = { ReceiveProcess };

    ghost view = { λ p. receive_process p.seen p.decoded p.ndi p.left };
}

impl Default for Process {
    ghost use Rattle.harq.specs.Receiving.{blank};

    fn default() -> Process
        ensures { result ≡ blank }
    {
        Process {
            seen: None,
            decoded: false,
            ndi: false,
            left: 0,
        }
    }
}

impl Process {
    ghost use Rattle.harq.specs.Receiving.{assigned_to, assigned_answered, awarded, passed};
    ghost use Rattle.harq.specs.Receiving.{arrived, arrived_answered};

    fn assigned(&mut self, ndi: bool, good: bool) -> Answer
        ensures process { self.new ≡ assigned_to ndi good self.old }
        ensures answer { result ≡ assigned_answered ndi good self.old }
    {
        let was_decoded = match self.seen {
            Some(seen) => ndi == seen && self.decoded,
            None => false,
        };
        self.seen = Some(ndi);
        self.decoded = was_decoded || good;
        if !good {
            Answer::Damaged
        } else if was_decoded {
            Answer::Again
        } else {
            Answer::Up
        }
    }

    fn grant(&mut self, maximum: u32) -> bool
        ensures process { self.new ≡ awarded maximum self.old }
        ensures ndi { result ≡ self.new.ndi }
    {
        if self.left == 0 {
            self.ndi = !self.ndi;
            self.left = maximum;
        }
        self.ndi
    }

    fn pass(&mut self)
        ensures { self.new ≡ passed self.old }
    {
        self.left = self.left.saturating_sub(1);
    }

    fn granted(&mut self, good: Option<bool>) -> Answer
        ensures process { self.new ≡ arrived good self.old }
        ensures answer { result ≡ arrived_answered good }
    {
        match good {
            Some(true) => {
                self.left = 0;
                Answer::Up
            }
            Some(false) => {
                self.pass();
                Answer::Damaged
            }
            None => {
                self.pass();
                Answer::Nothing
            }
        }
    }
}

/// The eight processes of one direction, at its receiver.
#[derive(Drop)]
pub struct Receiver {
    maximum: u32,
    processes: ArrayVec<Process, 8>,
}

impl Model for Receiver {
    ghost use Rattle.std.specs.Prelude.{◌≡◌, length};
    ghost use Rattle.harq.specs.Receiving.{Receiving, receiving};

    ghost Value = { Receiving };

    ghost view = { λ r. receiving r.maximum r.processes.items };

    ghost invariant = { λ r. length r.processes.items ≡ 8 };
}

impl Receiver {
    ghost use Rattle.harq.specs.Receiving.{fresh, after_assigned, assigned_answer, after_grant};
    ghost use Rattle.harq.specs.Receiving.{grant_ndi, after_granted, after_pass, arrived_answered};

    /// Processes that have seen nothing and await nothing, whose awards have at most `maximum`
    /// visits, 1 to 28.
    #[tactic(auto, unfolding(crate::specs::Receiving::fresh))]
    pub fn new(maximum: u32) -> Receiver
        ensures { result ≡ fresh maximum }
    {
        let mut processes = ArrayVec::new();
        for _i in 0..8u32 {
            processes.push(Process::default());
        }
        Receiver { maximum, processes }
    }

    /// Downlink: a block with this NDI is seen, intact or damaged. The first intact one after
    /// another NDI is handed up, and `Again` a further one.
    #[tactic(auto, unfolding(crate::specs::Receiving::after_assigned, crate::specs::Receiving::assigned_answer))]
    pub fn assigned(&mut self, tti: u64, ndi: bool, good: bool) -> Answer
        ensures processes { self.new ≡ after_assigned self.old tti ndi good }
        ensures answer { result ≡ assigned_answer self.old tti ndi good }
    {
        let process = &mut self.processes[(tti % 8) as usize];
        process.assigned(ndi, good)
    }

    /// Uplink: the NDI of a grant, which toggles where no block is awaited; one then is.
    #[tactic(auto, unfolding(crate::specs::Receiving::after_grant, crate::specs::Receiving::grant_ndi))]
    pub fn grant(&mut self, tti: u64) -> bool
        ensures processes { self.new ≡ after_grant self.old tti }
        ensures ndi { result ≡ grant_ndi self.old tti }
    {
        let maximum = self.maximum;
        let process = &mut self.processes[(tti % 8) as usize];
        process.grant(maximum)
    }

    /// Uplink: what the visit with the TTI's grant brought, intact, damaged or nothing. A block is
    /// awaited until it came intact or until the last visit.
    #[tactic(auto, unfolding(crate::specs::Receiving::after_granted))]
    pub fn granted(&mut self, tti: u64, good: Option<bool>) -> Answer
        ensures processes { self.new ≡ after_granted self.old tti good }
        ensures answer { result ≡ arrived_answered good }
    {
        let process = &mut self.processes[(tti % 8) as usize];
        process.granted(good)
    }

    /// Uplink: a visit with no grant.
    #[tactic(auto, unfolding(crate::specs::Receiving::after_pass))]
    pub fn pass(&mut self, tti: u64)
        ensures { self.new ≡ after_pass self.old tti }
    {
        let process = &mut self.processes[(tti % 8) as usize];
        process.pass();
    }

    /// Makes the next block of each process its first, sets the NDIs to 0 and awaits nothing, as a
    /// MAC reset does.
    #[tactic(auto, unfolding(crate::specs::Receiving::fresh))]
    pub fn reset(&mut self)
        ensures { self.new ≡ fresh self.old.maximum }
    {
        let fresh = Receiver::new(self.maximum);
        *self = fresh;
    }
}
