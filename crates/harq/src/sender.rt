// The processes of one direction, at its sender.
ghost use Rattle.std.specs.Prelude.{◌≡◌, ◌<◌, ◌^◌, ◌==◌, length, option_copied, option_map, IfSome};
ghost use Rattle.l2_bits.specs.declared.limits.TheConstants.{OCTETS_LIMIT};

use arrayvec::ArrayVec;
use l2_bits::Bytes;
use std::marker::Model;

/// What a visit of a process finds.
#[derive(Clone, Copy, Debug, PartialEq, Eq)]
pub enum Order {
    /// Nothing is granted.
    Silent,
    /// A grant that the terminal doesn't see.
    Unseen,
    /// The downlink's order: a block that is held is sent again, else a new one.
    Free,
    /// A grant that the terminal sees, with its NDI.
    Grant { ndi: bool },
}

/// What a visit sends.
#[derive(Clone, Copy, Debug, PartialEq, Eq)]
pub enum Visit {
    /// A new block, which `Sender::load` brings. Its redundancy version is 0.
    New,
    /// The block that is held, with this redundancy version.
    Resend { rv: u8 },
    /// Nothing.
    Silent,
}

// The redundancy versions of a block's sendings, over and over.
const VERSIONS: [u8; 4] = [0, 2, 3, 1];

// A block that a process holds.
#[derive(Drop)]
struct Load {
    octets: Bytes,
    // Visits that are left after this one.
    left: u32,
    // Sendings so far, modulo 4.
    sent: u8,
}

impl Model for Load {
    ghost use Rattle.l2_bits.specs.declared.limits.TheConstants.{OCTETS_LIMIT};
    ghost use Rattle.std.specs.Prelude.{◌<◌, ◌^◌, length};
    ghost use Rattle.harq.specs.Sending.{Block, block};

    ghost Value = { Block };

    ghost view = { λ l. block l.octets l.left l.sent };

    ghost invariant = { λ l. (l.sent < 4) × (length l.octets < OCTETS_LIMIT) };
}

impl Load {
    ghost use Rattle.harq.specs.Sending.{resent, waited, version_of};

    fn resend(&mut self) -> u8
        ensures block { self.new ≡ resent self.old }
        ensures version { result ≡ version_of self.old.sent }
    {
        let version = VERSIONS[self.sent as usize];
        self.sent = (self.sent + 1) % 4;
        self.left = self.left.saturating_sub(1);
        version
    }

    fn wait(&mut self)
        ensures { self.new ≡ waited self.old }
    {
        self.left = self.left.saturating_sub(1);
    }

    fn is_spent(&self) -> bool
        ensures { result ≡ (self.now.left == 0) }
    {
        self.left == 0
    }
}

#[derive(Drop)]
struct Process {
    held: Option<Load>,
    // Downlink: the NDI of the last block. Uplink: the last NDI seen.
    ndi: bool,
}

impl Model for Process {
    ghost use Rattle.harq.specs.Sending.{SendProcess, send_process};

    ghost Value = { SendProcess };

    ghost view = { λ p. send_process p.held p.ndi };
}

impl Default for Process {
    ghost use Rattle.harq.specs.Sending.{empty};

    fn default() -> Process
        ensures { result ≡ empty }
    {
        Process {
            held: None,
            ndi: false,
        }
    }
}

impl Process {
    ghost use Rattle.harq.specs.Sending.{visited, answered, loaded, fed, waited_for, sent_again};
    ghost use Rattle.harq.specs.Sending.{resend_or, toggled, seen, spent};

    fn visit(&mut self, order: Order) -> Visit
        ensures process { self.new ≡ visited order self.old }
        ensures answer { result ≡ answered order self.old }
    {
        match order {
            Order::Silent => {
                self.wait();
                self.end();
                Visit::Silent
            }
            Order::Unseen => self.resend_or(Visit::Silent),
            Order::Free => {
                self.toggle();
                self.resend_or(Visit::New)
            }
            Order::Grant { ndi } => {
                self.see(ndi);
                self.resend_or(Visit::New)
            }
        }
    }

    fn load(&mut self, maximum: u32, octets: Bytes)
        requires { length octets < OCTETS_LIMIT }
        ensures { self.new ≡ loaded maximum octets self.old }
    {
        self.held = Some(Load {
            octets,
            left: maximum.saturating_sub(1),
            sent: 1,
        });
    }

    fn feed(&mut self, good: bool)
        ensures { self.new ≡ fed good self.old }
    {
        if good {
            self.held = None;
        } else {
            self.end();
        }
    }

    // A visit that sends nothing counts too.
    fn wait(&mut self)
        ensures { self.new ≡ waited_for self.old }
    {
        if let Some(load) = &mut self.held {
            load.wait();
        }
    }

    // Sends the block again that is held, and answers `otherwise` where none is.
    fn resend_or(&mut self, otherwise: Visit) -> Visit
        ensures process { self.new ≡ sent_again self.old }
        ensures answer { result ≡ resend_or otherwise self.old.held }
    {
        match &mut self.held {
            Some(load) => Visit::Resend { rv: load.resend() },
            None => otherwise,
        }
    }

    // A new downlink block toggles the NDI.
    fn toggle(&mut self)
        ensures { self.new ≡ toggled self.old }
    {
        if self.held.is_none() {
            self.ndi = !self.ndi;
        }
    }

    // A grant with another NDI than the last one seen wants a new block.
    fn see(&mut self, ndi: bool)
        ensures { self.new ≡ seen ndi self.old }
    {
        if ndi != self.ndi {
            self.held = None;
            self.ndi = ndi;
        }
    }

    // The block's last visit empties the process.
    fn end(&mut self)
        ensures { self.new ≡ spent self.old }
    {
        let is_spent = match &self.held {
            Some(load) => load.is_spent(),
            None => false,
        };
        if is_spent {
            self.held = None;
        }
    }

    fn octets(&self) -> Option<&[u8]>
        ensures short { IfSome result (λ octets. length octets.now < OCTETS_LIMIT) }
        ensures octets { option_copied result ≡ option_map (λ b. b.octets) self.now.held }
    {
        match &self.held {
            Some(load) => Some(load.octets.as_slice()),
            None => None,
        }
    }
}

/// The eight processes of one direction, at its sender.
#[derive(Drop)]
pub struct Sender {
    maximum: u32,
    processes: ArrayVec<Process, 8>,
}

impl Model for Sender {
    ghost use Rattle.std.specs.Prelude.{◌≡◌, length};
    ghost use Rattle.harq.specs.Sending.{Sending, sending};

    ghost Value = { Sending };

    ghost view = { λ s. sending s.maximum s.processes.items };

    ghost invariant = { λ s. length s.processes.items ≡ 8 };
}

impl Sender {
    ghost use Rattle.harq.specs.Sending.{fresh, after_visit, visit_answer, after_load};
    ghost use Rattle.harq.specs.Sending.{after_feedback, ndi_of, held_of};

    /// Empty processes with the NDI 0, whose blocks have at most `maximum` visits, 1 to 28.
    #[tactic(auto, unfolding(crate::specs::Sending::fresh))]
    pub fn new(maximum: u32) -> Sender
        ensures { result ≡ fresh maximum }
    {
        let mut processes = ArrayVec::new();
        for _i in 0..8u32 {
            processes.push(Process::default());
        }
        Sender { maximum, processes }
    }

    /// Visits the process of a TTI. `load` is to follow `New`, and `feedback` each sending.
    #[tactic(auto, unfolding(crate::specs::Sending::after_visit, crate::specs::Sending::visit_answer))]
    pub fn visit(&mut self, tti: u64, order: Order) -> Visit
        ensures processes { self.new ≡ after_visit self.old tti order }
        ensures answer { result ≡ visit_answer self.old tti order }
    {
        let process = &mut self.processes[(tti % 8) as usize];
        process.visit(order)
    }

    /// Brings the new block of the TTI's visit, which is its first. It has fewer than 2^28 octets.
    #[tactic(auto, unfolding(crate::specs::Sending::after_load))]
    pub fn load(&mut self, tti: u64, block: Bytes)
        requires { length block < OCTETS_LIMIT }
        ensures { self.new ≡ after_load self.old tti block }
    {
        let maximum = self.maximum;
        let process = &mut self.processes[(tti % 8) as usize];
        process.load(maximum, block);
    }

    /// The feedback on the TTI's sending, as the sender reads it: a good one empties the process,
    /// and so does the last visit.
    #[tactic(auto, unfolding(crate::specs::Sending::after_feedback))]
    pub fn feedback(&mut self, tti: u64, good: bool)
        ensures { self.new ≡ after_feedback self.old tti good }
    {
        let process = &mut self.processes[(tti % 8) as usize];
        process.feed(good);
    }

    /// The NDI of the TTI's process: of its last block on the downlink, the last one seen on the
    /// uplink.
    #[tactic(auto, unfolding(crate::specs::Sending::ndi_of))]
    pub fn ndi(&self, tti: u64) -> bool
        ensures { result ≡ ndi_of self.now tti }
    {
        let process = &self.processes[(tti % 8) as usize];
        process.ndi
    }

    /// The block that a process below 8 holds; None exactly where it is empty.
    #[tactic(auto, unfolding(crate::specs::Sending::held_of))]
    pub fn held(&self, process: u32) -> Option<&[u8]>
        requires { process < 8 }
        ensures short { IfSome result (λ block. length block.now < OCTETS_LIMIT) }
        ensures block { option_copied result ≡ held_of self.now process }
    {
        let process = &self.processes[process as usize];
        process.octets()
    }

    /// Empties all processes and sets their NDIs to 0, as a MAC reset does.
    #[tactic(auto, unfolding(crate::specs::Sending::fresh))]
    pub fn reset(&mut self)
        ensures { self.new ≡ fresh self.old.maximum }
    {
        let fresh = Sender::new(self.maximum);
        *self = fresh;
    }
}
