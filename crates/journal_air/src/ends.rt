// The HARQ processes at both ends of a direction.
ghost use Rattle.std.specs.Prelude.{◌≡◌, ◌<◌, [], unwrap_or};
ghost use Rattle.std.specs.Str.{bytes_eq};
ghost use Rattle.harq.specs.Sending.{held_of};
ghost use Rattle.harq.specs.SendHistory.{turned};
ghost use Rattle.promises.specs.Flights.{feedback};
ghost use Rattle.promises.specs.Awards.{grant_brought};
ghost use Rattle.promises.specs.Heard.{is_miss};
ghost use Rattle.journal_air.specs.Ends.{is_sent, is_read, can_come_down, comes_up, is_nothing};
ghost use Rattle.journal_air.specs.Ends.{after_seeing, is_answered, is_unheard};
ghost use Rattle.journal_air.specs.Ends.{is_handed_up, is_known, is_silent, turn_with};

use crate::told::{AirTold, BlockTold, WayTold};
use air_record::{Arrived, Fate, Outcome};
use harq::{Answer, Order, Receiver, Sender, Visit};
use std::marker::Model;

// The feedback that is sent on what came.
fn feedback(what: Arrived) -> bool
    ensures { result ≡ feedback what }
{
    match what {
        Arrived::Got | Arrived::Dup => true,
        Arrived::Bad | Arrived::Nothing => false,
    }
}

// Whether the feedback is read as the outcome has it.
fn is_read(outcome: Outcome, air: &AirTold) -> bool
    ensures { result ≡ is_read outcome air.now air.now.heard }
{
    match air.heard {
        Some(good) => good == (outcome.flipped != feedback(air.what)),
        None => false,
    }
}

fn is_unheard(heard: Option<bool>) -> bool
    ensures { result ≡ is_unheard heard }
{
    heard.is_none()
}

fn can_come_down(fate: Fate, what: Arrived) -> bool
    ensures { result ≡ can_come_down fate what }
{
    match fate {
        Fate::Ok => match what {
            Arrived::Got | Arrived::Dup => true,
            Arrived::Bad | Arrived::Nothing => false,
        },
        Fate::Bad => match what {
            Arrived::Bad => true,
            Arrived::Got | Arrived::Dup | Arrived::Nothing => false,
        },
        Fate::Miss => is_nothing(what),
    }
}

fn is_nothing(what: Arrived) -> bool
    ensures { result ≡ is_nothing what }
{
    match what {
        Arrived::Nothing => true,
        Arrived::Got | Arrived::Dup | Arrived::Bad => false,
    }
}

fn comes_up(fate: Fate, what: Arrived) -> bool
    ensures { result ≡ comes_up fate what }
{
    match fate {
        Fate::Ok | Fate::Miss => match what {
            Arrived::Got => true,
            Arrived::Dup | Arrived::Bad | Arrived::Nothing => false,
        },
        Fate::Bad => match what {
            Arrived::Bad => true,
            Arrived::Got | Arrived::Dup | Arrived::Nothing => false,
        },
    }
}

fn is_miss(fate: Fate) -> bool
    ensures { result ≡ is_miss fate }
{
    match fate {
        Fate::Miss => true,
        Fate::Ok | Fate::Bad => false,
    }
}

// Whether a process holds these octets.
fn holds(sender: &Sender, process: u32, octets: &[u8]) -> bool
    requires { process < 8 }
    ensures { result ≡ bytes_eq (unwrap_or (held_of sender.now process) []) octets.now }
{
    match sender.held(process) {
        Some(held) => held == octets,
        None => octets.is_empty(),
    }
}

// A block goes out: whether it is told as the sender sends it.
fn goes_out(sender: &mut Sender, tti: u64, order: Order, block: BlockTold, good: bool) -> bool
    ensures sender { sender.new ≡ turned (turn_with tti order block.octets good) sender.old }
    ensures right { result ≡ is_sent tti order block sender.old }
{
    let process = (tti % 8) as u32;
    let is_own = block.process == process;
    match sender.visit(tti, order) {
        Visit::New => {
            let is_new = block.fresh && block.rv == 0;
            sender.load(tti, block.octets);
            sender.feedback(tti, good);
            is_own && is_new
        }
        Visit::Resend { rv } => {
            let is_same = holds(sender, process, block.octets.as_slice());
            let is_again = !block.fresh && block.rv == rv && is_same;
            sender.feedback(tti, good);
            is_own && is_again
        }
        Visit::Silent => false,
    }
}

// Whether the terminal answers a block as is told.
fn is_answered(receiver: &mut Receiver, tti: u64, ndi: bool, what: Arrived) -> bool
    ensures receiver { receiver.new ≡ after_seeing tti ndi what receiver.old }
    ensures right { result ≡ is_answered tti ndi what receiver.old }
{
    match what {
        Arrived::Got => is_handed_up(receiver.assigned(tti, ndi, true)),
        Arrived::Dup => is_known(receiver.assigned(tti, ndi, true)),
        Arrived::Bad => {
            let _answer = receiver.assigned(tti, ndi, false);
            true
        }
        Arrived::Nothing => true,
    }
}

fn is_handed_up(answer: Answer) -> bool
    ensures { result ≡ is_handed_up answer }
{
    match answer {
        Answer::Up => true,
        Answer::Again | Answer::Damaged | Answer::Nothing => false,
    }
}

fn is_known(answer: Answer) -> bool
    ensures { result ≡ is_known answer }
{
    match answer {
        Answer::Again => true,
        Answer::Up | Answer::Damaged | Answer::Nothing => false,
    }
}

fn is_silent(visit: Visit) -> bool
    ensures { result ≡ is_silent visit }
{
    match visit {
        Visit::Silent => true,
        Visit::New => false,
        Visit::Resend { rv: _ } => false,
    }
}

// What a grant brought, of what is told to have come of it.
fn grant_brought(what: Arrived) -> Option<bool>
    ensures { result ≡ grant_brought what }
{
    match what {
        Arrived::Got | Arrived::Dup => Some(true),
        Arrived::Bad => Some(false),
        Arrived::Nothing => None,
    }
}

// The sender and the receiver of a direction.
#[derive(Drop)]
pub(crate) struct Ends {
    sender: Sender,
    receiver: Receiver,
}

impl Model for Ends {
    ghost use Rattle.journal_air.specs.Ends.{BothEnds as Both};

    ghost Value = { Both };

    ghost view = { λ e. record { sender = e.sender; receiver = e.receiver } };
}

impl Ends {
    ghost use Rattle.journal_air.specs.Ends.{fresh_ends, reset_ends, sent_down, is_sent_down};
    ghost use Rattle.journal_air.specs.Ends.{after_down, is_down_right, sent_up, is_sent_up};
    ghost use Rattle.journal_air.specs.Ends.{unanswered, is_unanswered, after_up, is_up_right};
    ghost use Rattle.journal_air.specs.Ends.{after_grant_of, order_seen};

    pub(crate) fn new(maximum: u32) -> Ends
        ensures { result ≡ fresh_ends maximum }
    {
        Ends {
            sender: Sender::new(maximum),
            receiver: Receiver::new(maximum),
        }
    }

    pub(crate) fn reset(&mut self)
        ensures { self.new ≡ reset_ends self.old }
    {
        self.sender.reset();
        self.receiver.reset();
    }

    fn sent_down(&mut self, tti: u64, outcome: Outcome, block: BlockTold, air: AirTold) -> bool
        ensures ends { self.new ≡ sent_down tti block air self.old }
        ensures right { result ≡ is_sent_down tti outcome block air self.old }
    {
        let good = air.heard == Some(true);
        let is_sent = goes_out(&mut self.sender, tti, Order::Free, block, good);
        let ndi = self.sender.ndi(tti % 8);
        let is_answered = is_answered(&mut self.receiver, tti, ndi, air.what);
        is_sent && can_come_down(outcome.fate, air.what) && is_read(outcome, &air) && is_answered
    }

    // A TTI of the downlink: whether what is told of it is right.
    pub(crate) fn down(&mut self, tti: u64, grant: u32, outcome: Outcome, told: WayTold) -> bool
        ensures ends { self.new ≡ after_down tti told.block told.air self.old }
        ensures right { result ≡ is_down_right tti grant outcome told.block told.air self.old }
    {
        let WayTold { block, air } = told;
        match (block, air) {
            (None, None) => {
                let _visit = self.sender.visit(tti, Order::Silent);
                grant == 0
            }
            (Some(block), Some(air)) => {
                let is_right = self.sent_down(tti, outcome, block, air);
                grant != 0 && is_right
            }
            (None, Some(_)) => false,
            (Some(_), None) => false,
        }
    }

    fn order(&mut self, tti: u64, outcome: Outcome, good: Option<bool>) -> Order
        ensures receiver { self.new ≡ after_grant_of tti good self.old }
        ensures order { result ≡ order_seen tti outcome self.old.receiver }
    {
        let ndi = self.receiver.grant(tti);
        let _answer = self.receiver.granted(tti, good);
        if is_miss(outcome.fate) {
            Order::Unseen
        } else {
            Order::Grant { ndi }
        }
    }

    fn sent_up(&mut self, tti: u64, outcome: Outcome, block: BlockTold, air: AirTold) -> bool
        ensures ends { self.new ≡ sent_up tti outcome block air self.old }
        ensures right { result ≡ is_sent_up tti outcome block air self.old }
    {
        let order = self.order(tti, outcome, grant_brought(air.what));
        let good = air.heard == Some(true);
        let is_sent = goes_out(&mut self.sender, tti, order, block, good);
        is_sent && comes_up(outcome.fate, air.what) && is_read(outcome, &air)
    }

    fn unanswered(&mut self, tti: u64, outcome: Outcome, air: AirTold) -> bool
        ensures ends { self.new ≡ unanswered tti self.old }
        ensures right { result ≡ is_unanswered tti outcome air self.old }
    {
        let _order = self.order(tti, outcome, None);
        let visit = self.sender.visit(tti, Order::Unseen);
        is_silent(visit) && is_miss(outcome.fate) && is_nothing(air.what) && is_unheard(air.heard)
    }

    // A TTI of the uplink: whether what is told of it is right.
    pub(crate) fn up(&mut self, tti: u64, grant: u32, outcome: Outcome, told: WayTold) -> bool
        ensures ends { self.new ≡ after_up tti outcome told.block told.air self.old }
        ensures right { result ≡ is_up_right tti grant outcome told.block told.air self.old }
    {
        let WayTold { block, air } = told;
        match (block, air) {
            (None, None) => {
                let _visit = self.sender.visit(tti, Order::Silent);
                self.receiver.pass(tti);
                grant == 0
            }
            (Some(block), Some(air)) => {
                let is_right = self.sent_up(tti, outcome, block, air);
                grant != 0 && is_right
            }
            (None, Some(air)) => {
                let is_right = self.unanswered(tti, outcome, air);
                grant != 0 && is_right
            }
            (Some(_), None) => false,
        }
    }
}
