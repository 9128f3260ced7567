// The downlink of a TTI.
ghost use Rattle.std.specs.Prelude.{◌≡◌, ◌≤◌, ◌<◌, ◌^◌, ◌%◌, length, OnOk, IfOk};
ghost use Rattle.harq.specs.Receiving.{assigned_answer};
ghost use Rattle.l2_node.specs.Building.{IsEnough, visit, building};
ghost use Rattle.l2_node.specs.Hearing.{received};
ghost use Rattle.bearer_types.specs.Sides.{sent_by};
ghost use Rattle.air_link.specs.Link.{says, end_of, with_end};
ghost use Rattle.air_link.specs.Downlink.{visits, builds, built_ndi, receives, block_at, shows};
ghost use Rattle.air_link.specs.Downlink.{sends, hears, feeds, told_as, is_good, saw_new};
ghost use Rattle.air_link.specs.Downlink.{first_seen, decoded, damaged, sees, assigned, answer};
ghost use Rattle.air_link.specs.Downlink.{comes, hears_by, aired, lands, unseen, goes_down};
ghost use Rattle.air_link.specs.Downlink.{down_order, down_by, downlink};
ghost use Rattle.air_record.specs.Outcomes.{turned};
ghost use Rattle.l2_bits.specs.declared.limits.TheConstants.{OCTETS_LIMIT};

use crate::link::Link;
use air_record::{Arrived, Fate, Outcome, Record};
use bearer::{Events, Side};
use harq::{Answer, Order, Visit};
use l2_bits::{Bytes, NoMemory};
use l2_node::{Attached, Built, Node, sent_by};
use l2_types::GREATEST_GRANT;
use mac_pdu::Direction;
use pdu_show::show_onto;

impl Link {
    // The base station visits the process of a TTI, and its block goes over the air.
    #[tactic(auto, unfolding(crate::specs::Downlink::downlink))]
    pub(crate) fn downlink(
        &mut self,
        tti: u64,
        grant: u32,
        outcome: Outcome,
    ) -> Result<(), NoMemory>
        requires { grant ≤ GREATEST_GRANT }
        ensures { OnOk result (self.new ≡ downlink tti grant outcome self.old) }
    {
        let order = if grant == 0 {
            Order::Silent
        } else {
            Order::Free
        };
        let (visit, ndi) = self.build(Side::Nb, tti, grant, order)?;
        match visit {
            Visit::New => self.go_down(visit, tti, outcome, ndi),
            Visit::Resend { .. } => self.go_down(visit, tti, outcome, ndi),
            Visit::Silent => Ok(()),
        }
    }

    fn go_down(
        &mut self,
        visit: Visit,
        tti: u64,
        outcome: Outcome,
        ndi: bool,
    ) -> Result<(), NoMemory>
        ensures { OnOk result
            (self.new ≡ goes_down visit tti outcome ndi (block_at tti self.old.nb) self.old) }
    {
        let block = block_at(self.take_memory(), tti, &self.nb)?;
        self.unsee(visit, tti);
        self.send(visit, Side::Nb, tti, block.as_slice())?;
        self.land(tti, outcome, ndi, block.as_slice())?;
        self.keep_memory(block);
        Ok(())
    }

    // A new block wasn't seen.
    fn unsee(&mut self, visit: Visit, tti: u64)
        ensures { self.new ≡ unseen visit tti self.old }
    {
        match visit {
            Visit::New => self.seen[(tti % 8) as usize] = false,
            Visit::Resend { .. } => (),
            Visit::Silent => (),
        }
    }

    // What the terminal sees of a block, by its outcome.
    fn land(&mut self, tti: u64, outcome: Outcome, ndi: bool, block: &[u8]) -> Result<(), NoMemory>
        requires { length block.now < OCTETS_LIMIT }
        ensures { OnOk result (self.new ≡ lands tti outcome ndi block.now self.old) }
    {
        let answer = match outcome.fate {
            Fate::Miss => Answer::Nothing,
            Fate::Ok => self.assign(tti, ndi, true),
            Fate::Bad => self.assign(tti, ndi, false),
        };
        self.air(tti, outcome.flipped, answer, block)
    }

    fn assign(&mut self, tti: u64, ndi: bool, good: bool) -> Answer
        ensures link { self.new ≡ assigned tti ndi good self.old }
        ensures answer { result ≡ assigned_answer self.old.ue.receiver tti ndi good }
    {
        let answer = self.ue.assigned(tti, ndi, good);
        self.see(tti, good);
        answer
    }

    // The terminal sees a block, intact or damaged.
    fn see(&mut self, tti: u64, good: bool)
        ensures { self.new ≡ sees tti good self.old }
    {
        let process = (tti % 8) as usize;
        if !self.seen[process] {
            self.seen[process] = true;
            self.see_new(tti);
        }
        if let Some(drx) = &mut self.drx {
            if good {
                drx.decoded(tti);
            } else {
                drx.damaged(tti);
            }
        }
    }

    pub(crate) fn see_new(&mut self, tti: u64)
        ensures { self.new ≡ saw_new tti self.old }
    {
        if let Some(drx) = &mut self.drx {
            drx.saw_new(tti);
        }
    }

    // Feedback, the record of the air, and what the terminal makes of the block.
    fn air(&mut self, tti: u64, flipped: bool, answer: Answer, block: &[u8]) -> Result<(), NoMemory>
        requires { length block.now < OCTETS_LIMIT }
        ensures { OnOk result (self.new ≡ aired tti flipped answer block.now self.old) }
    {
        let heard = turned(flipped, is_good(answer));
        self.nb.feedback(tti, heard);
        self.say(Record::Air {
            direction: Direction::Down,
            what: told_as(answer),
            heard: Some(heard),
        })?;
        match answer {
            Answer::Up => self.hear(Side::Ue, block),
            Answer::Again => Ok(()),
            Answer::Damaged => Ok(()),
            Answer::Nothing => Ok(()),
        }
    }

    // ---- both directions

    // An end visits its process, and tells what its bearers do: what the visit was, and the NDI of
    // the process then.
    pub(crate) fn build(
        &mut self,
        side: Side,
        tti: u64,
        grant: u32,
        order: Order,
    ) -> Result<(Visit, bool), NoMemory>
        requires grant { grant ≤ GREATEST_GRANT }
        requires some { IsEnough order grant }
        ensures link { OnOk result (self.new ≡ builds side tti grant order self.old) }
        ensures visit { IfOk result (λ r. r.0 ≡ visit tti order (end_of side self.old)) }
        ensures ndi { IfOk result (λ r. r.1 ≡ built_ndi side tti grant order self.old) }
    {
        let Built { visit, ndi, events } = self.visit(side, tti, grant, order)?;
        self.tell_all(side, events)?;
        Ok((visit, ndi))
    }

    fn visit(&mut self, side: Side, tti: u64, grant: u32, order: Order) -> Result<Built, NoMemory>
        requires grant { grant ≤ GREATEST_GRANT }
        requires some { IsEnough order grant }
        ensures link { OnOk result (self.new ≡ visits side tti grant order self.old) }
        ensures visit { IfOk result (λ b. b.visit ≡ visit tti order (end_of side self.old)) }
        ensures ndi { IfOk result (λ b. b.ndi ≡ built_ndi side tti grant order self.old) }
        ensures told { IfOk result (λ b. b.events ≡ building tti grant order (end_of side self.old)) }
    {
        match side {
            Side::Nb => self.nb.build(tti, grant, order),
            Side::Ue => self.ue.build(tti, grant, order),
        }
    }

    // A block is sent for the first time, and shown, or again.
    pub(crate) fn send(
        &mut self,
        visit: Visit,
        side: Side,
        tti: u64,
        block: &[u8],
    ) -> Result<(), NoMemory>
        requires { length block.now < OCTETS_LIMIT }
        ensures { OnOk result (self.new ≡ sends visit side tti block.now self.old) }
    {
        let direction = sent_by(side);
        match visit {
            Visit::New => {
                self.say_block(direction, tti, true, 0, block)?;
                show_onto(self.alloc, &mut self.out, direction, &self.kinds, block)
            }
            Visit::Resend { rv } => self.say_block(direction, tti, false, rv, block),
            Visit::Silent => Ok(()),
        }
    }

    fn say_block(
        &mut self,
        direction: Direction,
        tti: u64,
        fresh: bool,
        rv: u8,
        block: &[u8],
    ) -> Result<(), NoMemory>
        ensures { OnOk result
            (self.new ≡ says (Record.Block direction (tti % 8) fresh rv block.now) self.old) }
    {
        let mut octets = self.take_memory();
        octets.clear();
        octets.append(block)?;
        self.say(Record::Block {
            direction,
            process: (tti % 8) as u32,
            fresh,
            rv,
            octets,
        })
    }

    // An end hears a block.
    pub(crate) fn hear(&mut self, side: Side, block: &[u8]) -> Result<(), NoMemory>
        requires { length block.now < OCTETS_LIMIT }
        ensures { OnOk result (self.new ≡ hears side block.now self.old) }
    {
        let events = self.receive(side, block)?;
        self.tell_all(side, events)
    }

    fn receive(&mut self, side: Side, block: &[u8]) -> Result<Events, NoMemory>
        requires { length block.now < OCTETS_LIMIT }
        ensures link { OnOk result (self.new ≡ receives side block.now self.old) }
        ensures told { IfOk result (λ events. events
            ≡ (received (end_of side self.old) block.now).events) }
    {
        match side {
            Side::Nb => self.nb.receive(block),
            Side::Ue => self.ue.receive(block),
        }
    }
}

// A copy of the block that a process of a TTI holds, in place of what the memory for it holds.
pub(crate) fn block_at(memory: Bytes, tti: u64, node: &Node<Attached>) -> Result<Bytes, NoMemory>
    ensures block { IfOk result (λ block. block ≡ block_at tti node.now.end) }
    ensures short { IfOk result (λ block. length block < OCTETS_LIMIT) }
{
    let mut block = memory;
    block.clear();
    if let Some(held) = node.held((tti % 8) as u32) {
        block.append(held)?;
    }
    Ok(block)
}

// Feedback as the sender reads it.
pub(crate) fn turned(flipped: bool, good: bool) -> bool
    ensures { result ≡ turned flipped good }
{
    if flipped { !good } else { good }
}

fn is_good(answer: Answer) -> bool
    ensures { result ≡ is_good answer }
{
    match answer {
        Answer::Up => true,
        Answer::Again => true,
        Answer::Damaged => false,
        Answer::Nothing => false,
    }
}

fn told_as(answer: Answer) -> Arrived
    ensures { result ≡ told_as answer }
{
    match answer {
        Answer::Up => Arrived::Got,
        Answer::Again => Arrived::Dup,
        Answer::Damaged => Arrived::Bad,
        Answer::Nothing => Arrived::Nothing,
    }
}
