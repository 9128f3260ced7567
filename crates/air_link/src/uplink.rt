// The uplink of a TTI.
ghost use Rattle.std.specs.Prelude.{◌≡◌, ◌≤◌, ◌<◌, ◌^◌, length, OnOk, Some, None};
ghost use Rattle.harq.specs.Receiving.{grant_ndi, after_grant};
ghost use Rattle.l2_node.specs.Building.{IsEnough};
ghost use Rattle.air_link.specs.Downlink.{block_at};
ghost use Rattle.air_link.specs.Uplink.{up_order, is_intact, told_as, granted, hears_if, aired};
ghost use Rattle.air_link.specs.Uplink.{awake, goes_up, up_by, answers, grants, passes, uplink};
ghost use Rattle.l2_bits.specs.declared.limits.TheConstants.{OCTETS_LIMIT};

use crate::downlink::{block_at, turned};
use crate::link::Link;
use air_record::{Arrived, Fate, Outcome, Record};
use bearer::Side;
use harq::{Order, Visit};
use l2_bits::NoMemory;
use l2_types::GREATEST_GRANT;
use mac_pdu::Direction;

impl Link {
    // The base station grants the uplink of a TTI, and hears what comes.
    #[tactic(auto, unfolding(crate::specs::Uplink::uplink))]
    pub(crate) fn uplink(&mut self, tti: u64, grant: u32, outcome: Outcome) -> Result<(), NoMemory>
        requires { grant ≤ GREATEST_GRANT }
        ensures { OnOk result (self.new ≡ uplink tti grant outcome self.old) }
    {
        if grant == 0 {
            self.build(Side::Ue, tti, 0, Order::Silent)?;
            self.nb.pass(tti);
            return Ok(());
        }
        let ndi = self.nb.grant(tti);
        self.answer(tti, grant, up_order(outcome.fate, ndi), outcome)
    }

    // The terminal answers a grant.
    fn answer(
        &mut self,
        tti: u64,
        grant: u32,
        order: Order,
        outcome: Outcome,
    ) -> Result<(), NoMemory>
        requires grant { grant ≤ GREATEST_GRANT }
        requires some { IsEnough order grant }
        ensures { OnOk result (self.new ≡ answers tti grant order outcome self.old) }
    {
        let (visit, _ndi) = self.build(Side::Ue, tti, grant, order)?;
        match visit {
            Visit::New => self.go_up(visit, tti, outcome),
            Visit::Resend { .. } => self.go_up(visit, tti, outcome),
            Visit::Silent => {
                self.nb.granted(tti, None);
                self.say(Record::Air {
                    direction: Direction::Up,
                    what: Arrived::Nothing,
                    heard: None,
                })
            }
        }
    }

    fn go_up(&mut self, visit: Visit, tti: u64, outcome: Outcome) -> Result<(), NoMemory>
        ensures { OnOk result
            (self.new ≡ goes_up visit tti outcome (block_at tti self.old.ue) self.old) }
    {
        let block = block_at(self.take_memory(), tti, &self.ue)?;
        self.wake(visit, tti);
        self.send(visit, Side::Ue, tti, block.as_slice())?;
        self.come(
            tti,
            outcome.flipped,
            is_intact(outcome.fate),
            block.as_slice(),
        )?;
        self.keep_memory(block);
        Ok(())
    }

    // A new block keeps the terminal awake.
    fn wake(&mut self, visit: Visit, tti: u64)
        ensures { self.new ≡ awake visit tti self.old }
    {
        match visit {
            Visit::New => self.see_new(tti),
            Visit::Resend { .. } => (),
            Visit::Silent => (),
        }
    }

    // What came, feedback, the record of the air, and what the base station makes of the block.
    fn come(&mut self, tti: u64, flipped: bool, good: bool, block: &[u8]) -> Result<(), NoMemory>
        requires { length block.now < OCTETS_LIMIT }
        ensures { OnOk result (self.new ≡ aired tti flipped good block.now self.old) }
    {
        self.nb.granted(tti, Some(good));
        let heard = turned(flipped, good);
        self.ue.feedback(tti, heard);
        self.say(Record::Air {
            direction: Direction::Up,
            what: told_as(good),
            heard: Some(heard),
        })?;
        if good {
            return self.hear(Side::Nb, block);
        }
        Ok(())
    }
}

// The order of a grant, which a terminal that misses it doesn't see.
fn up_order(fate: Fate, ndi: bool) -> Order
    ensures { result ≡ up_order fate ndi }
{
    match fate {
        Fate::Ok => Order::Grant { ndi },
        Fate::Bad => Order::Grant { ndi },
        Fate::Miss => Order::Unseen,
    }
}

fn is_intact(fate: Fate) -> bool
    ensures { result ≡ is_intact fate }
{
    match fate {
        Fate::Bad => false,
        Fate::Ok => true,
        Fate::Miss => true,
    }
}

fn told_as(good: bool) -> Arrived
    ensures { result ≡ told_as good }
{
    if good { Arrived::Got } else { Arrived::Bad }
}
