// A visit of a HARQ process that sends.
ghost use Rattle.std.specs.Prelude.{◌≡◌, ◌≤◌, ◌<◌, ◌+◌, [], length, OnOk, IfOk};
ghost use Rattle.harq.specs.Sending.{ndi_of};
ghost use Rattle.prioritise.specs.Shares.{after_allot};
ghost use Rattle.bearer_types.specs.Sides.{sent_by};
ghost use Rattle.l2_node.specs.Writing.{taken_up, need_at, needs, all_needs, filled, written};
ghost use Rattle.l2_node.specs.Writing.{nothing_written};
ghost use Rattle.l2_node.specs.Building.{IsEnough, visit, visited, loaded, built, building};

use crate::end::End;
use crate::finding::{Holding, find};
use crate::node::Built;
use crate::reporting::padding_report;
use crate::writing::{NewBlock, write_all};
use bearer::{Bearer, Events, Running};
use harq::{Order, Visit};
use l2_bits::{Bytes, NoMemory};
use l2_types::GREATEST_GRANT;
use mac_pdu::{Control, MacBuilder};

impl End {
    // A process is visited: a new block is built, the held one is sent again, or nothing is sent.
    #[tactic(auto, using(crate::proofs::Enough::new_enough), unfolding(crate::specs::Building::built, crate::specs::Building::building, crate::specs::Building::visited))]
    pub fn build(&mut self, tti: u64, grant: u32, order: Order) -> Result<Built, NoMemory>
        requires grant { grant ≤ GREATEST_GRANT }
        requires some { IsEnough order grant }
        ensures end { OnOk result (self.new ≡ built tti grant order self.old) }
        ensures visit { IfOk result (λ b. b.visit ≡ visit tti order self.old) }
        ensures ndi { IfOk result (λ b. b.ndi ≡ ndi_of self.new.sender tti) }
        ensures events { IfOk result (λ b. b.events ≡ building tti grant order self.old) }
    {
        let visit = self.sender.visit(tti, order);
        let events = match visit {
            Visit::New => self.load(tti, grant)?,
            Visit::Resend { .. } => Events::new(self.alloc),
            Visit::Silent => Events::new(self.alloc),
        };
        let ndi = self.sender.ndi(tti);
        Ok(Built { visit, ndi, events })
    }

    // A new block is built and loaded.
    #[tactic(auto, unfolding(crate::specs::Building::loaded, crate::specs::Writing::new_block, prioritise::specs::Shares::after_allot))]
    fn load(&mut self, tti: u64, grant: u32) -> Result<Events, NoMemory>
        requires grant { grant ≤ GREATEST_GRANT }
        requires some { 1 ≤ grant }
        ensures end { OnOk result (self.new ≡ loaded tti grant self.old) }
        ensures events { IfOk result (λ events. events ≡ (written self.old grant).block.events) }
    {
        let mut block = NewBlock::new(self.alloc, self.side);
        self.write(grant, &mut block)?;
        self.numbers.rows[(tti % 8) as usize] = block.numbers;
        let NewBlock {
            builder,
            numbers: _,
            events,
        } = block;
        let octets = self.finish(builder, grant)?;
        self.sender.load(tti, octets);
        Ok(events)
    }

    // The bearers write within their shares of a grant, into a block that has nothing as yet.
    #[tactic(auto, unfolding(crate::specs::Writing::shares, crate::specs::Writing::written, crate::specs::Writing::needs, prioritise::specs::Shares::after_allot))]
    fn write(&mut self, grant: u32, block: &mut NewBlock) -> Result<(), NoMemory>
        requires grant { grant ≤ GREATEST_GRANT }
        requires new { block.old ≡ nothing_written self.old.side }
        ensures end { OnOk result (self.new ≡ record self.old {
          bearers = (written self.old grant).bearers;
          buckets = after_allot self.old.buckets (needs self.old grant) (grant + 2);
        }) }
        ensures block { OnOk result (block.new ≡ (written self.old grant).block) }
        ensures direction { OnOk result (block.new.parts.direction ≡ sent_by self.old.side) }
        ensures plain { OnOk result (block.new.parts.controls ≡ []) }
        ensures room { OnOk result (taken_up block.new.parts.sdus ≤ grant + 2) }
    {
        let mut needs = [0; 11];
        self.reckon(grant, &mut needs);
        let shares = self.buckets.allot(&needs, grant + 2);
        write_all(
            &Holding::new(&self.sender, &self.numbers.rows),
            &shares,
            self.buckets.channels(),
            &mut self.bearers,
            block,
        )
    }

    // Reckons what the bearers need of a grant, by LCID.
    fn reckon(&self, grant: u32, by_lcid: &mut [u32; 11])
        ensures { by_lcid.new ≡ all_needs self.now grant self.now.buckets.channels by_lcid.old }
    {
        let holding = Holding::new(&self.sender, &self.numbers.rows);
        for channel in self.buckets.channels() {
            let lcid = channel.lcid;
            let held = holding.lowest(lcid);
            by_lcid[lcid as usize] = need_of(self.bearers.as_slice(), lcid, grant, held);
        }
    }

    // The block of SDUs, with a report of what is left behind them, of the grant's size.
    #[tactic(auto, unfolding(crate::specs::Writing::filled))]
    fn finish(&self, mut builder: MacBuilder, grant: u32) -> Result<Bytes, NoMemory>
        requires grant { grant ≤ GREATEST_GRANT }
        requires some { 1 ≤ grant }
        requires direction { builder.direction ≡ sent_by self.now.side }
        requires plain { builder.controls ≡ [] }
        requires room { taken_up builder.sdus ≤ grant + 2 }
        ensures size { IfOk result (λ octets. length octets ≡ grant) }
        ensures block { IfOk result (λ octets. octets
            ≡ filled self.now.side self.now.reports self.now.bearers self.now.buckets.channels grant
            builder) }
    {
        let padding = grant.saturating_sub(builder.least());
        let report = padding_report(
            self.side,
            self.reports,
            self.bearers.as_slice(),
            self.buckets.channels(),
            padding,
        );
        if let Some(report) = report {
            builder.control(&Control::Report(report))?;
        }
        match builder.build(grant) {
            Ok(octets) => Ok(octets),
            Err((_builder, no_memory)) => Err(no_memory),
        }
    }
}

// What the bearer of a channel needs of a grant; nothing where there is none.
fn need_of(bearers: &[Bearer<Running>], lcid: u8, grant: u32, held: Option<u64>) -> u32
    ensures { result ≡ need_at bearers.now lcid grant held }
{
    let at = find(lcid, bearers);
    if at < bearers.len() {
        return bearers[at].need(grant, held);
    }
    0
}
