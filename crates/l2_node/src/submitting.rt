// Bearers come, SDUs are submitted, sums are asked for.
ghost use Rattle.std.specs.Prelude.{◌≡◌, ◌<◌, None, true, OnOk, OnErr, IfErr};
ghost use Rattle.bearer_pdcp.specs.Submitting.{Answers, StaysOrDies};
ghost use Rattle.bearer_types.specs.Configs.{IsConfig};
ghost use Rattle.l2_node.specs.End.{with_bearer};
ghost use Rattle.l2_node.specs.Finding.{has};
ghost use Rattle.l2_node.specs.Submitting.{refusal, submitted, discarding};
ghost use Rattle.l2_node.specs.Sums.{all_left, left};

use crate::end::{End, add_channel};
use crate::finding::{find, place_of};
use bearer::{Bearer, BearerConfig, Running};
use eps_sec::Keys;
use l2_bits::{NoMemory, SubmitRefusal};

impl End {
    // A bearer more, with its channel.
    #[tactic(auto, unfolding(crate::specs::End::with_bearer))]
    pub fn add(&mut self, config: &BearerConfig, keys: &Keys) -> Result<(), NoMemory>
        requires { IsConfig config.now }
        ensures { OnOk result (self.new ≡ with_bearer config.now keys.now self.old) }
    {
        let bearer = Bearer::new(self.alloc, config, keys, self.side)?;
        let at = place_of(config.channel.lcid, self.bearers.as_slice());
        self.bearers.insert(at, bearer)?;
        add_channel(config.channel, &mut self.buckets);
        Ok(())
    }

    #[tactic(auto, unfolding(crate::specs::Submitting::refusal, crate::specs::Submitting::submitted))]
    pub fn submit(&mut self, lcid: u8, sdu: &[u8]) -> Result<(), SubmitRefusal>
        requires { has lcid self.old.bearers ≡ true }
        ensures fits { OnOk result (refusal lcid sdu.now self.old ≡ None) }
        ensures end { OnOk result (self.new ≡ submitted lcid sdu.now self.old) }
        ensures refused { IfErr result (λ e. StaysOrDies e (self.new ≡ self.old)) }
        ensures answer { IfErr result (λ e. Answers e (refusal lcid sdu.now self.old)) }
    {
        let at = find(lcid, self.bearers.as_slice());
        let bearer = &mut self.bearers[at];
        bearer.submit(sdu)
    }

    #[tactic(auto, unfolding(crate::specs::Submitting::discarding))]
    pub fn set_discard(&mut self, lcid: u8, ttis: u32)
        requires { has lcid self.old.bearers ≡ true }
        ensures { self.new ≡ discarding lcid ttis self.old }
    {
        let at = find(lcid, self.bearers.as_slice());
        let bearer = &mut self.bearers[at];
        bearer.set_discard(ttis);
    }

    #[tactic(auto, unfolding(crate::specs::Sums::left))]
    pub fn left(&self) -> u64
        ensures { result ≡ left self.now }
    {
        left_of(self.bearers.as_slice())
    }
}

fn left_of(bearers: &[Bearer<Running>]) -> u64
    ensures { result ≡ all_left bearers.now 0 }
{
    let mut sum = 0u64;
    for bearer in bearers {
        sum = sum.saturating_add(bearer.left());
    }
    sum
}
