ghost use Rattle.std.specs.Prelude.{◌≡◌, ◌≤◌, ◌-◌, ◌^◌, ◌==◌, ◌&&◌, not, min, Some, IfOk, IfErr};
ghost use Rattle.std.specs.Prelude.{OnOk};
ghost use Rattle.pdcp_pdu.specs.Kinds.{IsKind};
ghost use Rattle.pdcp_tx.specs.State.{refusal, submitted, left as pdcp_left};
ghost use Rattle.rlc_am_tx.specs.Need.{left as rlc_left};
ghost use Rattle.bearer_pdcp.specs.Submitting.{Answers, StaysOrDies};
ghost use Rattle.bearer.specs.Acknowledged.State.{fresh, has_more};
ghost use Rattle.bearer.specs.Acknowledged.Sums.{need, status_need, backlog, left, is_drained};

use bearer_pdcp::Pdcp;
use bearer_types::BearerConfig;
use eps_sec::Keys;
use l2_bits::{NoMemory, SubmitRefusal};
use l2_types::{AmRxConfig, AmTxConfig, Side};
use pdcp_pdu::PdcpKind;
use rlc_am_rx::AmRx;
use rlc_am_tx::AmTx;
use std::alloc::Global;
use std::marker::Model;

/// A bearer over acknowledged RLC in a life. Of a bearer that has answered `NoMemory` nothing is
/// said.
#[derive(Drop)]
pub struct AmBearer {
    pub(crate) alloc: Global,
    pub(crate) pdcp: Pdcp,
    pub(crate) tx: AmTx,
    pub(crate) rx: AmRx,
    pub(crate) tx_config: AmTxConfig,
    pub(crate) rx_config: AmRxConfig,
}

impl Model for AmBearer {
    ghost use Rattle.bearer.specs.Acknowledged.State.{State};

    ghost Value = { State };

    ghost view = { λ b. record {
      pdcp = b.pdcp;
      tx = b.tx.state;
      rx = b.rx.state;
      tx_config = b.tx_config;
      rx_config = b.rx_config;
    } };
}

/// A bearer over acknowledged RLC in a life that lies apart, so that what holds it is moved
/// without it. Contracts see the bearer.
#[derive(Drop)]
pub struct BoxedAm {
    pub(crate) bearer: Box<AmBearer>,
}

impl Model for BoxedAm {
    ghost use Rattle.bearer.specs.Acknowledged.State.{State};

    ghost Value = { State };

    ghost view = { λ b. b.bearer.value };
}

impl BoxedAm {
    /// Takes over a bearer.
    pub fn new(alloc: Global, bearer: AmBearer) -> Result<BoxedAm, NoMemory>
        ensures { IfOk result (λ boxed. boxed ≡ bearer) }
    {
        Ok(BoxedAm {
            bearer: Box::new(alloc, bearer)?,
        })
    }
}

impl AmBearer {
    /// A bearer on LCID 1 to 10, as both ends are configured with it, and under the keys of its
    /// first life. `kind` is that of its PDCP entities.
    #[tactic(auto, unfolding(crate::specs::Acknowledged::State::fresh))]
    pub fn new(
        alloc: Global,
        config: &BearerConfig,
        kind: PdcpKind,
        keys: &Keys,
        side: Side,
    ) -> Result<AmBearer, NoMemory>
        requires low { 1 ≤ config.now.channel.lcid }
        requires high { config.now.channel.lcid ≤ 10 }
        requires kind { IsKind kind }
        ensures { IfOk result (λ b. b ≡ fresh config.now kind keys.now side) }
    {
        let lcid = config.channel.lcid;
        Ok(AmBearer {
            alloc,
            pdcp: Pdcp::new(alloc, lcid, kind, config.first, keys, side),
            tx: AmTx::new(alloc, config.tx)?,
            rx: AmRx::new(alloc, config.rx)?,
            tx_config: config.tx,
            rx_config: config.rx,
        })
    }

    /// Takes over a copy of an SDU, which then waits. The refusals are those of `PdcpTx::submit`.
    pub fn submit(&mut self, sdu: &[u8]) -> Result<(), SubmitRefusal>
        ensures fits { OnOk result (refusal self.old.pdcp.tx sdu.now ≡ None) }
        ensures state { OnOk result
            (self.new ≡ record self.old {
              pdcp =
                  record self.old.pdcp { tx = submitted self.old.pdcp.tx sdu.now };
            }) }
        ensures answer { IfErr result (λ e. Answers e (refusal self.old.pdcp.tx sdu.now)) }
        ensures refused { IfErr result (λ e. StaysOrDies e (self.new ≡ self.old)) }
    {
        self.pdcp.submit(sdu)
    }

    /// What the bearer needs of a grant, in octets: for a STATUS that is due and for data, with 3
    /// for each subheader; more than 2^32 - 1 is told as that. `held` is the lowest number of this
    /// bearer that HARQ holds.
    #[tactic(auto, unfolding(crate::specs::Acknowledged::Sums::need))]
    pub fn need(&self, held: Option<u64>) -> u32
        ensures { result ≡ need self.now held }
    {
        let data = self.tx.need(self.pdcp.waiting(), held);
        data.saturating_add(self.status_need())
    }

    fn status_need(&self) -> u32
        ensures { result ≡ min (status_need self.now) (2 ^ 32 - 1) }
    {
        if !self.rx.status_due() {
            return 0;
        }
        self.rx.status_size().saturating_add(3)
    }

    /// The octets that a buffer status report counts: what RLC has left and what waits to be
    /// resent, what RLC may take, and a STATUS that is due.
    #[tactic(auto, unfolding(crate::specs::Acknowledged::Sums::backlog))]
    pub fn backlog(&self) -> u64
        ensures { result ≡ backlog self.now }
    {
        let data = self.tx.backlog().saturating_add(self.pdcp.octets());
        data.saturating_add(u64::from(self.rx.status_size()))
    }

    /// The octets of SDUs that wait or aren't confirmed, and of PDUs that aren't wholly
    /// acknowledged.
    #[tactic(auto, unfolding(crate::specs::Acknowledged::Sums::left))]
    pub fn left(&self) -> u64
        ensures { result ≡ left self.now }
    {
        self.pdcp.left().saturating_add(self.tx.left())
    }

    /// Whether the sender has failed or has nothing left.
    #[tactic(auto, unfolding(crate::specs::Acknowledged::Sums::is_drained))]
    pub fn drained(&self) -> bool
        ensures { result ≡ is_drained self.now }
    {
        self.tx.failed() || self.is_empty()
    }

    fn is_empty(&self) -> bool
        ensures { result
            ≡ ((pdcp_left self.now.pdcp.tx == 0) && (rlc_left self.now.tx == 0)
            && not (has_more self.now.pdcp)) }
    {
        self.pdcp.left() == 0 && self.tx.left() == 0 && !self.pdcp.may_take()
    }

    /// Whether the sender has reached the retransmission limit.
    pub fn failed(&self) -> bool
        ensures { result ≡ self.now.tx.failed }
    {
        self.tx.failed()
    }

    /// Sets the length of the discard timers in TTIs.
    pub fn set_discard(&mut self, ttis: u32)
        ensures { self.new ≡ record self.old {
          pdcp =
              record self.old.pdcp { tx = record self.old.pdcp.tx { discard = Some ttis } };
        } }
    {
        self.pdcp.set_discard(ttis)
    }
}
