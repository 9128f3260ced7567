ghost use Rattle.std.specs.Prelude.{◌≡◌, ◌≤◌, ◌+◌, ◌<◌, ◌^◌, None, Err, length, OnOk, OnErr, IfOk};
ghost use Rattle.std.specs.Prelude.{IfErr, IsTrue, IsFalse, IsErr};
ghost use Rattle.l2_bits.specs.declared.SubmitRefusal.TheVariants as refusals;
ghost use Rattle.bearer_pdcp.specs.Shares.{FitsShare};
ghost use Rattle.bearer_pdcp.specs.Submitting.{Answers, StaysOrDies};
ghost use Rattle.bearer_types.specs.Configs.{IsConfig};
ghost use Rattle.bearer.specs.Bearer.{of, alive, begun};
ghost use Rattle.bearer.specs.Submitting.{refusal, submitted};
ghost use Rattle.bearer.specs.Sums.{need, backlog, left, is_drained};
ghost use Rattle.bearer.specs.Taking.{pdus, number, told, after};
ghost use Rattle.bearer.specs.Hearing.{arriving, arrived, expiry, expired, ticking, ticked};
ghost use Rattle.bearer.specs.Hearing.{with_discard};
ghost use Rattle.bearer.specs.Lives.{stopped, stopping, restarted};
ghost use Rattle.l2_bits.specs.declared.limits.TheConstants.{OCTETS_LIMIT};

use crate::flow::{Flow, StoppedFlow};
use bearer_pdcp::Written;
use bearer_types::{BearerConfig, Events};
use eps_sec::Keys;
use l2_bits::{NoMemory, SubmitRefusal};
use l2_types::{Channel, Clock, GREATEST_GRANT, Side};
use std::alloc::Global;
use std::marker::Model;

/// The state of a bearer in a life.
#[derive(Drop)]
pub struct Running {
    alloc: Global,
    flow: Flow,
    dead: bool,
}

impl Model for Running {
    ghost use Rattle.bearer.specs.Bearer.{Life};

    ghost Value = { Life };

    ghost view = { λ r. record { flow = r.flow; dead = r.dead } };
}

/// The state of a bearer between two lives. It can't be let go.
pub struct Stopped {
    alloc: Global,
    flow: StoppedFlow,
}

impl Model for Stopped {
    ghost use Rattle.bearer.specs.declared.flow.StoppedFlow.{StoppedFlow};

    ghost Value = { StoppedFlow };

    ghost view = { λ s. s.flow };
}

/// The state of a stopped bearer on its way to where it is accepted. It can't be let go.
pub struct Released {
    stopped: Stopped,
}

impl Model for Released {
    ghost use Rattle.bearer.specs.declared.flow.StoppedFlow.{StoppedFlow};

    ghost Value = { StoppedFlow };

    ghost view = { λ r. r.stopped };
}

/// A bearer at one end of the link. `S` is `Running` in a life, `Stopped` between two, and
/// `Released` on the way from one cell to another.
///
/// Where memory runs out in a call of a running bearer, it answers `NoMemory` from then on to each
/// call that can.
pub struct Bearer<S> {
    channel: Channel,
    state: S,
}

impl<S> Model for Bearer<S> {
    ghost use Rattle.std.specs.Prelude.{◌<◌};
    ghost use Rattle.bearer.specs.Bearer.{Of, of};

    ghost Value = { Of S };

    ghost view = { λ b. of b.channel b.state };

    ghost invariant = { λ b. (b.channel.lcid < 11) × (b.channel.group < 4) };
}

impl<S: Drop> Drop for Bearer<S> {
    fn drop(self) {
        let Bearer {
            channel: _,
            state: _,
        } = self;
    }
}

impl Bearer<Running> {
    /// A bearer as both ends are configured with it, by a configuration that its kind may have, at
    /// an end and under the keys of its first life.
    #[tactic(auto, unfolding(crate::specs::Bearer::begun))]
    pub fn new(
        alloc: Global,
        config: &BearerConfig,
        keys: &Keys,
        side: Side,
    ) -> Result<Bearer<Running>, NoMemory>
        requires { IsConfig config.now }
        ensures { IfOk result (λ b. b ≡ begun config.now keys.now side) }
    {
        Ok(Bearer {
            channel: config.channel,
            state: Running {
                alloc,
                flow: Flow::new(alloc, config, keys, side)?,
                dead: false,
            },
        })
    }

    /// The logical channel, 0 to 10.
    pub fn lcid(&self) -> u8
        ensures { result ≡ self.now.channel.lcid }
    {
        self.channel.lcid
    }

    /// The logical channel as MAC shares a grant: its LCID is 0 to 10, its group 0 to 3.
    pub fn channel(&self) -> Channel
        ensures channel { result ≡ self.now.channel }
        ensures lcid { result.lcid < 11 }
        ensures group { result.group < 4 }
    {
        self.channel
    }

    /// Takes over a copy of an SDU of 1 to 8188 octets, which then waits.
    ///
    /// Refused are, in this order: no octets, more than 8188 octets, any SDU where 1024 wait, and
    /// any where its COUNT would be 2^32. A refusal other than `NoMemory` changes nothing.
    pub fn submit(&mut self, sdu: &[u8]) -> Result<(), SubmitRefusal>
        ensures fits { OnOk result (refusal self.old.state.flow sdu.now ≡ None) }
        ensures state { OnOk result
            (self.new ≡ of self.old.channel (alive (submitted self.old.state.flow sdu.now))) }
        ensures answer { IsFalse self.old.state.dead
            → IfErr result (λ e. Answers e (refusal self.old.state.flow sdu.now)) }
        ensures refused { IfErr result (λ e. StaysOrDies e (self.new ≡ self.old)) }
        ensures dead { IsTrue self.old.state.dead → result ≡ Err refusals.NoMemory }
        ensures dies { result ≡ Err refusals.NoMemory → IsTrue self.new.state.dead }
    {
        if self.state.dead {
            return Err(SubmitRefusal::NoMemory);
        }
        let answer = self.state.flow.submit(sdu);
        self.state.dead = answer == Err(SubmitRefusal::NoMemory);
        answer
    }

    /// What the bearer needs of a grant of so many octets, with 3 for each subheader (TS 36.321
    /// 5.4.3.1); more than 2^32 - 1 is told as that. `held` is the lowest number of this bearer
    /// that HARQ holds.
    pub fn need(&self, grant: u32, held: Option<u64>) -> u32
        ensures { result ≡ need self.now.state.flow grant held }
    {
        self.state.flow.need(grant, held)
    }

    /// The octets that a buffer status report counts (TS 36.321 5.4.5).
    pub fn backlog(&self) -> u64
        ensures { result ≡ backlog self.now.state.flow }
    {
        self.state.flow.backlog()
    }

    /// The octets that a drain has still to bring over: SDUs that wait or aren't confirmed, and
    /// PDUs that aren't acknowledged.
    pub fn left(&self) -> u64
        ensures { result ≡ left self.now.state.flow }
    {
        self.state.flow.left()
    }

    /// Whether there is no acknowledged sender, or it has failed, or it has nothing left.
    pub fn drained(&self) -> bool
        ensures { result ≡ is_drained self.now.state.flow }
    {
        self.state.flow.drained()
    }

    /// Writes within a share of a grant, of at most 9424 octets: a STATUS that is due, and then at
    /// most one data PDU, each with 3 octets for its subheader. Where data waits and none is
    /// written, the first reason that is true is told.
    pub fn take(&mut self, share: u32, held: Option<u64>) -> Result<Written, NoMemory>
        requires { share ≤ GREATEST_GRANT + 2 }
        ensures pdus { IfOk result (λ w. w.pdus ≡ pdus self.old.state.flow share held) }
        ensures number { IfOk result (λ w. w.number ≡ number self.old.state.flow share held) }
        ensures told { IfOk result (λ w. w.events
            ≡ told self.old.channel.lcid self.old.state.flow share held) }
        ensures fits { IfOk result (λ w. FitsShare share w.pdus) }
        ensures state { OnOk result
            (self.new ≡ of self.old.channel (alive (after self.old.state.flow share held))) }
        ensures dead { IsTrue self.old.state.dead → IsErr result }
        ensures err { OnErr result (IsTrue self.new.state.dead) }
    {
        if self.state.dead {
            return Err(NoMemory);
        }
        let answer = self.state.flow.take(self.channel.lcid, share, held);
        self.state.dead = answer.is_err();
        answer
    }

    /// A PDU of fewer than 2^28 octets arrives, and what comes of it is told.
    pub fn arrive(&mut self, pdu: &[u8]) -> Result<Events, NoMemory>
        requires { length pdu.now < OCTETS_LIMIT }
        ensures told { IfOk result (λ events. events
            ≡ arriving self.old.channel.lcid self.old.state.flow pdu.now) }
        ensures state { OnOk result
            (self.new ≡ of self.old.channel (alive (arrived self.old.state.flow pdu.now))) }
        ensures dead { IsTrue self.old.state.dead → IsErr result }
        ensures err { OnErr result (IsTrue self.new.state.dead) }
    {
        if self.state.dead {
            return Err(NoMemory);
        }
        let answer = self.state.flow.arrive(self.channel.lcid, pdu);
        self.state.dead = answer.is_err();
        answer
    }

    /// A TTI begins: timers may expire, in the order poll, reorder, prohibit, and then discard
    /// timers.
    pub fn tick(&mut self) -> Result<Events, NoMemory>
        ensures told { IfOk result (λ events. events ≡ ticking self.old.state.flow) }
        ensures state { OnOk result
            (self.new ≡ of self.old.channel (alive (ticked self.old.state.flow))) }
        ensures dead { IsTrue self.old.state.dead → IsErr result }
        ensures err { OnErr result (IsTrue self.new.state.dead) }
    {
        if self.state.dead {
            return Err(NoMemory);
        }
        let answer = self.state.flow.tick(self.state.alloc);
        self.state.dead = answer.is_err();
        answer
    }

    /// A timer expires, and what that does is told; `None` exactly where it doesn't run, and
    /// nothing then changes.
    pub fn expire(&mut self, clock: Clock) -> Result<Option<Events>, NoMemory>
        ensures told { IfOk result (λ events. events ≡ expiry self.old.state.flow clock) }
        ensures state { OnOk result
            (self.new ≡ of self.old.channel (alive (expired self.old.state.flow clock))) }
        ensures dead { IsTrue self.old.state.dead → IsErr result }
        ensures err { OnErr result (IsTrue self.new.state.dead) }
    {
        if self.state.dead {
            return Err(NoMemory);
        }
        let answer = self.state.flow.expire(clock);
        self.state.dead = answer.is_err();
        answer
    }

    /// Sets the length of the discard timers in TTIs.
    pub fn set_discard(&mut self, ttis: u32)
        ensures { self.new
            ≡ of self.old.channel
            (record self.old.state { flow = with_discard self.old.state.flow ttis }) }
    {
        self.state.flow.set_discard(ttis)
    }

    /// Ends the life (TS 36.322 5.4, TS 36.323 5.2): what RLC can put together is handed up, or
    /// dropped on a signalling bearer, and told. An `Err` gives back a bearer that has run out of
    /// memory.
    pub fn stop(self) -> Result<(Bearer<Stopped>, Events), (Bearer<Running>, NoMemory)>
        ensures told { IfOk result (λ r. r.1 ≡ stopping self.state.flow) }
        ensures state { IfOk result (λ r. r.0 ≡ of self.channel (stopped self.state.flow)) }
        ensures dead { IsTrue self.state.dead → IsErr result }
        ensures err { IfErr result (λ e. IsTrue e.0.state.dead) }
    {
        let Bearer { channel, state } = self;
        let Running { alloc, flow, dead } = state;
        if dead {
            let state = Running { alloc, flow, dead };
            return Err((Bearer { channel, state }, NoMemory));
        }
        match flow.stop(alloc) {
            Ok((flow, events)) => {
                let state = Stopped { alloc, flow };
                Ok((Bearer { channel, state }, events))
            }
            Err((flow, no_memory)) => {
                let state = Running {
                    alloc,
                    flow,
                    dead: true,
                };
                Err((Bearer { channel, state }, no_memory))
            }
        }
    }
}

impl Bearer<Stopped> {
    /// Begins the next life under other keys (TS 36.323 5.2): an acknowledged data bearer owes a
    /// status report first, then takes again what isn't confirmed. An `Err` gives back the bearer
    /// as it was.
    pub fn restart(self, keys: &Keys) -> Result<Bearer<Running>, (Bearer<Stopped>, NoMemory)>
        ensures ok { IfOk result
            (λ b. b ≡ of self.channel (alive (restarted self.state keys.now))) }
        ensures err { IfErr result (λ e. e.0 ≡ self) }
    {
        let Bearer { channel, state } = self;
        let Stopped { alloc, flow } = state;
        match flow.restart(alloc, keys) {
            Ok(flow) => {
                let state = Running {
                    alloc,
                    flow,
                    dead: false,
                };
                Ok(Bearer { channel, state })
            }
            Err((flow, no_memory)) => {
                let state = Stopped { alloc, flow };
                Err((Bearer { channel, state }, no_memory))
            }
        }
    }

    /// Releases the bearer for its way to another cell. Nothing of it is lost.
    pub fn release(self) -> Bearer<Released>
        ensures { result ≡ self }
    {
        let Bearer { channel, state } = self;
        let state = Released { stopped: state };
        Bearer { channel, state }
    }
}

impl Bearer<Released> {
    /// Takes the bearer over where it arrives.
    pub fn accept(self) -> Bearer<Stopped>
        ensures { result ≡ self }
    {
        let Bearer { channel, state } = self;
        let Released { stopped } = state;
        Bearer {
            channel,
            state: stopped,
        }
    }

    /// Spends the bearer: for the path of want of memory alone.
    pub fn abandon(self) {
        let Bearer { channel: _, state } = self;
        let Released { stopped } = state;
        let Stopped { alloc: _, flow: _ } = stopped;
    }
}
