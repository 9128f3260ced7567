ghost use Rattle.std.specs.Prelude.{◌≡◌, ◌≤◌, ◌<◌, ◌^◌, None, Err, true, false, length, OnOk};
ghost use Rattle.std.specs.Prelude.{OnErr, IfOk, IfErr, IsTrue, IsFalse, IsErr, IfSome};
ghost use Rattle.std.specs.Prelude.{option_copied};
ghost use Rattle.bearer_pdcp.specs.Submitting.{Answers, StaysOrDies};
ghost use Rattle.bearer_types.specs.Configs.{IsConfig};
ghost use Rattle.harq.specs.Sending.{after_feedback, held_of, ndi_of};
ghost use Rattle.harq.specs.Receiving.{after_assigned, assigned_answer, after_grant, grant_ndi};
ghost use Rattle.harq.specs.Receiving.{after_granted, arrived_answered, after_pass};
ghost use Rattle.l2_bits.specs.declared.fault.SubmitRefusal.TheVariants as refusals;
ghost use Rattle.l2_node.specs.Building.{IsEnough, visit, built, building};
ghost use Rattle.l2_node.specs.End.{attached, fresh, with_bearer, with_visits};
ghost use Rattle.l2_node.specs.Finding.{has};
ghost use Rattle.l2_node.specs.Hearing.{received, ticked, expiry, expired};
ghost use Rattle.l2_node.specs.Moving.{left_cell, leaving, joined};
ghost use Rattle.l2_node.specs.Submitting.{refusal, submitted, discarding};
ghost use Rattle.l2_node.specs.Sums.{is_drained, left};
ghost use Rattle.prioritise.specs.Shares.{ticked as grown};
ghost use Rattle.l2_bits.specs.declared.limits.TheConstants.{OCTETS_LIMIT};

use crate::end::End;
use crate::finding::has;
use crate::moving::abandon_all;
use bearer::{BearerConfig, Clock, Events, Side};
use eps_sec::Keys;
use handover::Package;
use harq::{Answer, Order, Visit};
use l2_bits::{NoMemory, SubmitRefusal};
use l2_types::GREATEST_GRANT;
use std::alloc::Global;
use std::collections::VecDeque;
use std::marker::Model;

/// What a visit of a sending HARQ process did.
#[derive(Drop)]
pub struct Built {
    /// Whether a new block was built, the held one is sent again, or nothing is sent.
    pub visit: Visit,
    /// The NDI of the process then: of its last block on the downlink, the last one seen on the
    /// uplink.
    pub ndi: bool,
    /// What the bearers tell of a new block, in the order in which they write.
    pub events: Events,
}

/// The state of a node in a cell.
#[derive(Drop)]
pub struct Attached {
    end: End,
    dead: bool,
}

impl Model for Attached {
    ghost use Rattle.l2_node.specs.End.{Attached as Machine};

    ghost Value = { Machine };

    ghost view = { λ a. record { end = a.end; dead = a.dead } };
}

/// The state of a node between two cells. It can't be let go.
pub struct Moving {
    end: End,
    packages: VecDeque<Package>,
    dead: bool,
}

impl Model for Moving {
    ghost use Rattle.l2_node.specs.Moving.{Moving as Machine};

    ghost Value = { Machine };

    ghost view = { λ m. record { end = m.end; packages = m.packages.items; dead = m.dead } };
}

/// One end of the link. `S` is `Attached` in a cell, and `Moving` between two.
///
/// TTIs are counted from 0. Where memory runs out in a call, the node answers `NoMemory` from then
/// on to each call that can.
pub struct Node<S> {
    state: S,
}

impl<S> Model for Node<S> {
    ghost Value = { S };

    ghost view = { λ n. n.state };
}

impl<S: Drop> Drop for Node<S> {
    fn drop(self) {
        let Node { state: _ } = self;
    }
}

impl Node<Attached> {
    /// A node without bearers. A HARQ process has 1 to 28 visits for a block; `report` says whether
    /// a terminal reports its buffers in padding. It takes no memory.
    pub fn new(alloc: Global, side: Side, harq: u32, report: bool) -> Node<Attached>
        ensures { result ≡ attached (fresh side harq report) }
    {
        Node {
            state: Attached {
                end: End::new(alloc, side, harq, report),
                dead: false,
            },
        }
    }

    /// Sets the most visits of a block, 1 to 28. The HARQ processes are empty then.
    pub fn set_visits(&mut self, harq: u32)
        ensures { self.new ≡ record self.old { end = with_visits harq self.old.end } }
    {
        self.state.end.set_visits(harq);
    }

    /// Sets whether a terminal reports its buffers in padding.
    pub fn set_reports(&mut self, reports: bool)
        ensures { self.new ≡ record self.old { end = record self.old.end { reports = reports } } }
    {
        self.state.end.reports = reports;
    }

    /// Adds a bearer by a configuration that its kind may have, on a logical channel that has none.
    pub fn add(&mut self, config: &BearerConfig, keys: &Keys) -> Result<(), NoMemory>
        requires config { IsConfig config.now }
        requires new { has config.now.channel.lcid self.old.end.bearers ≡ false }
        ensures node { OnOk result
            (self.new ≡ attached (with_bearer config.now keys.now self.old.end)) }
        ensures dead { IsTrue self.old.dead → IsErr result }
        ensures err { OnErr result (IsTrue self.new.dead) }
    {
        if self.state.dead {
            return Err(NoMemory);
        }
        let answer = self.state.end.add(config, keys);
        self.state.dead = answer.is_err();
        answer
    }

    /// Whether a logical channel has a bearer.
    pub fn has(&self, lcid: u8) -> bool
        ensures { result ≡ has lcid self.now.end.bearers }
    {
        has(lcid, self.state.end.bearers.as_slice())
    }

    /// How many bearers there are.
    pub fn count(&self) -> u64
        ensures { result ≡ length self.now.end.bearers }
    {
        self.state.end.bearers.len() as u64
    }

    /// Submits a copy of an SDU of 1 to 8188 octets to a bearer that is there.
    ///
    /// Refused are, in this order: no octets, more than 8188 octets, any SDU where 1024 wait, and
    /// any where its COUNT would be 2^32. A refusal other than `NoMemory` changes nothing.
    pub fn submit(&mut self, lcid: u8, sdu: &[u8]) -> Result<(), SubmitRefusal>
        requires { has lcid self.old.end.bearers ≡ true }
        ensures fits { OnOk result (refusal lcid sdu.now self.old.end ≡ None) }
        ensures node { OnOk result (self.new ≡ attached (submitted lcid sdu.now self.old.end)) }
        ensures refused { IfErr result (λ e. StaysOrDies e (self.new ≡ self.old)) }
        ensures answer { IfErr result (λ e. Answers e (refusal lcid sdu.now self.old.end)) }
        ensures dead { IsTrue self.old.dead → result ≡ Err refusals.NoMemory }
        ensures dies { result ≡ Err refusals.NoMemory → IsTrue self.new.dead }
    {
        if self.state.dead {
            return Err(SubmitRefusal::NoMemory);
        }
        let answer = self.state.end.submit(lcid, sdu);
        self.state.dead = answer == Err(SubmitRefusal::NoMemory);
        answer
    }

    /// Sets the length of a bearer's discard timers, in TTIs.
    #[tactic(auto, unfolding(crate::specs::Submitting::discarding))]
    pub fn set_discard(&mut self, lcid: u8, ttis: u32)
        requires { has lcid self.old.end.bearers ≡ true }
        ensures { self.new ≡ record self.old { end = discarding lcid ttis self.old.end } }
    {
        self.state.end.set_discard(lcid, ttis)
    }

    /// A TTI begins: timers may expire, bearer by bearer in ascending LCID, each as `Bearer::tick`
    /// says.
    #[inline(always)]
    pub fn tick(&mut self) -> Result<Events, NoMemory>
        ensures node { OnOk result
            (self.new ≡ attached (record self.old.end { bearers = (ticked self.old.end).bearers })) }
        ensures told { IfOk result (λ events. events ≡ (ticked self.old.end).events) }
        ensures dead { IsTrue self.old.dead → IsErr result }
        ensures err { OnErr result (IsTrue self.new.dead) }
    {
        if self.state.dead {
            return Err(NoMemory);
        }
        let answer = self.state.end.tick();
        self.state.dead = answer.is_err();
        answer
    }

    /// A TTI begins: the buckets of the logical channels grow (TS 36.321 5.4.3.1).
    pub fn tick_buckets(&mut self)
        ensures { self.new ≡ record self.old {
          end =
              record self.old.end { buckets = grown self.old.end.buckets };
        } }
    {
        self.state.end.buckets.tick();
    }

    /// Visits the sending process of a TTI. Where it needs a new block, one is built of the grant's
    /// size, up to 9422 octets.
    ///
    /// Each bearer writes within its share, in the order of priority: a STATUS that is due, and at
    /// most one data PDU. Then a terminal that reports adds a report of what is left, if the
    /// padding has room for one. A grant for which a new block may be built has an octet or more.
    pub fn build(&mut self, tti: u64, grant: u32, order: Order) -> Result<Built, NoMemory>
        requires grant { grant ≤ GREATEST_GRANT }
        requires some { IsEnough order grant }
        ensures node { OnOk result (self.new ≡ attached (built tti grant order self.old.end)) }
        ensures visit { IfOk result (λ b. b.visit ≡ visit tti order self.old.end) }
        ensures ndi { IfOk result
            (λ b. b.ndi ≡ ndi_of (built tti grant order self.old.end).sender tti) }
        ensures told { IfOk result (λ b. b.events ≡ building tti grant order self.old.end) }
        ensures dead { IsTrue self.old.dead → IsErr result }
        ensures err { OnErr result (IsTrue self.new.dead) }
    {
        if self.state.dead {
            return Err(NoMemory);
        }
        let answer = self.state.end.build(tti, grant, order);
        self.state.dead = answer.is_err();
        answer
    }

    /// The block that a sending process, 0 to 7, holds; `None` exactly where it is empty.
    pub fn held(&self, process: u32) -> Option<&[u8]>
        requires { process < 8 }
        ensures short { IfSome result (λ block. length block.now < OCTETS_LIMIT) }
        ensures block { option_copied result ≡ held_of self.now.end.sender process }
    {
        self.state.end.sender.held(process)
    }

    /// Feedback on what was sent in a TTI, as the sender reads it.
    pub fn feedback(&mut self, tti: u64, good: bool)
        ensures { self.new ≡ record self.old {
          end =
              record self.old.end { sender = after_feedback self.old.end.sender tti good };
        } }
    {
        self.state.end.sender.feedback(tti, good);
    }

    /// Grants the uplink of a TTI, and answers the NDI of the grant.
    pub fn grant(&mut self, tti: u64) -> bool
        ensures node { self.new ≡ record self.old {
          end =
              record self.old.end { receiver = after_grant self.old.end.receiver tti };
        } }
        ensures ndi { result ≡ grant_ndi self.old.end.receiver tti }
    {
        self.state.end.receiver.grant(tti)
    }

    /// What came by the grant of a TTI: an intact block, a damaged one or nothing.
    pub fn granted(&mut self, tti: u64, good: Option<bool>) -> Answer
        ensures node { self.new ≡ record self.old {
          end =
              record self.old.end { receiver = after_granted self.old.end.receiver tti good };
        } }
        ensures answer { result ≡ arrived_answered good }
    {
        self.state.end.receiver.granted(tti, good)
    }

    /// A block of the downlink is seen, with its NDI, intact or damaged.
    pub fn assigned(&mut self, tti: u64, ndi: bool, good: bool) -> Answer
        ensures node { self.new ≡ record self.old {
          end =
              record self.old.end { receiver = after_assigned self.old.end.receiver tti ndi good };
        } }
        ensures answer { result ≡ assigned_answer self.old.end.receiver tti ndi good }
    {
        self.state.end.receiver.assigned(tti, ndi, good)
    }

    /// A TTI passes without a grant of the uplink.
    pub fn pass(&mut self, tti: u64)
        ensures { self.new ≡ record self.old {
          end =
              record self.old.end { receiver = after_pass self.old.end.receiver tti };
        } }
    {
        self.state.end.receiver.pass(tti);
    }

    /// Hears an intact block of fewer than 2^28 octets: each SDU in it goes to its bearer, in turn.
    /// Of a block that can't be read nothing is used; an SDU whose logical channel has no bearer is
    /// dropped; both are told.
    #[inline(always)]
    pub fn receive(&mut self, block: &[u8]) -> Result<Events, NoMemory>
        requires { length block.now < OCTETS_LIMIT }
        ensures node { OnOk result
            (self.new
            ≡ attached
            (record self.old.end { bearers = (received self.old.end block.now).bearers })) }
        ensures told { IfOk result (λ events. events ≡ (received self.old.end block.now).events) }
        ensures dead { IsTrue self.old.dead → IsErr result }
        ensures err { OnErr result (IsTrue self.new.dead) }
    {
        if self.state.dead {
            return Err(NoMemory);
        }
        let answer = self.state.end.receive(block);
        self.state.dead = answer.is_err();
        answer
    }

    /// A timer of a bearer that is there expires; `None` exactly where it doesn't run, and nothing
    /// then changes.
    pub fn expire(&mut self, lcid: u8, clock: Clock) -> Result<Option<Events>, NoMemory>
        requires { has lcid self.old.end.bearers ≡ true }
        ensures node { OnOk result (self.new ≡ attached (expired lcid clock self.old.end)) }
        ensures told { IfOk result (λ events. events ≡ expiry lcid clock self.old.end) }
        ensures idle { IfOk result (λ events. events ≡ None → self.new ≡ self.old) }
        ensures dead { IsTrue self.old.dead → IsErr result }
        ensures err { OnErr result (IsTrue self.new.dead) }
    {
        if self.state.dead {
            return Err(NoMemory);
        }
        let answer = self.state.end.expire(lcid, clock);
        self.state.dead = answer.is_err();
        answer
    }

    /// Whether each acknowledged sender has failed or has nothing left.
    #[tactic(auto, unfolding(crate::specs::Sums::is_drained))]
    pub fn drained(&self) -> bool
        ensures { result ≡ is_drained self.now.end }
    {
        self.state.end.bearers.iter().all(|bearer| bearer.drained())
    }

    /// The octets that a drain has still to bring over, up to 2^64 - 1.
    pub fn left(&self) -> u64
        ensures { result ≡ left self.now.end }
    {
        self.state.end.left()
    }

    /// Moves to the next cell, under other keys, as `leave` and `join` do, but where it lies.
    pub fn hand_over(&mut self, keys: &Keys) -> Result<Events, NoMemory>
        ensures node { OnOk result
            (self.new ≡ attached (joined (left_cell self.old.end) keys.now)) }
        ensures told { IfOk result (λ events. events ≡ leaving self.old.end) }
        ensures dead { IsTrue self.old.dead → IsErr result }
        ensures err { OnErr result (IsTrue self.new.dead) }
    {
        if self.state.dead {
            return Err(NoMemory);
        }
        let answer = self.state.end.hand_over(keys);
        self.state.dead = answer.is_err();
        answer
    }

    /// Leaves the cell: each bearer is stopped, in ascending LCID, and packed with its channel, and
    /// MAC is reset (TS 36.331 5.3.5.4). An `Err` gives back a node that has run out of memory.
    #[tactic(auto, unfolding(crate::specs::Moving::left_cell))]
    pub fn leave(self) -> Result<(Node<Moving>, Events), (Node<Attached>, NoMemory)>
        ensures node { IfOk result (λ r. r.0 ≡ left_cell self.end) }
        ensures told { IfOk result (λ r. r.1 ≡ leaving self.end) }
        ensures dead { IsTrue self.dead → IsErr result }
        ensures err { IfErr result (λ e. IsTrue e.0.dead) }
    {
        let Node { state } = self;
        let Attached { mut end, dead } = state;
        if dead {
            let state = Attached { end, dead };
            return Err((Node { state }, NoMemory));
        }
        let mut packages = VecDeque::new(end.alloc);
        match end.leave(&mut packages) {
            Ok(events) => {
                let state = Moving {
                    end,
                    packages,
                    dead: false,
                };
                Ok((Node { state }, events))
            }
            Err(no_memory) => {
                abandon_all(packages);
                let state = Attached { end, dead: true };
                Err((Node { state }, no_memory))
            }
        }
    }
}

impl Node<Moving> {
    /// Joins a cell under other keys: each bearer begins its next life, in ascending LCID, and its
    /// channel has an empty bucket. An `Err` gives back a node that has run out of memory.
    #[tactic(auto, unfolding(crate::specs::Moving::joined))]
    pub fn join(self, keys: &Keys) -> Result<Node<Attached>, (Node<Moving>, NoMemory)>
        ensures node { IfOk result (λ n. n ≡ attached (joined self keys.now)) }
        ensures dead { IsTrue self.dead → IsErr result }
        ensures err { IfErr result (λ e. IsTrue e.0.dead) }
    {
        let Node { state } = self;
        let Moving {
            mut end,
            mut packages,
            dead,
        } = state;
        let answer = if dead {
            Err(NoMemory)
        } else {
            end.join(&mut packages, keys)
        };
        match answer {
            Ok(()) => {
                packages.destroy_empty();
                let state = Attached { end, dead: false };
                Ok(Node { state })
            }
            Err(no_memory) => {
                let state = Moving {
                    end,
                    packages,
                    dead: true,
                };
                Err((Node { state }, no_memory))
            }
        }
    }

    /// Spends the node: for the path of want of memory alone.
    pub fn abandon(self) {
        let Node { state } = self;
        let Moving {
            end: _,
            packages,
            dead: _,
        } = state;
        abandon_all(packages);
    }
}
