// An end leaves a cell and joins another.
ghost use Rattle.std.specs.Prelude.{◌≡◌, ◌++◌, ◌∷◌, [], ℕ, length, IfOk, IfErr, OnOk};
ghost use Rattle.bearer.specs.Bearer.{of, alive};
ghost use Rattle.bearer.specs.Lives.{stopped, stopping, restarted};
ghost use Rattle.l2_node.specs.Moving.{left_cell, leaving, all_stopped, all_stopping};
ghost use Rattle.l2_node.specs.Moving.{all_restarted, with_channels, joined};

use crate::end::{End, add_channel};
use bearer::{Bearer, Events, Running};
use eps_sec::Keys;
use handover::{Package, abandon, accept, release};
use l2_bits::NoMemory;
use prioritise::Buckets;
use std::collections::VecDeque;
use std::mem;

impl End {
    // Each bearer is stopped, in turn, and packed with its channel; MAC is reset.
    #[tactic(auto, unfolding(crate::specs::Moving::left_cell, crate::specs::Moving::leaving))]
    pub fn leave(&mut self, packages: &mut VecDeque<Package>) -> Result<Events, NoMemory>
        requires { packages.old.items ≡ [] }
        ensures end { OnOk result (self.new ≡ (left_cell self.old).end) }
        ensures packages { OnOk result (packages.new.items ≡ (left_cell self.old).packages) }
        ensures events { IfOk result (λ events. events ≡ leaving self.old) }
    {
        let mut events = Events::new(self.alloc);
        let bearers = mem::replace(&mut self.bearers, Vec::new(self.alloc));
        stop_all(bearers, packages, &mut events)?;
        self.buckets = Buckets::new();
        self.reset();
        Ok(events)
    }

    // Each bearer begins its next life, in turn, and its channel comes with it.
    pub fn join(&mut self, packages: &mut VecDeque<Package>, keys: &Keys) -> Result<(), NoMemory>
        ensures end { OnOk result (self.new ≡ record self.old {
          bearers = all_restarted packages.old.items keys.now;
          buckets = with_channels packages.old.items self.old.buckets;
        }) }
        ensures packages { OnOk result (packages.new.items ≡ []) }
    {
        self.bearers = Vec::new(self.alloc);
        accept_all(packages, keys, &mut self.bearers, &mut self.buckets)
    }

    // The end leaves its cell and joins the next one, where it lies.
    pub fn hand_over(&mut self, keys: &Keys) -> Result<Events, NoMemory>
        ensures end { OnOk result (self.new ≡ joined (left_cell self.old) keys.now) }
        ensures events { IfOk result (λ events. events ≡ leaving self.old) }
    {
        let mut packages = VecDeque::new(self.alloc);
        let answer = self.move_on(&mut packages, keys);
        abandon_all(packages);
        answer
    }

    #[tactic(auto, unfolding(crate::specs::Moving::joined))]
    fn move_on(&mut self, packages: &mut VecDeque<Package>, keys: &Keys) -> Result<Events, NoMemory>
        requires { packages.old.items ≡ [] }
        ensures end { OnOk result (self.new ≡ joined (left_cell self.old) keys.now) }
        ensures events { IfOk result (λ events. events ≡ leaving self.old) }
    {
        let events = self.leave(packages)?;
        self.join(packages, keys)?;
        Ok(events)
    }
}

// Stops bearers, each in turn, and packs them.
fn stop_all(
    bearers: Vec<Bearer<Running>>,
    packages: &mut VecDeque<Package>,
    events: &mut Events,
) -> Result<(), NoMemory>
    ensures packages { OnOk result (packages.new.items
        ≡ packages.old.items ++ all_stopped bearers.items) }
    ensures events { OnOk result (events.new ≡ events.old ++ all_stopping bearers.items) }
{
    for bearer in bearers {
        stop_one(bearer, packages, events)?;
    }
    Ok(())
}

fn stop_one(
    bearer: Bearer<Running>,
    packages: &mut VecDeque<Package>,
    events: &mut Events,
) -> Result<(), NoMemory>
    ensures packages { OnOk result (packages.new.items
        ≡ packages.old.items ++ of bearer.channel (stopped bearer.state.flow) ∷ []) }
    ensures events { OnOk result (events.new ≡ events.old ++ stopping bearer.state.flow) }
{
    match bearer.stop() {
        Ok((stopped, mut more)) => match packages.push_back(release(stopped)) {
            Ok(()) => events.append(&mut more),
            Err(failed) => {
                abandon(failed.value);
                Err(NoMemory)
            }
        },
        Err((_bearer, no_memory)) => Err(no_memory),
    }
}

// Accepts packages, each in turn, under other keys, and adds their channels.
fn accept_all(
    packages: &mut VecDeque<Package>,
    keys: &Keys,
    bearers: &mut Vec<Bearer<Running>>,
    buckets: &mut Buckets,
) -> Result<(), NoMemory>
    ensures bearers { OnOk result (bearers.new.items
        ≡ bearers.old.items ++ all_restarted packages.old.items keys.now) }
    ensures buckets { OnOk result (buckets.new ≡ with_channels packages.old.items buckets.old) }
    ensures packages { OnOk result (packages.new.items ≡ []) }
{
    while let Some(one) = packages.pop_front() {
        match accept(one, keys) {
            Ok(bearer) => {
                add_channel(bearer.channel(), buckets);
                bearers.push(bearer)?;
            }
            Err((one, no_memory)) => {
                abandon(one);
                return Err(no_memory);
            }
        }
    }
    Ok(())
}

// Spends packages without using them.
pub(crate) fn abandon_all(mut packages: VecDeque<Package>) {
    while let Some(one) = packages.pop_front() {
        abandon(one);
    }
    packages.destroy_empty();
}
