ghost use Rattle.std.specs.Prelude.{◌≡◌, ℕ, ◌<◌, ◌≤◌, ◌++◌, ◌||◌, ◌&&◌, true, not, nat_le, nat_lt};
ghost use Rattle.std.specs.Prelude.{max, [], length, OnOk, OnErr, IfOk};
ghost use Rattle.rlc_pdu.specs.Runs.{AreAscending, ends_below, last_begins_by, last_ends_below};
ghost use Rattle.rlc_pdu.specs.Runs.{stretched, run_between, lies_in, has, added, removed, merged};
ghost use Rattle.rlc_pdu.specs.Runs.{passing};
ghost use Rattle.rlc_pdu.specs.Runs.{passed, some_run, kept_of, covers, between, gap_in};

use crate::pdu::Part;
use l2_bits::NoMemory;
use std::alloc::Global;
use std::marker::Model;

/// The places at or above one and below another.
#[derive(Clone, Copy)]
struct Span {
    from: u32,
    to: u32,
}

impl Model for Span {
    ghost use Rattle.rlc_pdu.specs.Runs.{Run};

    ghost Value = { Run };

    ghost view = { λ s. record { from = s.from; to = s.to } };

    ghost inverse = { λ r. record { from = r.from; to = r.to } };
}

/// A set of places of a data field, kept as ascending runs that don't touch. Contracts see these
/// runs.
///
/// Each call takes a time linear in the number of runs at most.
#[derive(Drop)]
pub struct Intervals {
    alloc: Global,
    runs: Vec<Span>,
}

impl Model for Intervals {
    ghost use Rattle.std.specs.Prelude.{List};
    ghost use Rattle.rlc_pdu.specs.Runs.{Run, AreAscending};

    ghost Value = { List Run };

    ghost view = { λ i. i.runs.items };

    ghost invariant = { λ i. AreAscending 0 i.runs.items };
}

impl Intervals {
    /// The empty set. It takes no memory.
    pub fn new(alloc: Global) -> Intervals
        ensures { result ≡ [] }
    {
        Intervals {
            alloc,
            runs: Vec::new(alloc),
        }
    }

    /// Adds the places from `start` to `end - 1`, and answers whether one of them is new. An `Err`
    /// changes nothing.
    ///
    /// Where no run but the last meets or touches these places, it takes the same time, however
    /// many runs there are.
    #[tactic(auto, using(crate::proofs::RunSteps::adding))]
    pub fn add(&mut self, start: u32, end: u32) -> Result<bool, NoMemory>
        requires some { start < end }
        requires within { end ≤ 32767 }
        ensures runs { OnOk result (self.new ≡ added self.old start end) }
        ensures places { OnOk result ((i : ℕ)
            → has self.new i ≡ (lies_in (run_between start end) i || has self.old i)) }
        ensures fresh { IfOk result (λ fresh. fresh ≡ not (covers self.old start end)) }
        ensures err { OnErr result (self.new ≡ self.old) }
    {
        add_to(self.alloc, &mut self.runs, start, end)
    }

    /// Takes out the places from `start` to `end - 1`. An `Err` changes nothing.
    #[tactic(auto, using(crate::proofs::RunSteps::removing))]
    pub fn remove(&mut self, start: u32, end: u32) -> Result<(), NoMemory>
        requires some { start < end }
        requires within { end ≤ 32767 }
        ensures runs { OnOk result (self.new ≡ removed self.old start end) }
        ensures places { OnOk result ((i : ℕ)
            → has self.new i ≡ (not (lies_in (run_between start end) i) && has self.old i)) }
        ensures err { OnErr result (self.new ≡ self.old) }
    {
        self.runs = without(self.alloc, &self.runs, start, end)?;
        Ok(())
    }

    /// Takes out all places, and keeps the memory for later ones.
    pub fn clear(&mut self)
        ensures { self.new ≡ [] }
    {
        self.runs.clear();
    }

    /// The first largest run of places that aren't in the set, at or above `from` and below
    /// `length`; its end is its last place. `None` exactly where there is none.
    pub fn gap(&self, from: u32, length: u32) -> Option<Part>
        ensures { result ≡ gap_in self.now from length }
    {
        gap(&self.runs, from, length)
    }

    /// The number of runs.
    pub fn len(&self) -> usize
        ensures { result ≡ length self.now }
    {
        self.runs.len()
    }
}

// A run on its way into a list of runs.
#[derive(Clone, Copy)]
struct Carried {
    placed: bool,
    from: u32,
    to: u32,
}

impl Model for Carried {
    ghost use Rattle.rlc_pdu.specs.Runs.{Moving};

    ghost Value = { Moving };

    ghost view = { λ s. record { placed = s.placed; from = s.from; to = s.to } };

    ghost inverse = { λ r. record { placed = r.placed; from = r.from; to = r.to } };
}

// Whether one run has all these places.
fn covers(runs: &[Span], from: u32, to: u32) -> bool
    ensures { result ≡ covers runs.now from to }
{
    runs.iter().any(|r| r.from <= from && to <= r.to)
}

// Whether a run ends below a place.
fn ends_before(one: Span, from: u32) -> bool
    ensures { result ≡ nat_lt one.to from }
{
    one.to < from
}

// Whether all runs end below a place.
fn ends_below(runs: &[Span], from: u32) -> bool
    ensures { result ≡ ends_below runs.now from }
{
    match runs.split_last() {
        None => true,
        Some((last, _)) => ends_before(*last, from),
    }
}

// Whether a run begins at a place or below it.
fn begins_by(one: Span, from: u32) -> bool
    ensures { result ≡ nat_le one.from from }
{
    one.from <= from
}

// Whether the last run begins at a place or below it.
fn last_begins_by(runs: &[Span], from: u32) -> bool
    ensures { result ≡ last_begins_by runs.now from }
{
    match runs.split_last() {
        None => false,
        Some((last, _)) => begins_by(*last, from),
    }
}

// Lets a run reach up to a place, and answers whether it grew.
fn stretch_one(one: &mut Span, to: u32) -> bool
    ensures one { one.new ≡ run_between one.old.from (max one.old.to to) }
    ensures grew { result ≡ nat_lt one.old.to to }
{
    let grew = one.to < to;
    one.to = one.to.max(to);
    grew
}

// Lets the last run reach up to a place, and answers whether it grew.
#[tactic(auto, using(crate::proofs::RunSteps::at_last))]
fn stretch(runs: &mut Vec<Span>, to: u32) -> bool
    ensures runs { runs.new.items ≡ stretched runs.old.items to }
    ensures grew { result ≡ last_ends_below runs.old.items to }
{
    match runs.last_mut() {
        None => false,
        Some(last) => stretch_one(last, to),
    }
}

// Adds a run, and answers whether one of its places is new: at the last run by itself, else by
// going through all.
#[tactic(auto, using(crate::proofs::RunSteps::behind_all))]
fn add_to(alloc: Global, runs: &mut Vec<Span>, from: u32, to: u32) -> Result<bool, NoMemory>
    requires ascending { AreAscending 0 runs.old.items }
    requires some { from < to }
    ensures ok { OnOk result (runs.new.items ≡ added runs.old.items from to) }
    ensures fresh { IfOk result (λ fresh. fresh ≡ not (covers runs.old.items from to)) }
    ensures err { OnErr result (runs.new.items ≡ runs.old.items) }
{
    if ends_below(runs, from) {
        runs.push(Span { from, to })?;
        return Ok(true);
    }
    if last_begins_by(runs, from) {
        return Ok(stretch(runs, to));
    }
    let fresh = !covers(runs, from, to);
    *runs = merge(alloc, runs, from, to)?;
    Ok(fresh)
}

fn merge(alloc: Global, runs: &[Span], from: u32, to: u32) -> Result<Vec<Span>, NoMemory>
    ensures { IfOk result (λ v. v.items ≡ added runs.now from to) }
{
    let mut out = Vec::with_capacity(alloc, runs.len() + 1)?;
    let mut moving = Carried {
        placed: false,
        from,
        to,
    };
    for one in runs {
        pass(&mut out, moving, *one)?;
        moving = after(moving, *one);
    }
    end(&mut out, moving)?;
    Ok(out)
}

// Adds what stands in the list for a run that is passed.
fn pass(out: &mut Vec<Span>, moving: Carried, one: Span) -> Result<(), NoMemory>
    ensures { OnOk result (out.new.items ≡ out.old.items ++ passing moving one) }
{
    if moving.placed || one.to < moving.from {
        out.push(one)?;
        return Ok(());
    }
    if moving.to < one.from {
        out.push(Span {
            from: moving.from,
            to: moving.to,
        })?;
        out.push(one)?;
    }
    Ok(())
}

fn after(moving: Carried, one: Span) -> Carried
    ensures { result ≡ passed moving one }
{
    if moving.placed || one.to < moving.from {
        return moving;
    }
    if moving.to < one.from {
        return Carried {
            placed: true,
            from: moving.from,
            to: moving.to,
        };
    }
    Carried {
        placed: false,
        from: moving.from.min(one.from),
        to: moving.to.max(one.to),
    }
}

fn end(out: &mut Vec<Span>, moving: Carried) -> Result<(), NoMemory>
    ensures { OnOk result (out.new.items ≡ out.old.items ++ merged moving []) }
{
    if !moving.placed {
        out.push(Span {
            from: moving.from,
            to: moving.to,
        })?;
    }
    Ok(())
}

// Adds a run, if it isn't empty.
fn push_some(out: &mut Vec<Span>, from: u32, to: u32) -> Result<(), NoMemory>
    ensures { OnOk result (out.new.items ≡ out.old.items ++ some_run from to) }
{
    if from < to {
        out.push(Span { from, to })?;
    }
    Ok(())
}

// Adds what is left of a run.
fn keep(out: &mut Vec<Span>, one: Span, from: u32, to: u32) -> Result<(), NoMemory>
    ensures { OnOk result (out.new.items ≡ out.old.items ++ kept_of from to one) }
{
    push_some(out, one.from, one.to.min(from))?;
    push_some(out, one.from.max(to), one.to)
}

fn without(alloc: Global, runs: &[Span], from: u32, to: u32) -> Result<Vec<Span>, NoMemory>
    ensures { IfOk result (λ v. v.items ≡ removed runs.now from to) }
{
    let mut out = Vec::with_capacity(alloc, runs.len() + 1)?;
    for one in runs {
        keep(&mut out, *one, from, to)?;
    }
    Ok(out)
}

// The places from one on below another.
fn between(from: u32, to: u32) -> Option<Part>
    ensures { result ≡ between from to }
{
    if from < to {
        return Some(Part {
            start: from,
            end: to - 1,
        });
    }
    None
}

fn gap(runs: &[Span], from: u32, size: u32) -> Option<Part>
    ensures { result ≡ gap_in runs.now from size }
{
    let mut at = from;
    for one in runs {
        if at < one.from {
            return between(at, one.from.min(size));
        }
        at = at.max(one.to);
    }
    between(at, size)
}
