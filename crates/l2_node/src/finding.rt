// Bearers by their LCID, and the numbers that HARQ processes hold.
ghost use Rattle.std.specs.Prelude.{◌≡◌, ◌<◌, ◌≤◌, ℕ, None, length, All, IsFalse};
ghost use Rattle.harq.specs.Sending.{held_of};
ghost use Rattle.l2_node.specs.Finding.{find, has, place, lower, number_at, lowest_of, lowest};
ghost use Rattle.l2_node.specs.Holding.{Holding as Machine, HoldsNone};

use bearer::{Bearer, Running};
use harq::Sender;
use std::marker::Model;

// The numbers of the data PDUs in the last block of each process, by LCID.
pub(crate) type Numbers = [[Option<u64>; 11]; 8];

// The place of a bearer, or the length where there is none.
pub(crate) fn find(lcid: u8, bearers: &[Bearer<Running>]) -> usize
    ensures find { result ≡ find lcid bearers.now }
    ensures within { result ≤ length bearers.now }
{
    let mut at = 0;
    while at < bearers.len() && bearers[at].lcid() != lcid {
        at += 1;
    }
    at
}

pub(crate) fn has(lcid: u8, bearers: &[Bearer<Running>]) -> bool
    ensures { result ≡ has lcid bearers.now }
{
    find(lcid, bearers) < bearers.len()
}

// The place of a new bearer.
pub(crate) fn place_of(lcid: u8, bearers: &[Bearer<Running>]) -> usize
    ensures place { result ≡ place lcid bearers.now }
    ensures within { result ≤ length bearers.now }
{
    let mut at = 0;
    while at < bearers.len() && bearers[at].lcid() < lcid {
        at += 1;
    }
    at
}

const PROCESSES: [u32; 8] = [0, 1, 2, 3, 4, 5, 6, 7];

// The numbers that the processes of a sender hold at a visit.
#[derive(Drop)]
pub(crate) struct Holding<'a> {
    sender: &'a Sender,
    numbers: &'a Numbers,
    // Whether there is a process that holds a block, which mostly none does.
    is_any: bool,
}

impl<'a> Model for Holding<'a> {
    ghost use Rattle.std.specs.Prelude.{IsFalse};
    ghost use Rattle.l2_node.specs.Holding.{Holding as Machine, HoldsNone};

    ghost Value = { Machine };

    ghost view = { λ h. record { sender = h.sender.now; numbers = h.numbers.now } };

    ghost invariant = { λ h. IsFalse h.is_any → HoldsNone h.sender.now };
}

impl<'a> Holding<'a> {
    pub fn new(sender: &'a Sender, numbers: &'a Numbers) -> Holding<'a>
        ensures { result ≡ record { sender = sender.now; numbers = numbers.now } }
    {
        Holding {
            sender,
            numbers,
            is_any: is_any_held(sender, &PROCESSES),
        }
    }

    // The lowest number of a bearer.
    #[tactic(auto, using(crate::proofs::Free::none_held), unfolding(crate::specs::Finding::lowest))]
    pub fn lowest(&self, lcid: u8) -> Option<u64>
        requires { lcid < 11 }
        ensures { result ≡ lowest self.now.sender self.now.numbers lcid }
    {
        if !self.is_any {
            return None;
        }
        lowest_in(self.sender, self.numbers, lcid, &PROCESSES)
    }
}

// Whether one of the processes holds a block.
fn is_any_held(sender: &Sender, processes: &[u32]) -> bool
    requires { All (λ p. p < 8) processes.now }
    ensures { IsFalse result → All (λ p. held_of sender.now p ≡ None) processes.now }
{
    for process in processes {
        if sender.held(*process).is_some() {
            return true;
        }
    }
    false
}

fn lowest_in(sender: &Sender, numbers: &Numbers, lcid: u8, processes: &[u32]) -> Option<u64>
    requires lcid { lcid < 11 }
    requires processes { All (λ p. p < 8) processes.now }
    ensures { result ≡ lowest_of sender.now numbers.now lcid processes.now None }
{
    let mut found = None;
    for process in processes {
        found = lower_of(found, number_of(sender, numbers, lcid, *process));
    }
    found
}

fn number_of(sender: &Sender, numbers: &Numbers, lcid: u8, process: u32) -> Option<u64>
    requires lcid { lcid < 11 }
    requires process { process < 8 }
    ensures { result ≡ number_at sender.now numbers.now lcid process }
{
    let number = numbers[process as usize][lcid as usize]?;
    match sender.held(process) {
        None => None,
        Some(_) => Some(number),
    }
}

fn lower_of(one: Option<u64>, other: Option<u64>) -> Option<u64>
    ensures { result ≡ lower one other }
{
    match (one, other) {
        (None, other) => other,
        (Some(x), None) => Some(x),
        (Some(x), Some(y)) => Some(if y < x { y } else { x }),
    }
}
