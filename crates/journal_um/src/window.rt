// The numbers from VR(UR) on below VR(UH), and the PDUs that were accepted of them.
ghost use Rattle.std.specs.Prelude.{◌≡◌, [], ◌∷◌, ◌++◌, ◌+◌, ◌-◌, ◌*◌, ◌%◌, ◌<◌, ◌≤◌, ◌^◌, length};
ghost use Rattle.std.specs.Prelude.{drop, take, max, OnOk, is_some, None, nat_le};
ghost use Rattle.rlc_pdu.specs.declared.constants.TheConstants.{UM_LONG_WINDOW_SIZE};
ghost use Rattle.journal_um.specs.UmNumbers.{read_number};
ghost use Rattle.journal_um.specs.UmWindow.{empty_window, top_of, pdu_at, is_dropped, leading};
ghost use Rattle.journal_um.specs.UmWindow.{passed, fallen, grown, with_placed};
ghost use Rattle.journal_um.specs.UmJoiner.{with_pdu, with_pdus};

use crate::joiner::Joiner;
use crate::pieces::Pieces;
use l2_bits::NoMemory;
use l2_num::ahead;
use std::alloc::Global;
use std::collections::VecDeque;
use std::marker::Model;

// From this number on nothing more is accepted.
const LIMIT: u64 = 1 << 62;

type Pdus = VecDeque<Option<Pieces>>;

#[derive(Drop)]
pub(crate) struct Window {
    width: u64,
    edge: u64,
    pdus: Pdus,
}

impl Model for Window {
    ghost use Rattle.std.specs.Prelude.{◌<◌, ◌≤◌, ◌+◌, ◌^◌, length};
    ghost use Rattle.rlc_pdu.specs.declared.constants.TheConstants.{UM_LONG_WINDOW_SIZE};
    ghost use Rattle.journal_um.specs.UmWindow.{UmWindow};

    ghost Value = { UmWindow };

    ghost view = { λ w. record { width = w.width; edge = w.edge; pdus = w.pdus.items } };

    ghost invariant = { λ w. (0 < w.width) × (w.width ≤ UM_LONG_WINDOW_SIZE)
        × (w.edge + length w.pdus.items ≤ 2 ^ 62 + UM_LONG_WINDOW_SIZE) };
}

impl Window {
    // Nothing has come. It takes no memory.
    pub(crate) fn new(alloc: Global, width: u64) -> Window
        requires low { 0 < width }
        requires high { width ≤ UM_LONG_WINDOW_SIZE }
        ensures { result ≡ empty_window width }
    {
        Window {
            width,
            edge: 0,
            pdus: VecDeque::new(alloc),
        }
    }

    // VR(UR).
    pub(crate) fn edge(&self) -> u64
        ensures { result ≡ self.now.edge }
    {
        self.edge
    }

    // VR(UH).
    pub(crate) fn top(&self) -> u64
        ensures value { result ≡ top_of self.now }
        ensures below { result ≤ 2 ^ 62 + UM_LONG_WINDOW_SIZE }
    {
        self.edge + self.pdus.len() as u64
    }

    // How many numbers lie from VR(UR) on below VR(UH).
    pub(crate) fn len(&self) -> usize
        ensures { result ≡ length self.now.pdus }
    {
        self.pdus.len()
    }

    // Whether a number stands W or more above VR(UH).
    pub(crate) fn is_far(&self, number: u64) -> bool
        ensures { result ≡ nat_le (top_of self.now + self.now.width) number }
    {
        self.top() + self.width <= number
    }

    // The number that a PDU with a number is read as; none where that lies below 0. It is counted
    // from twice W up.
    pub(crate) fn read(&self, number: u64) -> Option<u64>
        ensures { result ≡ read_number self.now.width (top_of self.now)
            (number % (2 * self.now.width)) }
    {
        let size = 2 * self.width;
        let low = self.top() + self.width;
        let above = ahead((number % size) as u32, (low % size) as u32, size as u32);
        (low + u64::from(above)).checked_sub(size)
    }

    // Whether a PDU that is read as this number is dropped: it lies below VR(UR), or one was
    // accepted.
    pub(crate) fn is_dropped(&self, number: u64) -> bool
        ensures { result ≡ is_dropped number self.now }
    {
        number < self.edge || is_accepted(&self.pdus, (number - self.edge) as usize)
    }

    // How many accepted numbers stand first.
    pub(crate) fn leading(&self) -> usize
        ensures { result ≡ leading self.now.pdus }
    {
        count_leading(&self.pdus)
    }

    // How many numbers fall out below the window as one is accepted at a place.
    pub(crate) fn fallen(&self, at: usize) -> usize
        ensures value { result ≡ fallen self.now at }
        ensures within { result ≤ at }
        ensures inside { at < result + self.now.width }
    {
        at - at.min(self.width as usize - 1)
    }

    // Passes so many numbers, and joins their pieces.
    pub(crate) fn pass(&mut self, count: usize, joiner: &mut Joiner) -> Result<(), NoMemory>
        ensures window { OnOk result (self.new ≡ passed count self.old) }
        ensures width { self.new.width ≡ self.old.width }
        ensures joined { OnOk result
            (joiner.new ≡ with_pdus (take count self.old.pdus) joiner.old) }
    {
        let count = count.min(self.pdus.len());
        pass_on(&mut self.pdus, &mut self.edge, count, joiner)
    }

    // Keeps a PDU at a place.
    pub(crate) fn place(&mut self, at: usize, pieces: Pieces) -> Result<(), NoMemory>
        requires { at < self.old.width }
        ensures window { OnOk result (self.new ≡ with_placed at pieces self.old) }
        ensures width { self.new.width ≡ self.old.width }
    {
        if self.edge >= LIMIT {
            return Err(NoMemory);
        }
        grow(&mut self.pdus, at + 1)?;
        match self.pdus.get_mut(at) {
            Some(pdu) => {
                *pdu = Some(pieces);
                Ok(())
            }
            None => unreachable!(),
        }
    }

    // The next life begins.
    pub(crate) fn clear(&mut self)
        ensures { self.new ≡ empty_window self.old.width }
    {
        self.edge = 0;
        self.pdus.clear();
    }
}

#[tactic(auto, using(crate::proofs::WindowSteps::pdu_past))]
fn is_accepted(pdus: &Pdus, at: usize) -> bool
    ensures { result ≡ is_some (pdu_at pdus.now.items at) }
{
    match pdus.get(at) {
        Some(pdu) => pdu.is_some(),
        None => false,
    }
}

fn count_leading(pdus: &Pdus) -> usize
    ensures value { result ≡ leading pdus.now.items }
{
    let mut at = 0;
    while at < pdus.len() && is_accepted(pdus, at) {
        at += 1;
    }
    at
}

#[tactic(auto, using(crate::proofs::WindowSteps::passes))]
fn pass_on(
    pdus: &mut Pdus,
    edge: &mut u64,
    count: usize,
    joiner: &mut Joiner,
) -> Result<(), NoMemory>
    requires numbers { edge.old + length pdus.old.items < 2 ^ 64 }
    requires count { count ≤ length pdus.old.items }
    ensures sum { edge.new + length pdus.new.items ≡ edge.old + length pdus.old.items }
    ensures edge { OnOk result (edge.new ≡ edge.old + count) }
    ensures pdus { OnOk result (pdus.new.items ≡ drop count pdus.old.items) }
    ensures joined { OnOk result (joiner.new ≡ with_pdus (take count pdus.old.items) joiner.old) }
{
    let mut left = count;
    while left > 0 {
        pass_one(pdus, edge, joiner)?;
        left -= 1;
    }
    Ok(())
}

fn pass_one(pdus: &mut Pdus, edge: &mut u64, joiner: &mut Joiner) -> Result<(), NoMemory>
    requires numbers { edge.old + length pdus.old.items < 2 ^ 64 }
    requires some { 0 < length pdus.old.items }
    ensures edge { edge.new ≡ edge.old + 1 }
    ensures pdus { pdus.new.items ≡ drop 1 pdus.old.items }
    ensures joined { OnOk result (joiner.new ≡ with_pdu (pdu_at pdus.old.items 0) joiner.old) }
{
    *edge += 1;
    match pdus.pop_front() {
        Some(pdu) => joiner.pass(pdu),
        None => Ok(()),
    }
}

// Adds numbers of which nothing was accepted, up to so many.
#[tactic(auto, using(crate::proofs::WindowSteps::grows))]
fn grow(pdus: &mut Pdus, size: usize) -> Result<(), NoMemory>
    ensures pdus { OnOk result (pdus.new.items ≡ grown pdus.old.items size) }
    ensures wide { OnOk result (size ≤ length pdus.new.items) }
    ensures within { length pdus.new.items ≤ max (length pdus.old.items) size }
{
    'growth: while pdus.len() < size {
        pdus.push_back(None)?;
    }
    Ok(())
}
