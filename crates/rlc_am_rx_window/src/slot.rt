ghost use Rattle.std.specs.Prelude.{◌≡◌, ℕ, ◌+◌, ◌<◌, ◌≤◌, ◌^◌, ◌||◌, length, drop, OnOk, IfOk};
ghost use Rattle.std.specs.Prelude.{Some, None};
ghost use Rattle.rlc_pdu.specs.Views.{amd_of, elements_of};
ghost use Rattle.rlc_am_rx_window.specs.Cells.{laid, holds, leading, differ, ends_otherwise};
ghost use Rattle.rlc_am_rx_window.specs.Cells.{begins_otherwise};
ghost use Rattle.rlc_am_rx_window.specs.Piece.{begins_in, ends_in, so_of, data_cells, piece_of};
ghost use Rattle.rlc_am_rx_window.specs.Piece.{end_of};
ghost use Rattle.rlc_am_rx_window.specs.Held.{nothing, with_piece, is_complete, has_end, clashes};
ghost use Rattle.rlc_am_rx_window.specs.Held.{size_differs};
ghost use Rattle.rlc_am_rx_window.specs.Joined.{joined};
ghost use Rattle.rlc_am_rx_window.specs.Window.{landing, broken_unless};

use crate::field::{Field, denies};
use crate::laying::Laying;
use crate::output::Output;
use crate::piece::{LONGEST, Walk, begins_in, end_of, ends_in, ends_with, is_last, so_of};
use l2_bits::NoMemory;
use rlc_pdu::{Amd, Landed};
use std::alloc::Global;
use std::marker::Model;

/// What is held of one number.
#[derive(Drop)]
pub(crate) struct Slot {
    field: Field,
    /// So many octets from the first on have arrived.
    lead: usize,
    /// The length of the data field, once that is told.
    size: Option<usize>,
    /// Whether a poll came with a PDU that was kept.
    polled: bool,
}

impl Model for Slot {
    ghost use Rattle.std.specs.Prelude.{◌≡◌, length};
    ghost use Rattle.rlc_am_rx_window.specs.Cells.{leading};
    ghost use Rattle.rlc_am_rx_window.specs.Held.{Held};

    ghost Value = { Held };

    ghost view = { λ s. record { cells = s.field; size = s.size; polled = s.polled } };

    ghost invariant = { λ s. s.lead ≡ length (leading s.field) };
}

impl Slot {
    /// A number of which nothing has arrived. It takes no memory.
    pub(crate) fn new(alloc: Global) -> Slot
        ensures { result ≡ nothing }
    {
        Slot {
            field: Field::absent(alloc, 0),
            lead: 0,
            size: None,
            polled: false,
        }
    }

    /// The octets that have arrived.
    pub(crate) fn field(&self) -> &Field
        ensures { result.now ≡ self.now.cells }
    {
        &self.field
    }

    /// Whether a poll came with a PDU that was kept.
    pub(crate) fn is_polled(&self) -> bool
        ensures { result ≡ self.now.polled }
    {
        self.polled
    }

    /// Whether each octet of the field has arrived.
    #[tactic(auto, using(crate::proofs::CellLemmas::leads))]
    pub(crate) fn is_complete(&self) -> bool
        ensures { result ≡ is_complete self.now }
    {
        match self.size {
            None => false,
            Some(size) => size <= self.lead,
        }
    }

    /// Whether the field's last octet has arrived.
    pub(crate) fn has_end(&self) -> bool
        ensures { result ≡ has_end self.now }
    {
        match self.size {
            None => false,
            Some(size) => size == self.field.len(),
        }
    }

    /// What comes of a PDU of this number.
    pub(crate) fn landing(&self, pdu: &Amd<'_>) -> Landed
        ensures { result ≡ landing (Some self.now) (piece_of (amd_of pdu.now)) }
    {
        let so = so_of(pdu.segment);
        let Some(end) = end_of(pdu) else {
            prove!(self.field.len() <= LONGEST);
            return Landed::Clash;
        };
        if self.field.holds(so, end - so) {
            Landed::Repeat
        } else if self.clashes(pdu, end) {
            Landed::Clash
        } else {
            Landed::Kept
        }
    }

    /// Whether what is held speaks against a PDU that ends at a place.
    fn clashes(&self, pdu: &Amd<'_>, end: usize) -> bool
        requires end { end ≡ end_of (piece_of (amd_of pdu.now)) }
        requires within { end ≤ 32767 }
        ensures { result ≡ clashes self.now (piece_of (amd_of pdu.now)) }
    {
        self.size_differs(is_last(pdu.segment), end)
            || self.begins_otherwise(pdu)
            || self.ends_otherwise(pdu)
    }

    fn size_differs(&self, last: bool, end: usize) -> bool
        ensures { result ≡ size_differs self.now.size (length self.now.cells) last end }
    {
        match self.size {
            Some(size) => size < end || last != (size == end),
            None => last && end <= self.field.len(),
        }
    }

    /// Whether the boundary in front of a PDU's octets is known otherwise.
    fn begins_otherwise(&self, pdu: &Amd<'_>) -> bool
        ensures { result ≡ begins_otherwise self.now.cells (so_of pdu.now.segment)
            (begins_in pdu.now.fi) }
    {
        let so = so_of(pdu.segment);
        so > 0 && denies(self.field.edge_behind(so - 1), begins_in(pdu.fi))
    }

    /// Whether a boundary inside a PDU's octets, or behind them, is known otherwise.
    #[tactic(auto, using(crate::proofs::SlotLemmas::data_otherwise))]
    fn ends_otherwise(&self, pdu: &Amd<'_>) -> bool
        requires { end_of (piece_of (amd_of pdu.now)) ≤ 32767 }
        ensures { result ≡ ends_otherwise self.now.cells (so_of pdu.now.segment)
            (data_cells (begins_in pdu.now.fi) (ends_in pdu.now.fi) (elements_of pdu.now.elements)) }
    {
        let ends = ends_in(pdu.fi);
        let mut at = so_of(pdu.segment);
        let mut walk = Walk::new(&pdu.elements);
        while let Some((element, last)) = walk.next() {
            if self
                .field
                .ends_otherwise(at, element, ends_with(last, ends))
            {
                return true;
            }
            at += element.len();
        }
        false
    }

    /// Keeps a PDU's octets that are new, and what it tells.
    pub(crate) fn keep(&mut self, pdu: &Amd<'_>) -> Result<(), NoMemory>
        requires { end_of (piece_of (amd_of pdu.now)) ≤ 32767 }
        ensures { OnOk result
            (self.new ≡ with_piece self.old (piece_of (amd_of pdu.now)) pdu.now.poll) }
    {
        let laid = lay_data(&mut self.field, pdu);
        self.lead = self.field.reach(0);
        let end = laid?;
        if self.size.is_none() && is_last(pdu.segment) {
            self.size = Some(end);
        }
        self.polled = self.polled || pdu.poll;
        Ok(())
    }

    /// Hands on the octets from a place on up to the first that hasn't arrived, and returns its
    /// place.
    pub(crate) fn give(&self, given: usize, out: &mut Output) -> Result<usize, NoMemory>
        ensures place { IfOk result (λ n. n ≡ given + length (leading (drop given self.now.cells))) }
        ensures out { OnOk result (out.new ≡ joined out.old (leading (drop given self.now.cells))) }
    {
        self.field.give(given, out)?;
        Ok(self.field.reach(given))
    }

    /// Hands on the same at the end of what is held of the number.
    pub(crate) fn hand_on(self, given: usize, out: &mut Output) -> Result<(), NoMemory>
        ensures { OnOk result (out.new ≡ joined out.old (leading (drop given self.cells))) }
    {
        let Slot { field, .. } = self;
        field.hand_on(given, out)
    }

    /// Goes on with all octets that are held from a place on, and leaves out gaps.
    pub(crate) fn salvage(&self, from: usize, out: &mut Output) -> Result<(), NoMemory>
        ensures { OnOk result
            (out.new ≡ broken_unless (has_end self.now) (joined out.old (drop from self.now.cells))) }
    {
        self.field.salvage(from, out)?;
        if !self.has_end() {
            out.break_off();
        }
        Ok(())
    }
}

/// Lays a PDU's octets beside those that are held, and returns the place behind them.
#[tactic(auto, using(crate::proofs::SlotLemmas::laying))]
fn lay_data(field: &mut Field, pdu: &Amd<'_>) -> Result<usize, NoMemory>
    requires { end_of (piece_of (amd_of pdu.now)) ≤ 32767 }
    ensures end { IfOk result (λ end. end ≡ end_of (piece_of (amd_of pdu.now))) }
    ensures cells { OnOk result
        (field.new ≡ laid field.old (so_of pdu.now.segment)
        (data_cells (begins_in pdu.now.fi) (ends_in pdu.now.fi) (elements_of pdu.now.elements))) }
{
    let ends = ends_in(pdu.fi);
    let mut begins = begins_in(pdu.fi);
    let mut at = so_of(pdu.segment);
    let mut laying = Laying::new(field);
    laying.skip(at)?;
    let mut walk = Walk::new(&pdu.elements);
    while let Some((element, last)) = walk.next() {
        laying.lay(element, begins, ends_with(last, ends))?;
        at += element.len();
        begins = true;
    }
    *field = laying.finish()?;
    Ok(at)
}
