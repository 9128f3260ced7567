ghost use Rattle.std.specs.Prelude.{◌≡◌, ◌<◌, ◌≤◌, ℕ, List, length, Option, None, Some, IfOk};
ghost use Rattle.std.specs.Prelude.{IfSome};
ghost use Rattle.air_text.specs.Ranges.{IsInRange};
ghost use Rattle.cell_text.specs.Ranges.{IsInCell, AreUsers};
ghost use Rattle.cell_run.specs.Acting.{Acts};
ghost use Rattle.cell_run.specs.Cells.{fresh_cell, missing, unknown, is_own, founds, own_line};
ghost use Rattle.cell_run.specs.Cells.{set_air, goes, acted};
ghost use Rattle.cell_run.specs.Entries.{texts_of};
ghost use Rattle.l2_io.specs.Known.{HasRisen};
ghost use Rattle.cell_run.specs.Terminals.{last_entries};

use crate::fault::{CellFault, CellRefusal, CellRule};
use crate::numbered::Room;
use crate::terminal::Terminal;
use crate::terminals::{down_wishes, finish_all, fresh_terminals, run_tti, up_wishes};
use air_text::{Line, Outcome};
use cell_sched::share;
use cell_text::{CellLine, MOST_USERS};
use l2_bits::{Bytes, NoMemory};
use l2_io::Sink;
use std::alloc::Global;
use std::marker::Model;

/// A cell: its terminals, none before the `cell` line, and the `go` lines so far.
#[derive(Drop)]
pub struct Cell {
    alloc: Global,
    terminals: Vec<Terminal>,
    gone: u32,
    room: Room,
}

impl Model for Cell {
    ghost use Rattle.std.specs.Prelude.{◌≤◌, length};
    ghost use Rattle.cell_run.specs.Cells.{CellState};
    ghost use Rattle.cell_text.specs.declared.line.TheConstants.{MOST_USERS};

    ghost Value = { CellState };

    ghost view = { λ c. record { terminals = c.terminals.items; gone = c.gone } };

    ghost invariant = { λ c. length c.terminals.items ≤ MOST_USERS };
}

fn refused(refusal: CellRefusal) -> CellFault
    ensures { result ≡ CellFault.Refused (CellRule.Cell refusal) }
{
    CellFault::Refused(CellRule::Cell(refusal))
}

// Whether a terminal's own script may have a line beside those that the cell gives it.
fn is_own(line: &Line) -> bool
    ensures { result ≡ is_own line.now }
{
    !matches!(
        line,
        Line::Tti { .. } | Line::Drain { .. } | Line::Forge { .. } | Line::End
    )
}

impl Cell {
    /// A cell before the first line. It takes no memory.
    pub fn new(alloc: Global) -> Cell
        ensures { result ≡ fresh_cell }
    {
        Cell {
            alloc,
            terminals: Vec::new(alloc),
            gone: 0,
            room: Room::new(alloc),
        }
    }

    // Why no line may stand that needs terminals.
    fn missing(&self) -> Option<CellRefusal>
        ensures { result ≡ missing self.now }
    {
        if self.terminals.is_empty() {
            Some(CellRefusal::NoCell)
        } else {
            None
        }
    }

    // Why no line of this terminal may stand.
    fn unknown(&self, user: u32) -> Option<CellRefusal>
        ensures refusal { result ≡ unknown user self.now }
        ensures there { result ≡ None → user < length self.now.terminals }
    {
        if self.terminals.is_empty() {
            return Some(CellRefusal::NoCell);
        }
        if self.terminals.len() <= user as usize {
            return Some(CellRefusal::UnknownUser);
        }
        None
    }

    fn found(&mut self, users: u32) -> Result<(), CellFault>
        requires { AreUsers users }
        ensures { (written : Option (List ℕ))
            → Acts (founds users self.old) self.new written written ⊥ result }
    {
        if !self.terminals.is_empty() {
            return Err(refused(CellRefusal::CellTwice));
        }
        self.terminals = fresh_terminals(self.alloc, users)?;
        Ok(())
    }

    #[tactic(auto, using(line_player::proofs::Nothing::part_nothing))]
    fn own_line<K: Sink>(
        &mut self,
        user: u32,
        line: &Option<Line>,
        out: &mut K,
    ) -> Result<(), CellFault>
        requires there { user < length self.old.terminals }
        requires range { IfSome line.now IsInRange }
        ensures line { Acts (own_line user line.now self.old) self.new (K.written out.old)
            (K.written out.new) (HasRisen (K.faults out.old) (K.faults out.new)) result }
        ensures count { K.faults out.old ≤ K.faults out.new }
    {
        let Some(line) = line else {
            return Err(refused(CellRefusal::NotHere));
        };
        if !is_own(line) {
            return Err(refused(CellRefusal::NotHere));
        }
        self.terminals[user as usize].step(user, line, &mut self.room, out)
    }

    fn set_air(&mut self, user: u32, up: Outcome, down: Outcome)
        requires { user < length self.old.terminals }
        ensures { self.new ≡ set_air user up down self.old }
    {
        self.terminals[user as usize].set_outcomes(up, down);
    }

    #[tactic(auto, using(line_player::proofs::Nothing::part_nothing))]
    fn go<K: Sink>(&mut self, up_total: u32, down_total: u32, out: &mut K) -> Result<(), CellFault>
        requires { missing self.old ≡ None }
        ensures go { Acts (goes up_total down_total self.old) self.new (K.written out.old)
            (K.written out.new) (HasRisen (K.faults out.old) (K.faults out.new)) result }
        ensures count { K.faults out.old ≤ K.faults out.new }
    {
        let Some(gone) = self.gone.checked_add(1) else {
            return Err(CellFault::NoMemory);
        };
        let users = self.terminals.len() as u32;
        let first = self.gone % users;
        let terminals = self.terminals.as_mut_slice();
        let up_grants = share(&up_wishes(terminals), users, first, up_total);
        let down_grants = share(&down_wishes(terminals), users, first, down_total);
        run_tti(terminals, &up_grants, &down_grants, &mut self.room, out)?;
        self.gone = gone;
        Ok(())
    }

    /// Runs a line of the grammar, and puts its records.
    #[tactic(auto, unfolding(crate::specs::Cells::acted))]
    pub fn act<K: Sink>(&mut self, line: &CellLine, out: &mut K) -> Result<(), CellFault>
        requires range { IsInCell line.now }
        ensures line { Acts (acted line.now self.old) self.new (K.written out.old)
            (K.written out.new) (HasRisen (K.faults out.old) (K.faults out.new)) result }
        ensures count { K.faults out.old ≤ K.faults out.new }
    {
        match line {
            CellLine::Cell { users } => self.found(*users),
            CellLine::To { user, line } => {
                if let Some(refusal) = self.unknown(*user) {
                    return Err(refused(refusal));
                }
                self.own_line(*user, line, out)
            }
            CellLine::Air { user, up, down } => {
                if let Some(refusal) = self.unknown(*user) {
                    return Err(refused(refusal));
                }
                self.set_air(*user, *up, *down);
                Ok(())
            }
            CellLine::Go {
                up_total,
                down_total,
            } => {
                if let Some(refusal) = self.missing() {
                    return Err(refused(refusal));
                }
                self.go(*up_total, *down_total, out)
            }
            CellLine::End => Ok(()),
        }
    }

    /// The text of what stands at the end.
    pub fn sums(self) -> Result<Bytes, NoMemory>
        ensures { IfOk result (λ text. text ≡ texts_of (last_entries 0 self.terminals)) }
    {
        let Cell {
            alloc,
            terminals,
            mut room,
            ..
        } = self;
        let mut text = Bytes::new(alloc);
        finish_all(terminals, &mut room, &mut text)?;
        Ok(text)
    }
}
