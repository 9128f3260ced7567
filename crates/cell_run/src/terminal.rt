ghost use Rattle.std.specs.Prelude.{◌≡◌, ◌<◌, ◌≤◌, ◌++◌, OnOk};
ghost use Rattle.air_text.specs.Ranges.{IsInRange};
ghost use Rattle.l2_io.specs.Known.{HasRisen};
ghost use Rattle.cell_run.specs.Acting.{Acts, PutsText};
ghost use Rattle.cell_run.specs.Entries.{entry_text};
ghost use Rattle.cell_run.specs.Terminals.{fresh_terminal, own_step, up_wish, down_wish};
ghost use Rattle.cell_run.specs.Terminals.{behind_tti, tti_entry, last_entry};
ghost use Rattle.cell_text.specs.declared.line.TheConstants.{MOST_USERS};
ghost use Rattle.l2_types.specs.declared.limits.TheConstants.{GREATEST_GRANT};

use crate::fault::{CellFault, CellRule};
use crate::numbered::{Room, append_numbered};
use air_run::{Run, StepFault};
use air_text::{Fate, Line, Outcome};
use cell_sched::{LEAST_WISH, wish};
use cell_text::MOST_USERS;
use l2_bits::{Bytes, NoMemory};
use l2_io::Sink;
use l2_types::GREATEST_GRANT;
use std::alloc::Global;
use std::marker::Model;

/// Blocks that arrive.
const ALL_OK: Outcome = Outcome {
    fate: Fate::Ok,
    flipped: false,
};

/// A terminal of the cell: its run, what becomes of its blocks, and the lines of its own script so
/// far.
#[derive(Drop)]
pub struct Terminal {
    run: Run,
    up: Outcome,
    down: Outcome,
    lines: u32,
}

impl Model for Terminal {
    ghost use Rattle.cell_run.specs.Terminals.{Terminal as Machine, run_of};

    ghost Value = { Machine };

    ghost view = { λ t. record { run = run_of t.run; up = t.up; down = t.down; lines = t.lines } };
}

impl Terminal {
    /// A terminal before the first line of its own script. It takes no memory.
    #[tactic(auto, unfolding(crate::specs::Terminals::fresh_terminal))]
    pub fn new(alloc: Global) -> Terminal
        ensures { result ≡ fresh_terminal }
    {
        Terminal {
            run: Run::new(alloc),
            up: ALL_OK,
            down: ALL_OK,
            lines: 0,
        }
    }

    /// From now on its blocks go so.
    pub fn set_outcomes(&mut self, up: Outcome, down: Outcome)
        ensures { self.new ≡ record self.old { up = up; down = down } }
    {
        self.up = up;
        self.down = down;
    }

    /// What it wants to send, in octets.
    pub fn up_wish(&self) -> u64
        ensures { result ≡ up_wish self.now }
    {
        wish(&self.run.told())
    }

    /// What waits for it, in octets.
    pub fn down_wish(&self) -> u64
        ensures { result ≡ down_wish self.now }
    {
        self.run.left_down().saturating_add(LEAST_WISH)
    }

    /// Runs a line of its own script, and puts its records, numbered.
    #[tactic(auto, using(line_player::proofs::Nothing::part_nothing))]
    pub fn step<K: Sink>(
        &mut self,
        user: u32,
        line: &Line,
        room: &mut Room,
        out: &mut K,
    ) -> Result<(), CellFault>
        requires user { user < MOST_USERS }
        requires range { IsInRange line.now }
        ensures step { Acts (own_step user line.now self.old) self.new (K.written out.old)
            (K.written out.new) (HasRisen (K.faults out.old) (K.faults out.new)) result }
        ensures count { K.faults out.old ≤ K.faults out.new }
    {
        let Some(number) = self.lines.checked_add(1) else {
            return Err(CellFault::NoMemory);
        };
        room.records.clear();
        match self.run.step(number, line, &mut room.records) {
            Ok(()) => {
                self.lines = number;
                room.put_numbered(user, out)
            }
            Err(StepFault::Refused(refusal)) => Err(CellFault::Refused(CellRule::Run(refusal))),
            Err(StepFault::NoMemory) => Err(CellFault::NoMemory),
            Err(StepFault::WriteFault) => unreachable!(),
        }
    }

    /// Runs a TTI with these grants, in octets, and puts its records, numbered.
    pub fn tti<K: Sink>(
        &mut self,
        user: u32,
        up_grant: u32,
        down_grant: u32,
        room: &mut Room,
        out: &mut K,
    ) -> Result<(), CellFault>
        requires user { user < MOST_USERS }
        requires up { up_grant ≤ GREATEST_GRANT }
        requires down { down_grant ≤ GREATEST_GRANT }
        ensures after { OnOk result (self.new ≡ behind_tti up_grant down_grant self.old) }
        ensures put { PutsText (entry_text (tti_entry user up_grant down_grant self.old))
            (K.written out.old) (K.written out.new) (HasRisen (K.faults out.old) (K.faults out.new))
            result }
        ensures count { K.faults out.old ≤ K.faults out.new }
    {
        let line = Line::Tti {
            up_grant,
            up: self.up,
            down_grant,
            down: self.down,
        };
        self.step(user, &line, room, out)
    }

    /// Adds the text of its records at the end.
    pub fn finish(self, user: u32, room: &mut Room, text: &mut Bytes) -> Result<(), NoMemory>
        requires { user < MOST_USERS }
        ensures { OnOk result (text.new ≡ text.old ++ entry_text (last_entry user self)) }
    {
        let Terminal { run, .. } = self;
        room.records.clear();
        match run.finish(&mut room.records) {
            Ok(()) => append_numbered(text, user, room.records.written()),
            Err(StepFault::NoMemory) => Err(NoMemory),
            Err(StepFault::Refused(_)) | Err(StepFault::WriteFault) => unreachable!(),
        }
    }
}
