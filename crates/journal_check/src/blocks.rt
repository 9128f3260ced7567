ghost use Rattle.std.specs.Prelude.{◌≡◌, OnOk};

use air_record::{Line, Record};
use journal_air::AirChecker;
use journal_form::FormChecker;
use l2_bits::NoMemory;
use std::alloc::Global;
use std::marker::Model;

/// The checkers of the air, and of the form of new blocks.
#[derive(Drop)]
pub(crate) struct Blocks {
    air: AirChecker,
    form: FormChecker,
}

impl Model for Blocks {
    ghost use Rattle.journal_check.specs.Judging.{Blocks as Judged};

    ghost Value = { Judged };

    ghost view = { λ b. record { air = b.air; form = b.form } };
}

impl Blocks {
    ghost use Rattle.journal_form.specs.Checking.{is_right};
    ghost use Rattle.journal_form.specs.Lines.{HasLayout};
    ghost use Rattle.journal_check.specs.Judging.{no_blocks, blocks_line, blocks_record};
    ghost use Rattle.journal_check.specs.Judging.{blocks_end};

    pub fn new(alloc: Global) -> Blocks
        ensures { result ≡ no_blocks }
    {
        Blocks {
            air: AirChecker::new(alloc),
            form: FormChecker::new(alloc),
        }
    }

    /// A line begins a group.
    pub fn begin_line(&mut self, line: &Line)
        requires { HasLayout line.now }
        ensures { self.new ≡ blocks_line line.now self.old }
    {
        self.air.begin_line(line);
        self.form.begin_line(line);
    }

    /// A record of the group, which isn't its first.
    pub fn see(&mut self, one: &Record) -> Result<(), NoMemory>
        ensures { OnOk result (self.new ≡ blocks_record one.now self.old) }
    {
        self.air.see(one)?;
        self.form.see(one)
    }

    /// The group has ended.
    pub fn end_line(&mut self)
        ensures { self.new ≡ blocks_end self.old }
    {
        self.air.end_line();
        self.form.end_line();
    }

    /// Whether blocks are carried as HARQ does.
    pub fn are_carried(&self) -> bool
        ensures { result ≡ self.now.air.right }
    {
        self.air.is_right()
    }

    /// Whether new blocks have right form.
    pub fn are_formed(&self) -> bool
        ensures { result ≡ is_right self.now.form }
    {
        self.form.is_right()
    }
}
