// The lines of a journal, each handed to the checker.
ghost use Rattle.std.specs.Prelude.{◌≡◌, ◌+◌, []};
ghost use Rattle.line_player.specs.Streams.{Input, input};
ghost use Rattle.journal_check.specs.Checked.{HasFed};
ghost use Rattle.journal_check.specs.Grouped.{no_records};
ghost use Rattle.check_command.specs.Reading.{HasTaken, Leaves, ReadsAll, Judges, long_verdict};

use crate::verdict::{Verdict, verdict_by};
use journal_check::{CheckWhy, Checker, LONGEST_RECORD, MOST_RECORDS};
use l2_io::{Lines, Source, Stand, Turn};
use std::alloc::Global;

#[derive(Clone, Copy, Debug, PartialEq, Eq)]
enum TurnEnd {
    Next,
    Over,
    Stop(Verdict),
}

// Refuses a line that is too long, whatever it says.
fn refuse_long(number: u32) -> Verdict
    ensures { result ≡ long_verdict number }
{
    if number > MOST_RECORDS {
        return Verdict::Unsound {
            at: number,
            why: CheckWhy::Records,
        };
    }
    Verdict::Unsound {
        at: number,
        why: CheckWhy::Text,
    }
}

// Reads one line, and hands it to the checker.
fn turn<S: Source>(lines: &mut Lines, checker: &mut Checker, number: u32, source: &mut S) -> TurnEnd
    requires longest { lines.old.longest ≡ LONGEST_RECORD }
    requires open { lines.old.stand ≡ Stand.Open }
    ensures turn { (first : Input)
        → HasTaken first (input S.Source source.old) lines.old.kept checker.old number
        → Leaves first (input S.Source source.new) lines.new.kept checker.new (number + 1) result }
    ensures open { result ≡ TurnEnd.Next → lines.new.stand ≡ Stand.Open }
    ensures longest { lines.new.longest ≡ LONGEST_RECORD }
{
    match lines.advance(source) {
        Turn::Line => match checker.feed(lines.line()) {
            Ok(()) if lines.stand() == Stand::Open => TurnEnd::Next,
            Ok(()) => TurnEnd::Over,
            Err(fault) => TurnEnd::Stop(verdict_by(fault)),
        },
        Turn::Long => TurnEnd::Stop(refuse_long(number)),
        Turn::End => TurnEnd::Over,
        Turn::ReadFault => {
            if number > MOST_RECORDS && lines.kept() > 0 {
                return TurnEnd::Stop(refuse_long(number));
            }
            TurnEnd::Stop(Verdict::ReadFault)
        }
    }
}

// Reads the lines of a journal to their end, or to what stops the reading: then with its verdict.
fn read_lines<S: Source>(
    lines: &mut Lines,
    checker: &mut Checker,
    source: &mut S,
) -> Option<Verdict>
    requires kept { lines.old.kept ≡ [] }
    requires longest { lines.old.longest ≡ LONGEST_RECORD }
    requires open { lines.old.stand ≡ Stand.Open }
    requires fresh { HasFed no_records checker.old }
    ensures { ReadsAll (input S.Source source.old) (input S.Source source.new) checker.new result }
{
    for number in 1..MOST_RECORDS + 2 {
        match turn(lines, checker, number, source) {
            TurnEnd::Next => {}
            TurnEnd::Over => return None,
            TurnEnd::Stop(verdict) => return Some(verdict),
        }
    }
    unreachable!()
}

/// Reads a journal, and judges it.
pub(crate) fn judge<S: Source>(alloc: Global, source: &mut S) -> Verdict
    ensures { Judges (input S.Source source.old) (input S.Source source.new) result }
{
    let Ok(mut lines) = Lines::new(alloc, LONGEST_RECORD as u32) else {
        return Verdict::NoMemory;
    };
    let mut checker = Checker::new(alloc);
    if let Some(verdict) = read_lines(&mut lines, &mut checker, source) {
        return verdict;
    }
    match checker.close() {
        Ok(lines) => Verdict::Sound { lines },
        Err(fault) => verdict_by(fault),
    }
}
