ghost use Rattle.std.specs.Prelude.{◌≡◌, ◌≤◌, ◌<◌, ◌^◌, ◌+◌, [], IfOk, IsTrue};
ghost use Rattle.l2_io.specs.Known.{HasRisen};
ghost use Rattle.line_player.specs.Journal.{journal_by};
ghost use Rattle.line_player.specs.Plays.{PutsRest, PutsSome};
ghost use Rattle.line_player.specs.Playing.{TurnsOn, PlaysAll, EndsPlay, PlaysOn};
ghost use Rattle.line_player.specs.Streams.{input, output};

use crate::ending::Ending;
use crate::player::{LineEnd, Player};
use crate::reason::Reason;
use air_text::{LONGEST_LINE, LineRefusal, MOST_LINES};
use l2_bits::NoMemory;
use l2_io::{GatherSink, Lines, PutFault, Sink, Source, Stand, Turn};
use std::alloc::Global;

#[derive(Clone, Copy, Debug, PartialEq, Eq)]
enum TurnEnd<R> {
    Next,
    Over,
    Stop(Ending<R>),
}

// Reads and plays one line.
fn turn<P: Player, S: Source, K: Sink>(
    alloc: Global,
    lines: &mut Lines,
    player: &mut P,
    number: u32,
    source: &mut S,
    out: &mut K,
) -> TurnEnd<P::Rule>
    requires number { number ≤ MOST_LINES + 1 }
    requires longest { lines.old.longest ≡ LONGEST_LINE }
    requires open { lines.old.stand ≡ Stand.Open }
    ensures turn { TurnsOn P.text_of P.machine (P.state player.old) number lines.old.kept
        (input S.Source source.old) (input S.Source source.new) (output K.Sink out.old)
        (output K.Sink out.new) (P.state player.new) lines.new.kept result }
    ensures open { result ≡ TurnEnd.Next → lines.new.stand ≡ Stand.Open }
    ensures longest { lines.new.longest ≡ LONGEST_LINE }
    ensures few { result ≡ TurnEnd.Next → number ≤ MOST_LINES }
    ensures source_count { S.faults source.old ≤ S.faults source.new }
    ensures out_count { K.faults out.old ≤ K.faults out.new }
{
    match lines.advance(source) {
        Turn::Line => {
            if number > MOST_LINES {
                return TurnEnd::Stop(Ending::Refused {
                    number,
                    reason: Reason::Lines,
                });
            }
            match player.line(alloc, number, lines.line(), out) {
                LineEnd::Next => {
                    if lines.stand() == Stand::Open {
                        TurnEnd::Next
                    } else {
                        TurnEnd::Over
                    }
                }
                LineEnd::Ended => TurnEnd::Over,
                LineEnd::Refused(reason) => TurnEnd::Stop(Ending::Refused { number, reason }),
                LineEnd::WriteFault => TurnEnd::Stop(Ending::WriteFault),
                LineEnd::NoMemory => TurnEnd::Stop(Ending::NoMemory),
            }
        }
        Turn::Long => {
            if number > MOST_LINES {
                return TurnEnd::Stop(Ending::Refused {
                    number,
                    reason: Reason::Lines,
                });
            }
            TurnEnd::Stop(Ending::Refused {
                number,
                reason: Reason::Line(LineRefusal::Long),
            })
        }
        Turn::End => TurnEnd::Over,
        Turn::ReadFault => {
            if number > MOST_LINES && lines.kept() > 0 {
                return TurnEnd::Stop(Ending::Refused {
                    number,
                    reason: Reason::Lines,
                });
            }
            TurnEnd::Stop(Ending::ReadFault)
        }
    }
}

// Puts what is gathered, where there is much of it, or the next line goes past it or has to be
// waited for.
#[tactic(auto, using(crate::proofs::Nothing::after_none, crate::proofs::Nothing::front_all))]
fn make_room<S: Source, K: Sink>(
    gathered: &mut GatherSink,
    goes_past: bool,
    lines: &Lines,
    source: &S,
    out: &mut K,
) -> Result<(), PutFault>
    ensures put { PutsSome gathered.old.octets gathered.new.octets (K.written out.old)
        (K.written out.new) (HasRisen (K.faults out.old) (K.faults out.new)) result }
    ensures empty { IfOk result (λ _. IsTrue goes_past → gathered.new.octets ≡ []) }
    ensures count { K.faults out.old ≤ K.faults out.new }
{
    if goes_past || gathered.is_full() {
        return gathered.flush(out);
    }
    if gathered.held().is_empty() || source.is_ready() || lines.has_line() {
        return Ok(());
    }
    gathered.flush(out)
}

// Puts what is gathered at the end.
fn put_rest<R: Copy, K: Sink>(
    gathered: &mut GatherSink,
    out: &mut K,
    ending: Ending<R>,
) -> Ending<R>
    ensures put { PutsRest ending gathered.old.octets (K.written out.old) (K.written out.new)
        (HasRisen (K.faults out.old) (K.faults out.new)) result }
    ensures empty { gathered.old.octets ≡ [] → (result ≡ ending) × (out.new ≡ out.old) }
    ensures count { K.faults out.old ≤ K.faults out.new }
{
    match gathered.flush(out) {
        Ok(()) => ending,
        Err(PutFault::Failed) => Ending::WriteFault,
        Err(PutFault::NoMemory) => Ending::NoMemory,
    }
}

// Plays the lines that a source gives, to their end or to what stops the reading: then with its
// ending.
fn play_lines<P: Player, S: Source, K: Sink>(
    alloc: Global,
    lines: &mut Lines,
    player: &mut P,
    gathered: &mut GatherSink,
    source: &mut S,
    out: &mut K,
) -> Option<Ending<P::Rule>>
    requires kept { lines.old.kept ≡ [] }
    requires longest { lines.old.longest ≡ LONGEST_LINE }
    requires open { lines.old.stand ≡ Stand.Open }
    requires empty { gathered.old.octets ≡ [] }
    requires fresh { P.state player.old ≡ P.machine.first }
    ensures played { PlaysAll P.text_of P.machine (input S.Source source.old)
        (input S.Source source.new) (output K.Sink out.old) (output K.Sink out.new)
        gathered.new.octets (P.state player.new) result }
    ensures source_count { S.faults source.old ≤ S.faults source.new }
    ensures out_count { K.faults out.old ≤ K.faults out.new }
{
    for number in 1..MOST_LINES + 2 {
        let goes_past = P::goes_past(lines.octets());
        match make_room(gathered, goes_past, lines, source, out) {
            Ok(()) => {}
            Err(PutFault::Failed) => return Some(Ending::WriteFault),
            Err(PutFault::NoMemory) => return Some(Ending::NoMemory),
        }
        let end = if goes_past {
            turn(alloc, lines, player, number, source, out)
        } else {
            turn(alloc, lines, player, number, source, gathered)
        };
        match end {
            TurnEnd::Next => {}
            TurnEnd::Over => return None,
            TurnEnd::Stop(ending) => return Some(put_rest(gathered, out, ending)),
        }
    }
    unreachable!()
}

// The lines of an input, before the first.
fn open_lines(alloc: Global) -> Result<Lines, NoMemory>
    ensures { IfOk result (λ m. (m.kept ≡ []) × (m.longest ≡ LONGEST_LINE)
        × (m.stand ≡ Stand.Open)) }
{
    Lines::new(alloc, LONGEST_LINE as u32)
}

// Writes what stands at the end of an input, after what is gathered of it.
fn play_end<P: Player, K: Sink>(
    player: P,
    gathered: &mut GatherSink,
    out: &mut K,
) -> Ending<P::Rule>
    ensures over { EndsPlay P.text_of P.machine (P.state player) gathered.old.octets
        (output K.Sink out.old) (output K.Sink out.new) result }
    ensures count { K.faults out.old ≤ K.faults out.new }
{
    let ending = player.over(gathered);
    put_rest(gathered, out, ending)
}

/// Plays the lines that a source gives, and writes what stands at their end.
///
/// The output is gathered, but for that of a line that goes past it, and put before the program
/// waits for more input.
pub fn play<P: Player, S: Source, K: Sink>(
    alloc: Global,
    player: P,
    source: &mut S,
    out: &mut K,
) -> Ending<P::Rule>
    requires { P.state player ≡ P.machine.first }
    ensures played { PlaysOn P.text_of (journal_by P.machine) (input S.Source source.old)
        (input S.Source source.new) (output K.Sink out.old) (output K.Sink out.new) result }
    ensures source_count { S.faults source.old ≤ S.faults source.new }
    ensures out_count { K.faults out.old ≤ K.faults out.new }
{
    let Ok(mut lines) = open_lines(alloc) else {
        return Ending::NoMemory;
    };
    let mut player = player;
    let mut gathered = GatherSink::new(alloc);
    if let Some(ending) = play_lines(alloc, &mut lines, &mut player, &mut gathered, source, out) {
        return ending;
    }
    play_end(player, &mut gathered, out)
}
