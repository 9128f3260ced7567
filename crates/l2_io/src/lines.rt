ghost use Rattle.std.specs.Prelude.{◌≡◌, ◌<◌, ◌≤◌, ◌+◌, ◌^◌, ◌++◌, ℕ, List, [], Ok, false, length};
ghost use Rattle.std.specs.Prelude.{take, drop, IfOk, OnErr, MatchOption, IsTrue, ◌↔◌, slice_range};
ghost use Rattle.l2_io.specs.Known.{before, IsAtEnd, HasRisen};
ghost use Rattle.l2_io.specs.Feeds.{from_feed, without_return, IsFeedAt};
ghost use Rattle.l2_io.specs.Cutting.{Cutter, NeedsRead, Cuts, CutsKept, CutsEnd, Advances};
ghost use Rattle.l2_io.specs.declared.lines.Stand.TheVariants.{Open};

use super::{Failed, Source};
use l2_bits::NoMemory;
use memchr::memchr;
use std::alloc::Global;
use std::marker::Model;

/// The most octets of one read.
const PIECE: usize = 4096;

/// Whether more lines may come; anything but `Open` stands for good.
#[derive(Clone, Copy, Debug, PartialEq, Eq)]
pub enum Stand {
    /// More may come.
    Open,
    /// A line is too long.
    Long,
    /// The source has ended.
    End,
    /// The source failed.
    ReadFault,
}

/// What came next.
#[derive(Clone, Copy, Debug, PartialEq, Eq)]
pub enum Turn {
    /// A line, which [`Lines::line`] gives.
    Line,
    /// The next line has too many octets before its line feed, a carriage return counted.
    Long,
    /// The source has ended, and no octet is left.
    End,
    /// The source failed, and what was read before has neither a further whole line nor too much of
    /// one.
    ReadFault,
}

/// Cuts the octets of a source into lines. It never holds more than one line and one read.
#[derive(Drop)]
pub struct Lines {
    buffer: Vec<u8>,
    line_start: usize,
    line_end: usize,
    start: usize,
    end: usize,
    longest: usize,
    stand: Stand,
}

impl Model for Lines {
    ghost use Rattle.std.specs.Prelude.{◌≡◌, ◌+◌, ◌≤◌, ◌<◌, ◌^◌, slice_range, length};
    ghost use Rattle.l2_io.specs.Cutting.{Cutter};

    ghost Value = { Cutter };

    ghost view = { λ m. record {
      line = slice_range m.buffer.items m.line_start m.line_end;
      kept = slice_range m.buffer.items m.start m.end;
      longest = m.longest;
      stand = m.stand;
    } };

    ghost use Rattle.l2_io.specs.LinesFields.{IsInPlace};

    ghost invariant = { IsInPlace };
}

#[tactic(auto, using(crate::proofs::Feeds::from_feed_none, crate::proofs::Feeds::feed_first))]
fn feed_at(octets: &[u8]) -> Option<usize>
    ensures { MatchOption result (from_feed octets.now ≡ []) (IsFeedAt octets.now) }
{
    memchr(b'\n', octets)
}

// Where a line ends, without a carriage return.
fn end_of(line: &[u8]) -> usize
    ensures within { result ≤ length line.now }
    ensures line { take result line.now ≡ without_return line.now }
{
    match line {
        [before @ .., b'\r'] => before.len(),
        _ => line.len(),
    }
}

// Reads behind the first `end` octets, at most a piece.
fn fill<S: Source>(source: &mut S, buffer: &mut [u8], end: usize) -> Result<usize, Failed>
    requires { end + 4096 ≤ length buffer.old }
    ensures room { IfOk result (λ n. n ≤ 4096) }
    ensures front { take end buffer.new ≡ take end buffer.old }
    ensures given { IfOk result (λ n. S.left source.old
        ≡ before (slice_range buffer.new end (end + n)) (S.left source.new)) }
    ensures end { IfOk result (λ n. n ≡ 0 → IsAtEnd (S.left source.new)) }
    ensures left { OnErr result (S.left source.new ≡ S.left source.old) }
    ensures cause { OnErr result (HasRisen (S.faults source.old) (S.faults source.new)) }
    ensures count { S.faults source.old ≤ S.faults source.new }
{
    source.read(&mut buffer[end..end + PIECE])
}

impl Lines {
    /// Cuts lines of at most `longest` octets.
    pub fn new(alloc: Global, longest: u32) -> Result<Lines, NoMemory>
        requires { longest < 2 ^ 31 }
        ensures { IfOk result (λ m. m ≡ record {
          line = [];
          kept = [];
          longest = longest;
          stand = Open;
        }) }
    {
        let longest = longest as usize;
        Ok(Lines {
            buffer: vec![in alloc; 0; longest + PIECE + 1]?,
            line_start: 0,
            line_end: 0,
            start: 0,
            end: 0,
            longest,
            stand: Stand::Open,
        })
    }

    /// How many octets were read and not handed out.
    pub fn kept(&self) -> u32
        ensures count { result ≡ length self.now.kept }
        ensures most { result ≤ self.now.longest + 4097 }
    {
        (self.end - self.start) as u32
    }

    /// Whether the next call of [`advance`](Self::advance) needs no read, so that it can't wait for
    /// input.
    pub fn has_line(&self) -> bool
        ensures { (result ≡ false) ↔ NeedsRead self.now }
    {
        if self.stand() != Stand::Open {
            return true;
        }
        let kept = self.octets();
        if feed_at(kept).is_some() {
            return true;
        }
        self.is_longer(kept.len())
    }

    /// The line that was cut last.
    pub fn line(&self) -> &[u8]
        ensures { result.now ≡ self.now.line }
    {
        &self.buffer[self.line_start..self.line_end]
    }

    /// The octets that were read and not handed out.
    pub fn octets(&self) -> &[u8]
        ensures { result.now ≡ self.now.kept }
    {
        &self.buffer[self.start..self.end]
    }

    fn is_longer(&self, octets: usize) -> bool
        ensures { IsTrue result ↔ (self.now.longest < octets) }
    {
        self.longest < octets
    }

    /// Whether more lines may come.
    pub fn stand(&self) -> Stand
        ensures { result ≡ self.now.stand }
    {
        self.stand
    }

    fn stop(&mut self, stand: Stand)
        ensures { self.new ≡ record self.old { stand = stand } }
    {
        self.stand = stand;
    }

    // Hands out the first octets as a line, and drops them and what ends them.
    fn cut(&mut self, line: usize, all: usize)
        requires line { line ≤ all }
        requires all { all ≤ length self.old.kept }
        ensures { self.new ≡ record self.old {
          line = take line self.old.kept;
          kept = drop all self.old.kept;
        } }
    {
        self.line_start = self.start;
        self.line_end = self.start + line;
        self.start += all;
    }

    // Reads more octets.
    fn more<S: Source>(&mut self, source: &mut S) -> Result<usize, Failed>
        requires { length self.old.kept ≤ self.old.longest }
        ensures given { IfOk result (λ n. (given : List ℕ) × (length given ≡ n)
            × (S.left source.old ≡ before given (S.left source.new))
            × (self.new ≡ record self.old { line = []; kept = self.old.kept ++ given })) }
        ensures end { IfOk result (λ n. n ≡ 0 → IsAtEnd (S.left source.new)) }
        ensures left { OnErr result (S.left source.new ≡ S.left source.old) }
        ensures same { OnErr result (self.new ≡ record self.old { line = [] }) }
        ensures cause { OnErr result (HasRisen (S.faults source.old) (S.faults source.new)) }
        ensures count { S.faults source.old ≤ S.faults source.new }
    {
        let shift = self.start;
        self.buffer.copy_within(shift..self.end, 0);
        self.line_start = 0;
        self.line_end = 0;
        self.start = 0;
        self.end -= shift;
        let count = fill(source, &mut self.buffer, self.end)?;
        self.end += count;
        Ok(count)
    }

    #[tactic(auto, using(crate::proofs::Feeds::until_feed_whole))]
    // Cuts a line from what is kept, where a whole line or too much of one is there.
    fn cut_line(&mut self) -> Option<Turn>
        requires { self.old.stand ≡ Open }
        ensures none { MatchOption result (NeedsRead self.old × (self.new ≡ self.old))
            (λ turn. CutsKept self.old.kept turn self.new) }
        ensures longest { self.new.longest ≡ self.old.longest }
    {
        let kept = self.octets();
        let all = kept.len();
        let Some(at) = feed_at(kept) else {
            if self.is_longer(all) {
                self.stop(Stand::Long);
                return Some(Turn::Long);
            }
            return None;
        };
        if self.is_longer(at) {
            self.stop(Stand::Long);
            return Some(Turn::Long);
        }
        let (line, _) = kept.split_at(at);
        let end = end_of(line);
        self.cut(end, at + 1);
        Some(Turn::Line)
    }

    // Cuts the last line, which no line feed ends.
    fn cut_last(&mut self) -> Turn
        requires { NeedsRead self.old }
        ensures end { CutsEnd self.old.kept result self.new }
        ensures longest { self.new.longest ≡ self.old.longest }
    {
        self.stop(Stand::End);
        let all = self.octets().len();
        if all == 0 {
            return Turn::End;
        }
        self.cut(all, all);
        Turn::Line
    }

    /// Cuts the next line, which [`line`](Self::line) then gives: without its line feed and a
    /// carriage return before that. The last line may have no line feed, and then keeps a carriage
    /// return at its end. It takes no memory.
    ///
    /// It reads only where [`has_line`](Self::has_line) says no. After `Long`, `End` and
    /// `ReadFault` it answers the same for good.
    pub fn advance<S: Source>(&mut self, source: &mut S) -> Turn
        ensures next { Advances self.old (S.left source.old) (S.left source.new)
            (HasRisen (S.faults source.old) (S.faults source.new)) result self.new }
        ensures idle { (NeedsRead self.old → ⊥) → source.new ≡ source.old }
        ensures longest { self.new.longest ≡ self.old.longest }
        ensures count { S.faults source.old ≤ S.faults source.new }
    {
        match self.stand() {
            Stand::Open => {
                if let Some(turn) = self.cut_line() {
                    return turn;
                }
                self.read_on(source)
            }
            Stand::Long => Turn::Long,
            Stand::End => Turn::End,
            Stand::ReadFault => Turn::ReadFault,
        }
    }

    // Reads until the next line can be told.
    fn read_on<S: Source>(&mut self, source: &mut S) -> Turn
        requires { NeedsRead self.old }
        ensures next { (given : List ℕ) × (S.left source.old ≡ before given (S.left source.new))
            × Cuts (self.old.kept ++ given) (S.left source.new)
            (HasRisen (S.faults source.old) (S.faults source.new)) result self.new }
        ensures longest { self.new.longest ≡ self.old.longest }
        ensures count { S.faults source.old ≤ S.faults source.new }
    {
        loop {
            match self.more(source) {
                Err(Failed) => {
                    self.stop(Stand::ReadFault);
                    return Turn::ReadFault;
                }
                Ok(0) => return self.cut_last(),
                Ok(_) => {}
            }
            if let Some(turn) = self.cut_line() {
                return turn;
            }
        }
    }
}
