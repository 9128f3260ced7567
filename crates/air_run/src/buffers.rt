// What the base station is told of the terminal's buffers.
ghost use Rattle.std.specs.Prelude.{◌≡◌, ◌<◌, IfSome, slice_set};
ghost use Rattle.std.specs.List.{All};
ghost use Rattle.air_run.specs.Buffers.{no_buffers, report_of_items, report_of_block, levels_by};
ghost use Rattle.air_run.specs.Buffers.{after_line, after_record};
ghost use Rattle.mac_pdu.specs.Items.{IsReport};

use air_record::Arrived;
use air_text::{Line, Record};
use l2_bits::OCTETS_LIMIT;
use mac_pdu::{Bsr, Control, Direction, Item, MacReader};
use std::marker::Model;

/// The report in the last uplink block, and the Buffer Size level of each group, below 64.
#[derive(Drop)]
pub(crate) struct Buffers {
    report: Option<Bsr>,
    levels: [u8; 4],
}

impl Model for Buffers {
    ghost use Rattle.std.specs.Prelude.{◌<◌, IfSome};
    ghost use Rattle.std.specs.List.{All};
    ghost use Rattle.air_run.specs.Buffers.{Buffers as Machine};
    ghost use Rattle.mac_pdu.specs.Items.{IsReport};

    ghost Value = { Machine };

    ghost view = { λ b. record { report = b.report; levels = b.levels } };

    ghost invariant = { λ b. IfSome b.report IsReport × All (λ level. level < 64) b.levels };
}

impl Buffers {
    /// Nothing was told.
    #[tactic(auto, unfolding(crate::specs::Buffers::no_buffers))]
    pub fn new() -> Buffers
        ensures { result ≡ no_buffers }
    {
        Buffers {
            report: None,
            levels: [0; 4],
        }
    }

    /// The levels that were told last.
    pub fn levels(&self) -> [u8; 4]
        ensures levels { result ≡ self.now.levels }
        ensures within { All (λ level. level < 64) result }
    {
        self.levels
    }

    /// Sees a line that begins.
    pub fn begin(&mut self, line: &Line)
        ensures { self.new ≡ after_line line.now self.old }
    {
        if let Line::Handover { .. } = line {
            *self = Buffers::new();
        }
    }

    /// Sees the next record.
    pub fn see(&mut self, one: &Record)
        ensures { self.new ≡ after_record one.now self.old }
    {
        match one {
            Record::Line { line, .. } => self.begin(line.as_line()),
            Record::Block {
                direction: Direction::Up,
                octets,
                ..
            } => self.report = report_of_block(octets.as_slice()),
            Record::Air {
                direction: Direction::Up,
                what: Arrived::Got,
                ..
            } => self.levels = levels_by(self.report, self.levels),
            _ => (),
        }
    }
}

// The report in a block.
#[tactic(auto, unfolding(crate::specs::Buffers::report_of_block))]
fn report_of_block(block: &[u8]) -> Option<Bsr>
    ensures report { result ≡ report_of_block block.now }
    ensures fields { IfSome result IsReport }
{
    if block.len() >= OCTETS_LIMIT {
        return None;
    }
    match MacReader::parse(Direction::Up, block) {
        Ok(items) => report_of_items(items),
        Err(_) => None,
    }
}

fn report_of_items(mut items: MacReader<'_>) -> Option<Bsr>
    ensures { result ≡ report_of_items items.entry }
{
    while let Some(item) = items.next() {
        if let Item::Element(Control::Report(report)) = item {
            return Some(report);
        }
    }
    None
}

// The levels after a report.
fn levels_by(report: Option<Bsr>, levels: [u8; 4]) -> [u8; 4]
    requires fields { IfSome report IsReport }
    requires within { All (λ level. level < 64) levels }
    ensures levels { result ≡ levels_by report levels }
    ensures within { All (λ level. level < 64) result }
{
    match report {
        None => levels,
        Some(Bsr::Long { levels: told }) => told,
        Some(Bsr::Short { group, level }) => with_level([0; 4], group, level),
        Some(Bsr::Truncated { group, level }) => with_level(levels, group, level),
    }
}

fn with_level(levels: [u8; 4], group: u8, level: u8) -> [u8; 4]
    requires group { group < 4 }
    requires level { level < 64 }
    requires within { All (λ level. level < 64) levels }
    ensures levels { result ≡ slice_set levels group level }
    ensures within { All (λ level. level < 64) result }
{
    let mut told = levels;
    told[group as usize] = level;
    told
}
