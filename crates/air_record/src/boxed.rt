ghost use Rattle.std.specs.Prelude.{◌≡◌, IfOk};

use crate::line::Line;
use l2_bits::NoMemory;
use std::alloc::Global;
use std::marker::Model;

/// A line that lies apart, so that a record, most of which have no line, is as short as the others
/// are. Contracts see the line.
#[derive(Debug, Drop)]
pub struct BoxedLine {
    line: Box<Line>,
}

impl Model for BoxedLine {
    ghost use Rattle.air_record.specs.declared.line.Line.{Line};

    ghost Value = { Line };

    ghost view = { λ b. b.line.value };
}

impl BoxedLine {
    /// Takes over a line.
    pub fn new(alloc: Global, line: Line) -> Result<BoxedLine, NoMemory>
        ensures { IfOk result (λ boxed. boxed ≡ line) }
    {
        Ok(BoxedLine {
            line: Box::new(alloc, line)?,
        })
    }

    /// The line.
    pub fn as_line(&self) -> &Line
        ensures { result.now ≡ self.now }
    {
        &self.line
    }
}
