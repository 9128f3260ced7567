// The SDU of a `submit` line.
ghost use Rattle.std.specs.Prelude.{◌≡◌, IfOk};
ghost use Rattle.air_record.specs.Submissions.{refuses, submitted_by};

use crate::line::Line;
use crate::record::Record;
use l2_bits::{Bytes, NoMemory};
use l2_types::Side;
use std::alloc::Global;

/// An SDU that a `submit` line hands to a side on a logical channel, 0 to 10.
#[derive(Drop)]
pub struct Submission {
    pub side: Side,
    pub lcid: u8,
    pub octets: Bytes,
}

impl Submission {
    /// That of a line, `None` where the line submits nothing. Its octets are a copy.
    pub fn of(alloc: Global, line: &Line) -> Result<Option<Submission>, NoMemory>
        ensures { IfOk result (λ sdu. sdu ≡ submitted_by line.now) }
    {
        match line {
            Line::Submit { side, lcid, octets } => Ok(Some(Submission {
                side: *side,
                lcid: *lcid,
                octets: Bytes::from_slice(alloc, octets.as_slice())?,
            })),
            _ => Ok(None),
        }
    }
}

impl Record {
    /// Whether it refuses an SDU of a side, on a logical channel. Directly behind the SDU's line it
    /// says that the SDU isn't submitted.
    #[inline]
    pub fn refuses(&self, side: Side, lcid: u8) -> bool
        ensures { result ≡ refuses side lcid self.now }
    {
        match self {
            Record::Refused {
                side: of,
                lcid: on,
                ..
            } => *of == side && *on == lcid,
            _ => false,
        }
    }
}
