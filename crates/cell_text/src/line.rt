use air_text::{Line, Outcome};

/// The greatest total of a TTI and direction, in octets.
pub const GREATEST_TOTAL: u32 = 75_376;

/// The most terminals of a cell.
pub const MOST_USERS: u32 = 8;

/// A line of a cell's input. Terminals are numbered from 0 to 7.
#[derive(Debug, Drop)]
pub enum CellLine {
    /// The cell has so many terminals, 1 to 8.
    Cell {
        users: u32,
    },
    /// A line of a terminal's own script; `None` where it is empty or a comment.
    To {
        user: u32,
        line: Option<Line>,
    },
    /// What becomes of a terminal's blocks from now on.
    Air {
        user: u32,
        up: Outcome,
        down: Outcome,
    },
    /// One TTI of all terminals, with totals of 0 to 75376 octets.
    Go {
        up_total: u32,
        down_total: u32,
    },
    /// What follows isn't read.
    End,
}
