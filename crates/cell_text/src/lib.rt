//! The lines of a cell's input, read.
#![tactic(auto)]

mod line;
mod reading;

pub use line::{CellLine, GREATEST_TOTAL, MOST_USERS};
pub use reading::read_cell_line;
