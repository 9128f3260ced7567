//! A cell of several terminals that share totals of octets: the program `l2cell`, from the octets
//! of an input to the octets written.
//!
//! Contracts speak of an exact machine, which stands in `specs/`.
#![tactic(auto)]

mod cell;
mod command;
mod fault;
mod laws;
mod numbered;
mod player;
mod terminal;
mod terminals;

pub use command::cell_main;
pub use fault::{CellRefusal, CellRule};
pub use laws::all_run_alone;
pub use line_player::Status as CellStatus;
