//! The language of scripts and journals: lines read, records printed.
#![tactic(auto)]

mod fault;
mod fields;
mod limits;
mod options;
mod reading;

pub use air_record::{
    Arrived, Fate, Lens, Line, NoPlace, Outcome, Record, State, append_accepted, append_record,
    print, print_line,
};
pub use fault::{LineFault, LineRefusal};
pub use fields::{is_word, number, octets_into, outcome, split_word, words};
pub use limits::{LONGEST_LINE, MOST_LINES};
pub use reading::read_line;
