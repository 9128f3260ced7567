//! The lines of a script and the records of a journal, and the text of each.
#![tactic(auto)]

mod boxed;
mod events;
mod keys;
mod line;
mod lines;
mod naming;
mod printing;
mod record;
mod short_text;
mod shown;
mod submission;
mod word;

pub use boxed::BoxedLine;
pub use keys::no_keys;
pub use line::{Fate, Line, Outcome};
pub use printing::{append_accepted, append_record, print, print_line};
pub use record::{Arrived, Lens, NoPlace, Record, State};
pub use submission::Submission;
