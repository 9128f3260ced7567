//! The script of a number: a large workload for the program, made step by step as its octets are
//! read, or as its lines are taken.
#![tactic(auto)]

mod draws;
mod laws;
mod line;
mod lines;
mod script;
mod steps;
mod text;

pub use laws::script_says_its_lines;
pub use lines::ScriptLines;
pub use script::Script;
