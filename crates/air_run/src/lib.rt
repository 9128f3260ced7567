//! The run of a script: both ends over the air, and the journal of what happens.
//!
//! Contracts speak of an exact machine, which stands in `specs/`.
#![tactic(auto)]

mod buffers;
mod draining;
mod journal;
mod keys;
mod laws;
mod playing;
mod refusal;
mod rules;
mod run;
mod sums;

pub use laws::shown_is_final;
pub use refusal::{RunRefusal, StepFault};
pub use run::Run;
