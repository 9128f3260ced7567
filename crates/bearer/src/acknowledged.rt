//! A bearer over acknowledged RLC at one end of the link, of data or of signalling: PDCP over both
//! sides of acknowledged RLC.
//!
//! Contracts speak of an exact machine, which stands in `specs/`. Where a call answers `NoMemory`,
//! nothing is said of the bearer from then on.

mod feeding;
mod hearing;
mod report;
mod running;
mod stopped;
mod taking;
mod timing;

pub use running::{AmBearer, BoxedAm};
pub use stopped::StoppedAm;
