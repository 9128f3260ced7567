//! An unacknowledged data bearer at one end of the link: PDCP over unacknowledged RLC.
//!
//! Contracts speak of an exact machine, which stands in `specs/`. Where a call answers `NoMemory`,
//! nothing is said of the bearer from then on.

mod feeding;
mod running;
mod stopped;

pub use running::{BoxedUm, UmBearer};
pub use stopped::StoppedUm;
