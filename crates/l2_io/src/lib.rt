//! Where octets come from and go to: sources and sinks, the lines of a source, and output that is
//! gathered.
#![tactic(auto)]

mod gather;
mod give;
mod lines;
mod mem;
mod sink;
mod source;
mod streams;
mod sure;

pub use gather::GatherSink;
pub use lines::{Lines, Stand, Turn};
pub use mem::{MemSink, MemSource};
pub use sink::{PutFault, Sink};
pub use source::{Failed, Source};
pub use streams::{AheadSource, StdSink, StdSource};
pub use sure::{SureSink, SureSource};
