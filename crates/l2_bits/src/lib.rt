//! Lists of octets and of other items, rings of items that wait, fields of bits in octets, and the
//! errors that they share.
#![tactic(auto)]

mod bytes;
mod fault;
mod items;
mod laws;
mod limits;
mod reader;
#[cfg(test)]
mod tests;
mod waiting;
mod writer;

pub use bytes::Bytes;
pub use fault::{NoMemory, Short, SubmitRefusal};
pub use items::{Items, Packets};
pub use laws::reads_what_was_written;
pub use limits::OCTETS_LIMIT;
pub use reader::{BitReader, field};
pub use waiting::{Ring, make_room};
pub use writer::BitWriter;
