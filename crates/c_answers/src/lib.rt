//! What the calls of the libraries for C answer (`include/zubhanit.h`).
#![tactic(auto)]

/// All is done.
pub const DONE: u32 = 0;

/// A number or a length is out of the range that its parameter has.
pub const RANGE: u32 = 2;

/// What was to be read is refused; the refusal says where and why.
pub const REFUSED: u32 = 3;

/// There is too little room for what is to be written.
pub const ROOM: u32 = 4;

/// Memory ran out.
pub const NO_MEMORY: u32 = 7;
