//! MAC PDUs of TS 36.321: subheaders, control elements, SDUs and padding, read and written.
#![tactic(auto)]

mod builder;
mod fault;
mod item;
mod laws;
mod octets;
mod reader;
mod sizes;
mod subheader;

pub use builder::MacBuilder;
pub use fault::{MacRefusal, MacWhy};
pub use item::{Bsr, Control, Direction, Item};
pub use laws::{
    canonical_differs, canonical_fits, never_both, reads_one_list, reads_what_was_written,
    writing_grows,
};
pub use reader::MacReader;
