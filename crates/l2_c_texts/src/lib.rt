//! The commands `run` and `decode`, as C, C++ and Rust may call them.
#![tactic(auto)]

mod texts;

pub use texts::{zubhanit_decode, zubhanit_run};
