//! The promises of every journal, in the words of its lines and records alone.
//!
//! The crate has definitions, in `specs`, and no code. Each says of a journal's groups (an
//! accepted line with the records behind it), of which the newest stands first, what is promised of
//! them. `law_run` proves them of the journal of every script. They cite the types of lines and
//! records, how octets are read as PDUs, and the words of this crate and of `law_words`: no state
//! of a machine, and no law.
#![tactic(auto)]
