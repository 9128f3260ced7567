//! The texts of records give the records back: no two records have one text.
#![tactic(auto)]

mod laws;

pub use laws::{event_texts, one_text, texts_are_read, words_of_text};
