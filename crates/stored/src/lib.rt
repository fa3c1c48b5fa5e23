// Stored answers of the Rust: lists in files, the words, the sheets and the answers in a list, and how many of the answers differ.
#![tactic(auto)]

pub mod answers;
pub mod list;
pub mod parameters;
pub mod sheets;
pub mod tally;
pub mod words;
