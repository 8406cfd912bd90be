//! The words of the command line, read to what the program is asked to do.
#![tactic(auto)]

mod number;
mod syntax;
mod types;
mod words;

pub use types::{Command, Mode, WordsEnd};
pub use words::read_words;
