//! Tests of the streams and of the words of the command line. They stand apart from the crates that they call, since a
//! crate with tests is proved twice.
#![tactic(auto)]

#[cfg(test)]
mod streams;
#[cfg(test)]
mod words;
