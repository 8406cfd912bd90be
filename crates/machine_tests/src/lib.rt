//! Tests of the encoding, the assembler, the linker and the machine: worked words, texts, links and runs, with values
//! from outside. They stand apart from the crates that they call, since a crate with tests is proved twice.
#![tactic(auto)]

#[cfg(test)]
mod assembling;
#[cfg(test)]
mod code;
#[cfg(test)]
mod encoding;
#[cfg(test)]
mod labels;
#[cfg(test)]
mod linking;
#[cfg(test)]
mod memory;
#[cfg(test)]
mod operations;
#[cfg(test)]
mod running;
