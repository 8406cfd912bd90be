//! Readers of what a function says before its body of textual LLVM IR (LLVM Language Reference
//! Manual, "Functions"), each proved to read exactly what its rule of the grammar says, up to the
//! first bad token.
#![tactic(auto)]

mod parameters;
mod prototype;
mod signatures;
mod suffixes;

pub use prototype::Prototype;
pub use signatures::{read_declared_signature, read_defined_signature};
pub use suffixes::{skip_declared_ends, skip_defined_ends, skip_metadata};
