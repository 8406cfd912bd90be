//! Readers of operations of textual LLVM IR (LLVM Language Reference Manual, "Instruction
//! Reference"), each proved to read exactly what its rule of the grammar says, up to the first bad
//! token.
#![tactic(auto)]

mod choice;
mod indices;
mod memory;
mod tails;

pub use choice::{begins_op, read_entry_op, read_plain_op};
