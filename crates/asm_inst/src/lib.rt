//! The lines of instructions.
//!
//! A line is a tab and the mnemonic, and, where the instruction has operands, a tab and these, separated by a comma and a
//! blank (RISC-V Assembly Programmer's Manual). An instruction that has a short form, `li`, `mv` or `ret`, stands in that
//! form alone. Each is read in the one spelling that the code generator gives it.
#![tactic(auto)]

mod bytes;
mod mnemonic;
mod number;
mod operands;
mod reader;
mod register;
mod short;
mod target;

pub use bytes::{after, before, cut_at};
pub use number::is_number;
pub use reader::read_inst;
pub use target::{Target, read_open, target_of};
