//! An assembler for the text that the code generator writes.
//!
//! A text is lines, each ended by a line feed, and `asm_line` reads what each of them says: directives,
//! symbols and instructions.
#![tactic(auto)]

mod assembler;
mod build;
mod check;
mod labels;
mod lines;
mod names;
mod object;
mod refusal;

pub use assembler::{assemble, ordered_lines_are_assembled};
pub use object::{Needs, Object, ObjectSymbol, Section, Symbols, Words};
pub use refusal::AsmRefusal;
