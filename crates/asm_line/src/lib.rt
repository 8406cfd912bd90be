//! What one line of assembly says.
//!
//! A line is a directive, `.text`, `.globl` with a symbol or `.p2align` with 2, a symbol or a label with a colon, or one of an
//! instruction, whose target may be a label. A directive is a tab, the word, and, where it has an operand, a tab and this. Each is read in the one
//! spelling that the code generator gives it.
#![tactic(auto)]

mod line;
mod symbol;

pub use line::read_line;
pub use symbol::is_bare;
