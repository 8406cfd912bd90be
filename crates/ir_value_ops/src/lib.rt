//! Readers of operations on values of textual LLVM IR (LLVM Language Reference Manual, "Binary
//! Operations", "Conversion Operations" and "Other Operations"), each proved to read exactly what
//! its rule of the grammar says, up to the first bad token.
#![tactic(auto)]

mod binary;
mod casts;
mod pair;
mod predicate;
mod value_choice;
mod wraps;

pub use pair::read_next_operand;
pub use value_choice::{begins_value_op, read_value_op};
