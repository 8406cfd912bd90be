//! Indices of `getelementptr` (LangRef, "'getelementptr' Instruction"): whether they are in range, and the offsets of
//! constant ones; and the lines of what breaks a rule on operands.
#![tactic(auto)]

mod gep_lines;
mod index;
mod offset;
mod operand_lines;
mod operands;
mod parts;
mod range;

pub use gep_lines::push_gep_lines;
pub use index::{GepIndex, literal_word};
pub use offset::{field_begin, gep_offset};
pub use operand_lines::{OperandRule, push_operand_lines};
pub use parts::part_of;
pub use range::{is_in_range, parts_in_range};
