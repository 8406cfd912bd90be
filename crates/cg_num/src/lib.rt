//! The operations of LLVM IR on integers of up to 128 bits: their names and flags, and what they give.
//!
//! Sections are of the LLVM Language Reference Manual (LangRef).
#![tactic(auto)]

mod applying;
mod comparison;
mod dividing;
mod end;
mod flags;
mod function;
mod op;
mod operation;
mod pred;
mod right;
mod sign;
mod width;
mod wrapping;

pub use applying::apply;
pub use comparison::compare;
pub use end::BinEnd;
pub use flags::Flags;
pub use function::IntegerFunction;
pub use op::BinOp;
pub use operation::bin;
pub use pred::Pred;
pub use width::{to_signed, wrap};
