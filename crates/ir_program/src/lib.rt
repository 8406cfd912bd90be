//! A module prepared for running: of each function the code of its blocks, over slots in place of names.
#![tactic(auto)]

mod block;
mod function;
mod instr;

pub use block::BlockCode;
pub use function::{FunctionCode, functions_of};
pub use instr::InstrCode;
