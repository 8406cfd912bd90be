//! Readers of phis and terminators of textual LLVM IR (LLVM Language Reference Manual, "'phi'
//! Instruction" and "Terminator Instructions"), each proved to read exactly what its rule of the grammar
//! says, up to the first bad token.
#![tactic(auto)]

mod phis;
mod term_body;
mod terms;

pub use phis::read_phi;
pub use terms::{begins_term, read_term};
