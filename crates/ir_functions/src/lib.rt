//! Readers of declarations and definitions of functions of textual LLVM IR (LLVM Language Reference
//! Manual, "Functions"), each proved to read exactly what its rule of the grammar says, up to the first
//! bad token.
#![tactic(auto)]

mod functions;
mod opening;

pub use functions::{read_declaration, read_definition, read_opening};
pub use opening::Opening;
