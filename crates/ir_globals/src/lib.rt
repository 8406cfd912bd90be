//! Readers of global variables and aliases of textual LLVM IR (LLVM Language Reference
//! Manual, "Global Variables" and "Aliases"), each proved to read exactly what its rule of the grammar
//! says, up to the first bad token.
#![tactic(auto)]

mod defined;
mod heads;
mod variables;

pub use heads::{read_linkage, read_visibility};
pub use variables::read_global_entity;
