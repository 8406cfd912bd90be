//! The uses of local names in the blocks of functions of textual LLVM IR, each with its line and its place
//! (LangRef, "Identifiers").
#![tactic(auto)]

mod uses;

pub use uses::{LocalUse, uses_of};
