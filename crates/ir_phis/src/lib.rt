//! The rules of textual LLVM IR on the edges between the blocks of a function (LangRef, "phi Instruction" and
//! "Functions"): nothing leads to the first block, and each phi has an entry for each edge to its block.
#![tactic(auto)]

mod entries;
mod predecessors;
mod types;
mod values;
mod wrong;

pub use wrong::push_phi_lines;
