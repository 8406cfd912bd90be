//! Paths through the blocks of a function of textual LLVM IR (LangRef, "Functions"): the blocks that they reach past others,
//! and a tree in which each block stands under blocks that all paths to it pass.
#![tactic(auto)]

mod dominators;
mod search;
mod semidominators;
mod successors;
mod tree;
mod walk;

pub use search::marks_past;
pub use successors::{Successors, successor_lists};
pub use tree::{Parent, is_above, tree_of};
