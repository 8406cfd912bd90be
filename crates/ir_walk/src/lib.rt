//! Walks over functions of textual LLVM IR, in the order of the text: the types, operands, callees and labels that each
//! part has, and the names that a function defines.
#![tactic(auto)]

mod blocks;
mod locals;
mod ops;
mod visitor;
mod walk;

pub use blocks::walk_signature;
pub use locals::{LocalVisitor, walk_locals};
pub use visitor::Visitor;
pub use walk::Walk;
