//! The ways between the blocks of a running function (LangRef, "Terminator Instructions" and "'phi' Instruction").
#![tactic(auto)]

mod edge;
mod exit;
mod ways;

pub use edge::{CaseEdge, CaseEdges, Edge};
pub use exit::{Exit, Turn};
pub use ways::Ways;
