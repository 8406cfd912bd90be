//! The types of LLVM IR with their sizes and alignments.
//!
//! Sections are of the LLVM Language Reference Manual (LangRef). Sizes and alignments are in bytes.
#![tactic(auto)]

mod copy;
mod count;
mod extent;
mod measure;
mod node;
mod plan;
mod plan_end;
mod types;

pub use extent::{Layout, TooBig};
pub use measure::{
    alignments_are_powers_of_two, array_layout, end_behind, integer_layout, layout, layout_behind,
};
pub use node::{TyId, TyNode};
pub use plan::{TyPlan, each_node_has_a_place};
pub use plan_end::PlanEnd;
pub use types::{Ty, TyList};
