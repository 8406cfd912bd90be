//! The blocks of a function of textual LLVM IR that some path from its first block reaches (LangRef, "Functions"),
//! the successors of each, how many instructions they have, and what a search for such blocks is made of.
#![tactic(auto)]

mod reached;
mod sizes;
mod successors;

pub use reached::{is_marked, label_places, reachable_marks, see, see_all, unmarked};
pub use sizes::{function_sizes, total_size, whole_size};
pub use successors::{push_place, successors_of};
