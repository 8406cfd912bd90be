//! Readers of the items at the top of a module of textual LLVM IR (LLVM Language Reference Manual, "Module Structure"),
//! proved to read exactly what the grammar says, up to the first bad token; and whether that stands in the first block
//! of a function.
#![tactic(auto)]

mod first_block;
mod items;

pub use first_block::is_in_first_block;
pub use items::read_items;
