//! Functions without the blocks that nothing reaches (LangRef, "Functions").
#![tactic(auto)]

mod entries;
mod parts;
mod pruned;

pub use pruned::prune;
