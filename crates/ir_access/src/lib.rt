//! What a step of a run is about to do, with ranges of memory in place of the bytes in them: accesses, copies and fills, each checked
//! against the live blocks.
#![tactic(auto)]

mod action;
mod loads;
mod ranges;
mod spread;
mod stores;

pub use action::Action;
pub use loads::{freeze, give_or_break, load};
pub use ranges::byte_count;
pub use spread::{copy, fill, put};
pub use stores::store;
