//! The types that a module of textual LLVM IR writes, as often as it writes them, and their places.
#![tactic(auto)]

mod blocks;
mod items;
mod mention;
mod places;
mod which;

pub use items::written_types;
pub use mention::Mention;
pub use places::{is_any_defined, mentioned_places, places_by};
pub use which::Which;
