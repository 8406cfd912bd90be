//! The top-level entities of a module of textual LLVM IR (LLVM Language Reference Manual, "Module Structure"), and
//! the names that each of them defines and uses.
#![tactic(auto)]

mod entity;
mod items;
mod site;
mod uses;

pub use entity::{Entities, Entity};
pub use items::{locals_of, push_top_level};
pub use site::{NameKind, Site};
pub use uses::uses_of;
