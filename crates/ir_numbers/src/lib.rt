//! The items of a module of textual LLVM IR in their order (LLVM Language Reference Manual, "Identifiers"): the place of
//! each among all of them, and the numbers of those that have no name.
#![tactic(auto)]

mod modules;
mod numbered;
mod parts;

pub use modules::{items_keep_their_order, module_from};
pub use numbered::number_entities;
