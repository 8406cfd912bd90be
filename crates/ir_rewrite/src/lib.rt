//! Modules with their types and their constant addresses replaced (LangRef, "Type System" and "Constant Expressions").
#![tactic(auto)]

mod blocks;
mod inits;
mod items;
mod lists;
mod ops;
mod parts;
mod rewrite;

pub use items::rewrite_module;
pub use rewrite::Rewrite;
