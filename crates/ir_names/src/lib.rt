//! Names of a module of textual LLVM IR (LLVM Language Reference Manual, "Identifiers"): whether each name that is used is
//! defined, and each number that is written the next one.
#![tactic(auto)]

mod definitions;
mod end;
mod faults;
mod least;
mod resolving;

pub use end::NamesEnd;
pub use resolving::resolve;
