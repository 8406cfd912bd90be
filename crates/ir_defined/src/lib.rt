//! Uses of local names that some path reaches without their definition (LangRef, "Well-Formedness").
#![tactic(auto)]

mod known;
mod least;
mod names;
mod owners;
mod undefined;

pub use undefined::undefined_use;
