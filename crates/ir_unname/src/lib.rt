//! Modules without names of types (LangRef, "Structure Type").
#![tactic(auto)]

mod plain;
mod unnaming;
mod whole;

pub use whole::without_type_names;
