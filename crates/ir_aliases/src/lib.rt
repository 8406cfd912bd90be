//! The ends of chains of aliases (LangRef, "Aliases").
#![tactic(auto)]

mod bad;
mod ends;
mod functions;
mod position;
mod steps;
mod tables;
mod values;

pub use bad::first_bad_alias;
pub use ends::AliasEnds;
pub use position::End;
pub use values::push_function_value_lines;
