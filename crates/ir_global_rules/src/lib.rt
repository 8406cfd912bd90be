//! The rules on the types that global variables and aliases write (LangRef, "Global Variables" and "Aliases").
#![tactic(auto)]

mod fits;
mod lines;
mod same;
mod sized;

pub use lines::push_global_lines;
