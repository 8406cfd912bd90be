//! The types that a module is about, with the names in them replaced.
#![tactic(auto)]

mod laws;
mod planned;

pub use laws::checked_types_were_counted;
pub use planned::types_plan;
