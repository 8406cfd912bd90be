//! The names in the assembly of the functions, variables and aliases that have none in the text (LLVM Language Reference
//! Manual, "Identifiers").
#![tactic(auto)]

mod given;
mod item_name;
mod symbol;

pub use given::given_names;
pub use symbol::alias_symbol;
