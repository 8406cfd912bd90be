//! Names of a module of textual LLVM IR that are defined twice, or that nothing may have (LLVM Language Reference Manual,
//! "Identifiers").
#![tactic(auto)]

mod defined;
mod item_name;
mod ordered;
mod repeated;
mod reserved;
mod symbol;

pub use item_name::ItemName;
pub use ordered::item_names;
pub use repeated::repeated_lines;
pub use reserved::first_misnamed;
pub use symbol::bytes_of;
