//! Identifiers of textual LLVM IR (LangRef, "Identifiers"): names and the numbers of unnamed items, compared, and
//! maps and sets of them.
#![tactic(auto)]

mod name;
mod name_key;
mod names;
mod number;
mod number_map;

pub use name::{Identifier, Name, NameUse};
pub use names::{NameMap, NameSet};
pub use number::ItemNumber;
