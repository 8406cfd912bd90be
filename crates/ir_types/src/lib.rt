//! Readers of names and types of textual LLVM IR (LLVM Language Reference Manual, "Identifiers" and
//! "Type System"), each proved to read exactly what its rule of the grammar says, up to the first
//! bad token.
#![tactic(auto)]

mod digits;
mod literals;
mod names;
mod quoted;
mod types;

pub use names::{name_of, use_here};
pub use quoted::unescaped;
pub use types::{
    begins_type, read_literal, read_local_name, read_local_use, read_result_type, read_struct,
    read_type,
};
