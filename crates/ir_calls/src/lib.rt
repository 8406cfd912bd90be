//! Readers of arguments and calls of textual LLVM IR (LLVM Language Reference Manual, "'call'
//! Instruction"), each proved to read exactly what its rule of the grammar says, up to the first
//! bad token.
#![tactic(auto)]

mod arguments;
mod calls;
mod metadata;

pub use arguments::read_parameter_types;
pub use calls::{begins_call, is_convention, read_call, skip_convention};
pub use metadata::begins_metadata_or_type;
