//! Readers of values of textual LLVM IR (LLVM Language Reference Manual, "Constants"), each proved
//! to read exactly what its rule of the grammar says, up to the first bad token.
#![tactic(auto)]

mod globals;
mod values;

pub use globals::{
    read_declared_use, read_dropped_intrinsic, read_function_use, read_global_use,
    read_metadata_intrinsic,
};
pub use values::{
    read_constant_gep, read_operand, read_scalar, read_typed_literal, read_typed_operand,
};
