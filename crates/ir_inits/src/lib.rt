//! Readers of initialisers of textual LLVM IR (LLVM Language Reference Manual, "Global Variables" and
//! "Complex Constants"), each proved to read exactly what its rule of the grammar says, up to the first
//! bad token.
#![tactic(auto)]

mod initialisers;

pub use initialisers::read_init;
