//! The reader of blocks of textual LLVM IR (LLVM Language Reference Manual, "Functions"), proved to read
//! exactly what its rule of the grammar says, up to the first bad token.
#![tactic(auto)]

mod blocks;
mod reader;
mod statement;
mod statements;

pub use blocks::begins_block;
pub use reader::read_block;
