//! The memory that a run begins with: the blocks of a module's variables and their bytes.
#![tactic(auto)]

mod bytes;
mod init;
mod padding;
mod variables;

pub use variables::first_memory;
