//! Checks of a module of textual LLVM IR (LLVM Language Reference Manual): a module that keeps the rules on names, types, the
//! flow of control and aliases, and the limits on what a module has; or the first rule that it breaks.
#![tactic(auto)]

mod checked;
mod checking;
mod faults;
mod hosts;
mod limits;
mod types;

pub use checked::Checked;
pub use checking::check;
pub use faults::least_line;
pub use hosts::is_i32;
pub use limits::exceeded_limit;
pub use types::types_of;
