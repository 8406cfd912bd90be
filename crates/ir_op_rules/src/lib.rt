//! The rules on types that instructions other than calls keep, and phis, terminators and the heads of functions (LangRef,
//! "Instruction Reference").
#![tactic(auto)]

mod arithmetic;
mod casts;
mod control;
mod functions;
mod memory;
mod ops;
mod parts;
mod scope;
mod sizes;
mod switches;
mod values;
mod written;

pub use functions::push_op_lines;
pub use memory::is_access_aligned;
pub use sizes::{count_of, small_size};
pub use values::are_same;
