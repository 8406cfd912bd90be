//! What a module means (LangRef): values, the operations on them, memory, each step of a run and each way in which one is
//! undefined. Definitions alone: the interpreter, the passes of the code generator and the claims about linked programs share them.
#![tactic(auto)]

mod argument;
mod value;

pub use argument::Argument;
pub use value::Value;
