//! The rules on types that calls keep: those of the function that is called, and of an intrinsic by its name (LangRef, "'call'
//! Instruction" and "Intrinsic Functions").
#![tactic(auto)]

mod args;
mod calls;
mod functions;
mod immediates;
mod intrinsic;
mod ops;
mod parts;
mod pieces;
mod scope;
mod signatures;
mod spelling;

pub use functions::push_call_lines;
pub use intrinsic::Intrinsic;
pub use spelling::intrinsic_of;
