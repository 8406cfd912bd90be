//! Arguments of calls.
use crate::value::Value;

/// An argument of a call (LangRef, "'call' Instruction").
#[derive(Clone, Copy, PartialEq, Eq)]
pub struct Argument {
    /// Its value.
    pub value: Value,
    /// The alignment in bytes that is written, 1 where none is.
    pub align: u64,
}
