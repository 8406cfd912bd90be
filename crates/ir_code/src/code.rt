//! Instructions that are prepared for running.

use crate::operation::Operation;
use ir_slots::Inputs;

/// An instruction that is prepared for running.
#[derive(Drop)]
pub enum Code {
    /// One that does not enter a function.
    Plain(Operation),
    /// A call of a function that has blocks.
    Enter {
        /// Its place in the module, counted from 0.
        function: usize,
        /// The arguments.
        arguments: Inputs,
    },
}
