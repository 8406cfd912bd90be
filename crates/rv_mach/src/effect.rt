//! What an instruction does beside changing registers and memory.
use crate::stop::Stop;

/// How a machine goes on after an instruction.
#[derive(Clone, Copy, Debug)]
pub(crate) enum Effect {
    /// With the next instruction.
    Next,
    /// At this address.
    Jump(u64),
    /// With the next instruction, once this byte was put.
    Put(u8),
    /// Not at all.
    Stop(Stop),
}
