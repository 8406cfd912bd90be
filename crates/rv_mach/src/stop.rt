//! How a machine ends.

/// Where a machine stands after a run.
#[derive(Clone, Copy, Debug, PartialEq, Eq)]
pub enum Stop {
    /// It exited with this code, the low 32 bits of `a0` at `ecall` 93.
    Exited(u32),
    /// It trapped.
    Trapped(TrapKind),
    /// The stack pointer was below the stack.
    StackOut,
    /// It did not stop yet.
    Running,
}

/// What a machine can't do.
#[derive(Clone, Copy, Debug, PartialEq, Eq)]
pub enum TrapKind {
    /// A word that is no instruction of the machine.
    Illegal,
    /// An address that is no multiple of the size of what is fetched, loaded or stored there.
    Misaligned,
    /// A fetch from outside the image, or a load or store outside the image and the stack.
    Unmapped,
    /// An `ecall` with a number that the environment doesn't know.
    Ecall,
    /// An `ebreak`.
    Break,
}
