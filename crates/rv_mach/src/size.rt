//! How many bytes a load or a store has.

/// How many bytes a load or a store has (section "Load and Store Instructions").
#[derive(Clone, Copy)]
pub(crate) enum Size {
    /// One.
    Byte,
    /// Two.
    Half,
    /// Four.
    Word,
    /// Eight.
    Double,
}
