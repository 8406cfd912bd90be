//! The room that a value of a type takes in memory (LangRef, "Data Layout").

/// The size and the alignment of a type.
#[derive(Clone, Copy, Debug, PartialEq, Eq)]
pub struct Layout {
    /// The number of bytes that a value takes, at most 4,294,967,295.
    pub size: u64,
    /// The number of bytes of which each address of a value is a multiple by default: a power of two.
    pub align: u64,
}

/// The type, or a type that is part of it, takes more than 4,294,967,295 bytes.
#[derive(Clone, Copy, Debug, PartialEq, Eq)]
pub struct TooBig;
