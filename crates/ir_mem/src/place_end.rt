//! Why a block is not placed.

/// Why a block is not placed.
#[derive(Clone, Copy, Debug, PartialEq, Eq)]
pub enum PlaceEnd {
    /// The address is 0 or no multiple of the alignment, or a block there would wrap or meet a live one.
    Taken { at: u64 },
    /// No memory is left.
    NoMemory,
}
