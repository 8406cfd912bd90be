//! Live blocks.
use crate::bytes::Bytes;

/// A live block: the place of a global variable, or of an `alloca` of an active call.
#[derive(Drop)]
pub struct Block {
    /// The address of its first byte.
    pub base: u64,
    /// What it has.
    pub bytes: Bytes,
    /// Whether a store may change it.
    pub writable: bool,
}
