//! Why objects cannot be linked.
use rv_isa::SymName;

/// Why there is no image. The variants are in the order in which they are looked for.
#[derive(Drop)]
pub enum LinkRefusal {
    /// A global symbol that an object before, or the runtime, also defines as a global one.
    Duplicate {
        /// The symbol.
        name: SymName,
    },
    /// A name that an object needs, which neither it nor a global symbol defines.
    Undefined {
        /// The name.
        name: SymName,
    },
    /// The image would exceed 67,108,864 bytes.
    TooLarge {
        /// Its size in bytes, or 2^64 - 1 where that is greater.
        bytes: u64,
    },
    /// An allocation failed.
    NoMemory,
}

/// Why objects whose global names differ have no image. The variants are in the order in which they are looked for.
#[derive(Drop)]
pub enum Unlinked {
    /// A name that an object needs, which neither it nor a global symbol defines.
    Undefined {
        /// The name.
        name: SymName,
    },
    /// The image would exceed 67,108,864 bytes.
    TooLarge {
        /// Its size in bytes, or 2^64 - 1 where that is greater.
        bytes: u64,
    },
    /// An allocation failed.
    NoMemory,
}
