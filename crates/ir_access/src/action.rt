//! What a step is about to do.
use ir_sem::Value;

/// What a step is about to do, once its operands have their values. Sizes are in bytes.
#[derive(Clone, Copy, PartialEq, Eq)]
pub enum Action {
    /// The result has this value; an instruction without a result has any.
    Give(Value),
    /// The result is any number of so many bits.
    Choose(u8),
    /// A new block; the result is its address.
    Reserve {
        /// Its size.
        size: u64,
        /// Its alignment, not 0.
        align: u64,
    },
    /// A number is written.
    Write {
        /// The address.
        at: u64,
        /// How many of its lowest bytes are written, 1 to 8.
        size: u8,
        /// The number.
        number: u64,
    },
    /// Any bytes of one value are written.
    WriteAny {
        /// The address.
        at: u64,
        /// How many, 1 to 8.
        size: u8,
    },
    /// The bytes of one range are written to another.
    Copy {
        /// The address that they are written to.
        to: u64,
        /// The address that they are read at.
        from: u64,
        /// How many, at least 1.
        size: u64,
    },
    /// One byte is written to all places of a range.
    Fill {
        /// The address.
        to: u64,
        /// How many places, at least 1.
        size: u64,
        /// The byte.
        byte: u8,
    },
    /// Any one byte is written to all places of a range.
    FillAny {
        /// The address.
        to: u64,
        /// How many places, at least 1.
        size: u64,
    },
    /// A byte of output.
    Put(u8),
    /// The next byte of input.
    Get,
    /// The abnormal end.
    Trap,
    /// Undefined behaviour.
    Break,
}
