//! Types as nodes that name each other by numbers (LangRef, "Type System").

/// The number of a node.
#[derive(Clone, Copy, Debug, PartialEq, Eq)]
pub struct TyId(pub u32);

/// One node of a type. Its parts are nodes that are named by their numbers.
#[derive(Clone, Copy, Debug, PartialEq, Eq)]
pub enum TyNode {
    /// An integer type.
    Int {
        /// The width in bits, 1 to 128.
        bits: u8,
    },
    /// The type `ptr`.
    Ptr,
    /// An array type.
    Array {
        /// The number of elements.
        len: u32,
        /// The type of each element.
        elem: TyId,
    },
    /// One field of a struct with the fields behind it.
    Cell {
        /// The field's type.
        head: TyId,
        /// The cell of the next field; none after the last one.
        tail: Option<TyId>,
    },
    /// A struct type.
    Struct {
        /// Whether its fields follow each other without padding.
        packed: bool,
        /// The cell of the first field; none where there is no field.
        first: Option<TyId>,
    },
}
