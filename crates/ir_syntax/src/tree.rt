//! Types as trees of what the text writes (LangRef, "Type System").
use ir_ident::NameUse;

/// A type as written. It is small, since most values that the text writes have one beside them: all but the smallest parts
/// are in a box. [`TyText`](crate::TyText) is what contracts see as one value.
#[cycle(tree)]
#[derive(Drop)]
pub enum TypeTree {
    /// An integer type (LangRef, "Integer Type").
    Int {
        /// The width in bits, from 1 on.
        bits: u8,
    },
    /// The type `ptr` (LangRef, "Pointer Type").
    Ptr,
    /// An array type (LangRef, "Array Type").
    Array {
        /// The number of elements.
        len: u32,
        /// The type of each element.
        elem: Box<TypeTree>,
    },
    /// A struct type without a name (LangRef, "Structure Type").
    Struct {
        /// Whether its fields follow each other without padding.
        packed: bool,
        /// The types of its fields in order.
        fields: Box<TypeTreeList>,
    },
    /// A type by its name.
    Named(Box<NameUse>),
}

/// Types in order. A list may be long, so it is built, walked and dropped by loops.
#[cycle(tree)]
pub enum TypeTreeList {
    /// No more types.
    End,
    /// A type and the types behind it.
    More(Box<TypeNode>),
}

/// A type in a list, and the types behind it.
#[cycle(tree)]
#[derive(Drop)]
pub struct TypeNode {
    /// The type.
    pub ty: TypeTree,
    /// The types behind it.
    pub tail: TypeTreeList,
}

impl Drop for TypeTreeList {
    #[cycle(dropping_types)]
    fn drop(mut self) {
        loop {
            match self {
                TypeTreeList::End => return,
                TypeTreeList::More(node) => {
                    let TypeNode { ty, tail } = Box::into_inner(node);
                    drop(ty);
                    self = tail;
                }
            }
        }
    }
}
