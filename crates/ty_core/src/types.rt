//! Types as trees (LangRef, "Type System").
ghost use Rattle.std.specs.Prelude.{◌≡◌, IfOk, option_copied, slice_get};
ghost use Rattle.ty_core.specs.Tree.{types_in};

use std::alloc::{AllocError, Global};

/// A first class type of the language without names in it.
#[cycle(ty)]
#[derive(Debug, Drop)]
pub enum Ty {
    /// An integer type (LangRef, "Integer Type").
    Int {
        /// The width in bits, 1 to 128.
        bits: u8,
    },
    /// The type `ptr` (LangRef, "Pointer Type").
    Ptr,
    /// An array type (LangRef, "Array Type").
    Array {
        /// The number of elements.
        len: u32,
        /// The type of each element.
        elem: Box<Ty>,
    },
    /// A struct type without a name (LangRef, "Structure Type").
    Struct {
        /// Whether its fields follow each other without padding.
        packed: bool,
        /// The types of its fields in order.
        fields: TyList,
    },
}

/// Types in order. A list may be long, so it is built, walked and dropped by loops.
#[cycle(ty)]
#[derive(Debug)]
pub enum TyList {
    /// No more types.
    End,
    /// A type and the types behind it.
    More(Box<Ty>, Box<TyList>),
}

impl Drop for TyList {
    #[cycle(dropping)]
    fn drop(mut self) {
        loop {
            match self {
                TyList::End => return,
                TyList::More(_, tail) => self = Box::into_inner(tail),
            }
        }
    }
}

impl TyList {
    /// The list of these types in their order.
    pub fn from_vec(alloc: Global, types: Vec<Ty>) -> Result<TyList, AllocError>
        ensures { IfOk result (λ list. types_in list ≡ types.items) }
    {
        let mut types = types;
        let mut list = TyList::End;
        while let Some(ty) = types.pop() {
            let head = Box::new(alloc, ty)?;
            list = TyList::More(head, Box::new(alloc, list)?);
        }
        Ok(list)
    }

    /// The type at this place, counted from 0; none behind the last one.
    pub fn get(&self, index: usize) -> Option<&Ty>
        ensures { option_copied result ≡ slice_get (types_in self.now) index }
    {
        let mut rest = self;
        let mut left = index;
        while let TyList::More(head, tail) = rest {
            if left == 0 {
                return Some(head);
            }
            left -= 1;
            rest = tail;
        }
        None
    }
}
