//! Initialisers as trees of what the text writes (LangRef, "Complex Constants").
ghost use Rattle.std.specs.Prelude.{◌≡◌};
ghost use Rattle.ir_syntax.specs.InitLists.{parts_before, parts_of};
ghost use Rattle.ir_syntax.specs.Inits.{inits_in};

use crate::bytes::Bytes;
use crate::operand::Operand;
use crate::ty::TyText;
use std::mem;

/// An initialiser as written, each part in a box. [`Init`](crate::Init) is what contracts see as one value.
#[cycle(init)]
#[derive(Drop)]
pub enum InitTree {
    /// A scalar.
    Value(Operand),
    /// `zeroinitializer`.
    Zero,
    /// The bytes of an array.
    Bytes(Bytes),
    /// The elements of an array.
    Array(InitTreeList),
    /// The fields of a struct.
    Struct(InitTreeList),
    /// The fields of a packed struct.
    Packed(InitTreeList),
}

/// Initialisers with their types in order. A list may be long, so it is built, walked and dropped by loops.
#[cycle(init)]
pub enum InitTreeList {
    /// No more initialisers.
    End,
    /// An initialiser of a type, and those behind it.
    More(Box<InitNode>),
}

/// An initialiser in a list with its type, and those behind it.
#[cycle(init)]
#[derive(Drop)]
pub struct InitNode {
    /// Its type.
    pub ty: TyText,
    /// The initialiser.
    pub init: InitTree,
    /// The initialisers behind it.
    pub tail: InitTreeList,
}

impl Drop for InitTreeList {
    #[cycle(dropping_inits)]
    fn drop(mut self) {
        loop {
            match self {
                InitTreeList::End => return,
                InitTreeList::More(node) => {
                    let InitNode { ty, init, tail } = Box::into_inner(node);
                    drop(ty);
                    drop(init);
                    self = tail;
                }
            }
        }
    }
}

impl InitTreeList {
    /// The list with the last initialiser in front. No initialiser moves.
    pub fn turned_round(mut self) -> InitTreeList
        ensures { parts_of (inits_in result) ≡ parts_before (inits_in self) }
    {
        let mut list = InitTreeList::End;
        loop {
            match self {
                InitTreeList::End => return list,
                InitTreeList::More(mut node) => {
                    self = mem::replace(&mut node.tail, list);
                    list = InitTreeList::More(node);
                }
            }
        }
    }
}
