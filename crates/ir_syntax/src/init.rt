//! Initialisers of globals (LangRef, "Global Variables" and "Complex Constants").
ghost use Rattle.std.specs.Prelude.{◌≡◌, ◌++◌, ◌∷◌, IfOk, []};
ghost use Rattle.ir_syntax.specs.InitLists.{inits_from, parts_before, parts_of};
ghost use Rattle.ir_syntax.specs.Inits.{array, bytes, init_of, inits_in, packed, struct, value, zeros};

use crate::bytes::Bytes;
use crate::init_tree::{InitNode, InitTree, InitTreeList};
use crate::operand::Operand;
use crate::ty::TyText;
use std::alloc::{AllocError, Global};
use std::marker::Model;

/// An initialiser as written. Contracts see a tree without boxes.
pub struct Init {
    tree: InitTree,
}

impl Drop for Init {
    fn drop(self) {
        let Init { tree } = self;
        drop(tree);
    }
}

impl Model for Init {
    ghost use Rattle.ir_syntax.specs.Inits.{InitText, init_of};
    ghost use Rattle.ir_syntax.specs.InitCodes.{init_code};

    ghost Value = { InitText };

    ghost coded = { init_code };

    ghost view = { λ i. init_of i.tree };
}

impl Init {
    /// A scalar.
    pub fn value(operand: Operand) -> Init
        ensures { result ≡ value operand }
    {
        Init {
            tree: InitTree::Value(operand),
        }
    }

    /// `zeroinitializer`.
    pub fn zero() -> Init
        ensures { result ≡ zeros }
    {
        Init {
            tree: InitTree::Zero,
        }
    }

    /// The bytes of an array.
    pub fn bytes(text: Bytes) -> Init
        ensures { result ≡ bytes text }
    {
        Init {
            tree: InitTree::Bytes(text),
        }
    }

    /// The elements of an array.
    #[tactic(auto, using(crate::proofs::Parts::is_from_its_list))]
    pub fn array(elements: TypedInits) -> Init
        ensures { result ≡ array (inits_from elements) }
    {
        Init {
            tree: InitTree::Array(elements.into_list()),
        }
    }

    /// The fields of a struct.
    #[tactic(auto, using(crate::proofs::Parts::is_from_its_list))]
    pub fn structure(fields: TypedInits) -> Init
        ensures { result ≡ struct (inits_from fields) }
    {
        Init {
            tree: InitTree::Struct(fields.into_list()),
        }
    }

    /// The fields of a packed struct.
    #[tactic(auto, using(crate::proofs::Parts::is_from_its_list))]
    pub fn packed(fields: TypedInits) -> Init
        ensures { result ≡ packed (inits_from fields) }
    {
        Init {
            tree: InitTree::Packed(fields.into_list()),
        }
    }

    /// The initialiser as a tree, to be matched.
    pub fn tree(&self) -> &InitTree
        ensures { init_of result.now ≡ self.now }
    {
        &self.tree
    }

    /// The initialiser as a tree, to be taken apart or to be a part of another.
    pub fn into_tree(self) -> InitTree
        ensures { init_of result ≡ self }
    {
        let Init { tree } = self;
        tree
    }

    /// The initialiser of a tree.
    pub fn from_tree(tree: InitTree) -> Init
        ensures { result ≡ init_of tree }
    {
        Init { tree }
    }
}

/// An initialiser with its type.
pub struct TypedInit {
    /// Its type.
    pub ty: TyText,
    /// The initialiser.
    pub init: Init,
}

impl Drop for TypedInit {
    fn drop(self) {
        let TypedInit { ty, init } = self;
        drop(ty);
        drop(init);
    }
}

impl TypedInit {
    /// The type and the initialiser, to be taken apart.
    fn into_parts(self) -> (TyText, Init)
        ensures { result ≡ (self.ty, self.init) }
    {
        let TypedInit { ty, init } = self;
        (ty, init)
    }
}

/// Initialisers with their types, in order. Contracts see a list.
///
/// There may be millions, so each is where it stays from the first: in a list with the last one in front, that is turned round
/// once it is complete.
pub struct TypedInits {
    last_first: InitTreeList,
}

impl Drop for TypedInits {
    fn drop(self) {
        let TypedInits { last_first } = self;
        drop(last_first);
    }
}

impl Model for TypedInits {
    ghost use Rattle.std.specs.Prelude.{List};
    ghost use Rattle.std.specs.Coded.{coded_list};
    ghost use Rattle.ir_syntax.specs.InitLists.{parts_before};
    ghost use Rattle.ir_syntax.specs.Inits.{inits_in};
    ghost use Rattle.ir_syntax.specs.declared.init.TypedInit.{TypedInit};
    ghost use Rattle.ir_syntax.specs.contracts.init.TypedInit as typed_init;

    ghost Value = { List TypedInit };

    ghost coded = { coded_list typed_init.the_row.coded };

    ghost view = { λ p. parts_before (inits_in p.last_first) };
}

impl TypedInits {
    /// No initialisers.
    pub fn new() -> TypedInits
        ensures { result ≡ [] }
    {
        TypedInits {
            last_first: InitTreeList::End,
        }
    }

    /// These initialisers and one more behind them.
    pub fn with(self, alloc: Global, part: TypedInit) -> Result<TypedInits, AllocError>
        ensures { IfOk result (λ all. all ≡ self ++ part ∷ []) }
    {
        let (ty, init) = part.into_parts();
        let node = InitNode {
            ty,
            init: init.into_tree(),
            tail: self.into_last_first(),
        };
        Ok(TypedInits {
            last_first: InitTreeList::More(Box::new(alloc, node)?),
        })
    }

    /// The initialisers, the last one first.
    fn into_last_first(self) -> InitTreeList
        ensures { parts_before (inits_in result) ≡ self }
    {
        let TypedInits { last_first } = self;
        last_first
    }

    /// The initialisers, the first one first.
    fn into_list(self) -> InitTreeList
        ensures { parts_of (inits_in result) ≡ self }
    {
        self.into_last_first().turned_round()
    }
}
