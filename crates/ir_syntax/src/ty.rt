//! Types as the text writes them (LangRef, "Type System").
ghost use Rattle.std.specs.Prelude.{◌≡◌, ◌≤◌, IfOk, IfSome};
ghost use Rattle.ir_syntax.specs.Literals.{width_of};
ghost use Rattle.ir_syntax.specs.Types.{array, int, list_of, named, ptr, struct, tree_of, trees_from, trees_in};

use crate::tree::{TypeNode, TypeTree, TypeTreeList};
use ir_ident::NameUse;
use std::alloc::{AllocError, Global};
use std::marker::Model;

/// The number of bits of the widest integers that the grammar has.
const WIDEST: u8 = 64;

/// A type as written. Contracts see a tree without boxes.
pub struct TyText {
    tree: TypeTree,
}

impl Drop for TyText {
    fn drop(self) {
        let TyText { tree } = self;
        drop(tree);
    }
}

impl Model for TyText {
    ghost use Rattle.ir_syntax.specs.Types.{TextTree, tree_of};
    ghost use Rattle.ir_syntax.specs.TypeCodes.{tree_code};

    ghost Value = { TextTree };

    ghost coded = { tree_code };

    ghost view = { λ t. tree_of t.tree };
}

impl TyText {
    /// The integer type of this many bits.
    pub fn int(bits: u8) -> TyText
        ensures { result ≡ int bits }
    {
        TyText {
            tree: TypeTree::Int { bits },
        }
    }

    /// The type `ptr`.
    pub fn ptr() -> TyText
        ensures { result ≡ ptr }
    {
        TyText {
            tree: TypeTree::Ptr,
        }
    }

    /// The type of an array of this many elements of a type.
    pub fn array(alloc: Global, len: u32, elem: TyText) -> Result<TyText, AllocError>
        ensures { IfOk result (λ ty. ty ≡ array len elem) }
    {
        let elem = Box::new(alloc, elem.into_tree())?;
        Ok(TyText {
            tree: TypeTree::Array { len, elem },
        })
    }

    /// The type of a struct with fields of these types.
    #[tactic(auto, using(crate::proofs::Fields::is_from_its_list))]
    pub fn structure(alloc: Global, packed: bool, fields: TypeTexts) -> Result<TyText, AllocError>
        ensures { IfOk result (λ ty. ty ≡ struct packed (trees_from fields)) }
    {
        let fields = Box::new(alloc, tree_list(alloc, fields)?)?;
        Ok(TyText {
            tree: TypeTree::Struct { packed, fields },
        })
    }

    /// The type of a name.
    pub fn named(alloc: Global, name: NameUse) -> Result<TyText, AllocError>
        ensures { IfOk result (λ ty. ty ≡ named name) }
    {
        let name = Box::new(alloc, name)?;
        Ok(TyText {
            tree: TypeTree::Named(name),
        })
    }

    /// The number of bits of an integer type, at most 64; none of another type (LangRef, "Integer Type").
    pub fn width(&self) -> Option<u8>
        ensures value { result ≡ width_of self.now }
        ensures within { IfSome result (λ bits. bits ≤ 64) }
    {
        match &self.tree {
            TypeTree::Int { bits } => (*bits <= WIDEST).then_some(*bits),
            TypeTree::Ptr | TypeTree::Array { .. } | TypeTree::Struct { .. } | TypeTree::Named(_) =>
                None,
        }
    }

    /// The type as a tree, to be matched.
    pub fn tree(&self) -> &TypeTree
        ensures { tree_of result.now ≡ self.now }
    {
        &self.tree
    }

    /// The type as a tree, to be a part of another.
    fn into_tree(self) -> TypeTree
        ensures { tree_of result ≡ self }
    {
        let TyText { tree } = self;
        tree
    }
}

/// These types as fields of a struct.
fn tree_list(alloc: Global, types: TypeTexts) -> Result<TypeTreeList, AllocError>
    ensures { IfOk result (λ list. list_of (trees_in list) ≡ types) }
{
    let mut types = types.into_vec();
    let mut list = TypeTreeList::End;
    while let Some(ty) = types.pop() {
        let node = TypeNode {
            ty: ty.into_tree(),
            tail: list,
        };
        list = TypeTreeList::More(Box::new(alloc, node)?);
    }
    Ok(list)
}

/// Types in order. Contracts see a list.
#[derive(Drop)]
pub struct TypeTexts {
    types: Vec<TyText>,
}

impl Model for TypeTexts {
    ghost use Rattle.std.specs.Prelude.{List};
    ghost use Rattle.std.specs.Coded.{coded_list};
    ghost use Rattle.ir_syntax.specs.Types.{TextTree};
    ghost use Rattle.ir_syntax.specs.TypeCodes.{tree_code};

    ghost Value = { List TextTree };

    ghost coded = { coded_list tree_code };

    ghost view = { λ t. t.types.items };
}

impl TypeTexts {
    /// These types, in their order, with no room for more.
    pub fn from_vec(mut types: Vec<TyText>) -> TypeTexts
        ensures { result ≡ types.items }
    {
        types.shrink_to_fit();
        TypeTexts { types }
    }

    /// The types in order.
    pub fn as_slice(&self) -> &[TyText]
        ensures { result.now ≡ self.now }
    {
        self.types.as_slice()
    }

    /// The types in order, to be taken apart.
    pub fn into_vec(self) -> Vec<TyText>
        ensures { result.items ≡ self }
    {
        self.types
    }
}
