//! The names that types use.
ghost use Rattle.std.specs.Prelude.{◌≡◌, ◌++◌, OnOk};
ghost use Rattle.ir_entities.specs.Uses.{field_uses, type_uses};
ghost use Rattle.ir_syntax.specs.Types.{tree_of, trees_in};

use crate::site::{NameKind, Site, push_use};
use ir_syntax::{TyText, TypeTree, TypeTreeList};
use std::alloc::AllocError;

/// Adds the names that a type uses.
pub(crate) fn push_type<'a>(sites: &mut Vec<Site<'a>>, ty: &'a TyText) -> Result<(), AllocError>
    ensures { OnOk result (sites.new.items ≡ sites.old.items ++ type_uses ty.now) }
{
    push_tree(sites, ty.tree())
}

#[cycle(types)]
fn push_tree<'a>(sites: &mut Vec<Site<'a>>, tree: &'a TypeTree) -> Result<(), AllocError>
    ensures { OnOk result (sites.new.items ≡ sites.old.items ++ type_uses (tree_of tree.now)) }
{
    match tree {
        TypeTree::Int { .. } | TypeTree::Ptr => Ok(()),
        TypeTree::Array { elem, .. } => push_tree(sites, elem),
        TypeTree::Struct { fields, .. } => push_fields(sites, fields),
        TypeTree::Named(name) => push_use(sites, NameKind::NamedType, name),
    }
}

#[cycle(types)]
fn push_fields<'a>(sites: &mut Vec<Site<'a>>, fields: &'a TypeTreeList) -> Result<(), AllocError>
    ensures { OnOk result (sites.new.items ≡ sites.old.items ++ field_uses (trees_in fields.now)) }
{
    let mut rest = fields;
    while let TypeTreeList::More(node) = rest {
        push_tree(sites, &node.ty)?;
        rest = &node.tail;
    }
    Ok(())
}
