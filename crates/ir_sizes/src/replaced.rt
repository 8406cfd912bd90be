//! Types with the names in them replaced by what they stand for (LangRef, "Structure Type").
ghost use Rattle.std.specs.Prelude.{◌≡◌, IfOk, option_map};
ghost use Rattle.ir_sizes.specs.Sized.{body_of, fields_by, named_by, replaced, scalar, sized_tree, type_by};
ghost use Rattle.ir_syntax.specs.Types as text;
ghost use Rattle.ty_core.specs.Tree.{array, struct, tree_of, trees_of};

use crate::measured::LEVEL_LIMIT;
use crate::named::NamedTypes;
use ir_ident::Name;
use ir_syntax::{TyText, TypeTree, TypeTreeList};
use std::alloc::{AllocError, Global};
use ty_core::{Ty, TyList};

impl<'a> NamedTypes<'a> {
    /// A type with the names in it replaced by what they stand for; none of a type that has no size.
    pub fn replaced(&self, alloc: Global, ty: &TyText) -> Result<Option<Ty>, AllocError>
        ensures { IfOk result (λ tree. option_map tree_of tree ≡ sized_tree self.now ty.now) }
    {
        if self.is_sized(ty) {
            replaced(alloc, self, LEVEL_LIMIT, ty.tree())
        } else {
            Ok(None)
        }
    }
}

/// A type of at most so many levels with the names in it replaced; none of a type that has more, or in which a name stands
/// for no struct.
#[cycle(replacing)]
#[tactic(auto, unfolding(crate::specs::Sized::replaced))]
fn replaced(
    alloc: Global,
    types: &NamedTypes<'_>,
    levels: u32,
    ty: &TypeTree,
) -> Result<Option<Ty>, AllocError>
    ensures { IfOk result (λ tree. option_map tree_of tree ≡ replaced types.now levels (text.tree_of ty.now)) }
{
    match levels.checked_sub(1) {
        Some(below) => replaced_type(alloc, types, below, ty),
        None => Ok(scalar(ty)),
    }
}

/// An integer type or the type `ptr`.
fn scalar(ty: &TypeTree) -> Option<Ty>
    ensures { option_map tree_of result ≡ scalar (text.tree_of ty.now) }
{
    match ty {
        TypeTree::Int { bits } => Some(Ty::Int { bits: *bits }),
        TypeTree::Ptr => Some(Ty::Ptr),
        TypeTree::Array { .. } | TypeTree::Struct { .. } | TypeTree::Named(_) => None,
    }
}

/// A type with the names in it replaced, of parts of at most so many levels.
#[cycle(replacing)]
fn replaced_type(
    alloc: Global,
    types: &NamedTypes<'_>,
    below: u32,
    ty: &TypeTree,
) -> Result<Option<Ty>, AllocError>
    ensures { IfOk result (λ tree. option_map tree_of tree ≡ type_by types.now (replaced types.now below) (text.tree_of ty.now)) }
{
    match ty {
        TypeTree::Int { .. } | TypeTree::Ptr => Ok(scalar(ty)),
        TypeTree::Array { len, elem } => replaced_array(alloc, types, below, *len, elem),
        TypeTree::Struct { packed, fields } => {
            replaced_struct(alloc, types, below, *packed, fields)
        }
        TypeTree::Named(place) => replaced_name(alloc, types, below, &place.name),
    }
}

/// An array of elements of this type.
#[cycle(replacing)]
fn replaced_array(
    alloc: Global,
    types: &NamedTypes<'_>,
    below: u32,
    len: u32,
    elem: &TypeTree,
) -> Result<Option<Ty>, AllocError>
    ensures { IfOk result (λ tree. option_map tree_of tree ≡ option_map (array len) (replaced types.now below (text.tree_of elem.now))) }
{
    match replaced(alloc, types, below, elem)? {
        Some(elem) => {
            let elem = Box::new(alloc, elem)?;
            Ok(Some(Ty::Array { len, elem }))
        }
        None => Ok(None),
    }
}

/// The struct that a name stands for.
#[cycle(replacing)]
#[tactic(auto, using(crate::proofs::ReplacedLemmas::stands_for_struct))]
fn replaced_name(
    alloc: Global,
    types: &NamedTypes<'_>,
    below: u32,
    name: &Name,
) -> Result<Option<Ty>, AllocError>
    ensures { IfOk result (λ tree. option_map tree_of tree ≡ named_by (replaced types.now below) (body_of types.now name.now)) }
{
    match types.body(name) {
        Some(TypeTree::Struct { packed, fields }) => {
            replaced_struct(alloc, types, below, *packed, fields)
        }
        _ => Ok(None),
    }
}

/// A struct with fields of these types.
#[cycle(replacing)]
fn replaced_struct(
    alloc: Global,
    types: &NamedTypes<'_>,
    below: u32,
    packed: bool,
    fields: &TypeTreeList,
) -> Result<Option<Ty>, AllocError>
    ensures { IfOk result (λ tree. option_map tree_of tree ≡ option_map (struct packed) (fields_by (replaced types.now below) (text.trees_in fields.now))) }
{
    match replaced_fields(alloc, types, below, fields)? {
        Some(fields) => Ok(Some(Ty::Struct { packed, fields })),
        None => Ok(None),
    }
}

/// The types of fields with the names in them replaced.
#[cycle(replacing)]
fn replaced_fields(
    alloc: Global,
    types: &NamedTypes<'_>,
    levels: u32,
    fields: &TypeTreeList,
) -> Result<Option<TyList>, AllocError>
    ensures { IfOk result (λ list. option_map trees_of list ≡ fields_by (replaced types.now levels) (text.trees_in fields.now)) }
{
    let mut made = Vec::new(alloc);
    let mut rest = fields;
    while let TypeTreeList::More(node) = rest {
        match replaced(alloc, types, levels, &node.ty)? {
            Some(ty) => made.push(ty)?,
            None => return Ok(None),
        }
        rest = &node.tail;
    }
    let list = TyList::from_vec(alloc, made)?;
    Ok(Some(list))
}
