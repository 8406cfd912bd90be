//! The parts of types that indices go into (LangRef, "'getelementptr' Instruction").
ghost use Rattle.std.specs.Prelude.{◌≡◌, option_copied, option_map};
ghost use Rattle.ir_geps.specs.Ranges.{field_at, part_in, part_of};
ghost use Rattle.ir_syntax.specs.Types.{tree_of, trees_in};
ghost use Rattle.ir_syntax.specs.declared.type_def.TypeDef.{TypeDef};

use crate::index::GepIndex;
use ir_sizes::NamedTypes;
use ir_syntax::{TypeTree, TypeTreeList};

/// The field at a place, counted from 0.
fn field_at(fields: &TypeTreeList, place: u32) -> Option<&TypeTree>
    ensures { option_map tree_of (option_copied result) ≡ field_at (trees_in fields.now) place }
{
    let mut rest = fields;
    let mut left = place;
    while let TypeTreeList::More(node) = rest {
        if left == 0 {
            return Some(&node.ty);
        }
        left -= 1;
        rest = &node.tail;
    }
    None
}

/// The part of a type without a name of its own that an index goes into.
fn part_in<'a, I: GepIndex>(ty: &'a TypeTree, index: &I) -> Option<&'a TypeTree>
    ensures { option_map tree_of (option_copied result) ≡ part_in (I.index index.now) (tree_of ty.now) }
{
    match ty {
        TypeTree::Array { elem, .. } => { if index.is_integer() { Some(elem) } else { None } }
        TypeTree::Struct { fields, .. } => {
            let place = index.field_number()?;
            field_at(fields, place)
        }
        TypeTree::Int { .. } | TypeTree::Ptr | TypeTree::Named(_) => None,
    }
}

/// The part of a type that an index goes into: an element of an array, or the field of a struct that it names.
pub fn part_of<'a, I: GepIndex>(
    types: &NamedTypes<'a>,
    ty: &'a TypeTree,
    index: &I,
) -> Option<&'a TypeTree>
    ensures { option_map tree_of (option_copied result) ≡ part_of types.now (tree_of ty.now) (I.index index.now) }
{
    let ty = types.written_out(ty)?;
    part_in(ty, index)
}
