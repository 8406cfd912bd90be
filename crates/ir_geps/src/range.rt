//! Indices of a `getelementptr` that go down its type (LangRef, "'getelementptr' Instruction").
ghost use Rattle.std.specs.Prelude.{◌≡◌, map};
ghost use Rattle.ir_geps.specs.Indices.{Index};
ghost use Rattle.ir_geps.specs.Ranges.{go_down, is_in_range, parts_in_range};
ghost use Rattle.ir_syntax.specs.Types.{tree_of};

use crate::index::GepIndex;
use crate::parts::part_of;
use ir_sizes::NamedTypes;
use ir_syntax::{GepParts, TyText, TypeTree};

/// Whether the indices of a `getelementptr` are in range: each behind the first goes into an array, or into a struct as
/// a constant of type `i32` below the number of its fields.
pub fn is_in_range<'a, I: GepIndex>(types: &NamedTypes<'a>, ty: &'a TyText, indices: &[I]) -> bool
    ensures { result ≡ is_in_range types.now ty.now (map I.index indices.now) }
{
    match indices {
        [] => true,
        [first, rest @ ..] => first.is_integer() & go_down(types, ty.tree(), rest),
    }
}

/// Whether the indices of a constant `getelementptr` are in range.
pub fn parts_in_range<'a>(types: &NamedTypes<'a>, gep: &'a GepParts) -> bool
    ensures { result ≡ parts_in_range types.now gep.now }
{
    is_in_range(types, &gep.ty, gep.indices.as_slice())
}

/// Whether each index goes into a part.
fn go_down<'a, I: GepIndex>(types: &NamedTypes<'a>, ty: &'a TypeTree, indices: &[I]) -> bool
    ensures { result ≡ go_down types.now (tree_of ty.now) (map I.index indices.now) }
{
    let mut part = ty;
    for index in indices {
        match part_of(types, part, index) {
            Some(inner) => part = inner,
            None => return false,
        }
    }
    true
}
