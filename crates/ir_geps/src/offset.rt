//! Offsets of constant `getelementptr`s (LangRef, "'getelementptr' Instruction").
ghost use Rattle.std.specs.Prelude.{◌≡◌, ◌≤◌, ◌<◌, ◌+◌, ◌*◌, IfSome};
ghost use Rattle.ir_geps.specs.Offsets.{begin_in, begin_of, field_begin, field_end, gep_offset, offset_within, parts_offset, stride, sum_of, values_over, in_64_bits};
ghost use Rattle.ir_syntax.specs.Types.{tree_of, trees_in};
ghost use Rattle.ty_core.specs.Size.{IsAlign, begin_at, rounded, size_limit};

use crate::index::{GepIndex, literal_word};
use crate::parts::part_of;
use ir_sizes::NamedTypes;
use ir_syntax::{GepParts, TypeTree, TypeTreeList, TypedLiteral};
use ty_core::{Layout, end_behind};

/// The offset in bytes from the base of a constant `getelementptr`, modulo 2^64; none where an index is out of range or
/// a type has no size.
pub fn gep_offset<'a>(types: &NamedTypes<'a>, gep: &'a GepParts) -> Option<u64>
    ensures { result ≡ parts_offset types.now gep.now }
{
    match gep.indices.as_slice() {
        [] => Some(0),
        [first, rest @ ..] => {
            let over = values_over(types, gep.ty.tree(), first)?;
            let within = offset_within(types, gep.ty.tree(), rest)?;
            Some(over.wrapping_add(within))
        }
    }
}

/// The begins of the parts that indices go into, added.
fn offset_within<'a>(
    types: &NamedTypes<'a>,
    ty: &'a TypeTree,
    literals: &[TypedLiteral],
) -> Option<u64>
    ensures { result ≡ in_64_bits (offset_within types.now (tree_of ty.now) literals.now) }
{
    let mut offset = 0u64;
    let mut part = ty;
    for literal in literals {
        let begin = begin_of(types, part, literal)?;
        part = part_of(types, part, literal)?;
        offset = offset.wrapping_add(begin);
    }
    Some(offset)
}

/// Where the part of a type begins that an index goes into.
fn begin_of<'a>(types: &NamedTypes<'a>, ty: &'a TypeTree, literal: &TypedLiteral) -> Option<u64>
    ensures { result ≡ in_64_bits (begin_of types.now (tree_of ty.now) literal.now) }
{
    let ty = types.written_out(ty)?;
    begin_in(types, ty, literal)
}

fn begin_in(types: &NamedTypes<'_>, ty: &TypeTree, literal: &TypedLiteral) -> Option<u64>
    ensures { result ≡ in_64_bits (begin_in types.now literal.now (tree_of ty.now)) }
{
    match ty {
        TypeTree::Array { elem, .. } => values_over(types, elem, literal),
        TypeTree::Struct { packed, fields } => {
            let place = literal.field_number()?;
            field_begin(types, *packed, fields, place)
        }
        TypeTree::Int { .. } | TypeTree::Ptr | TypeTree::Named(_) => None,
    }
}

/// As many values of a type as a literal says, in bytes.
fn values_over(types: &NamedTypes<'_>, ty: &TypeTree, literal: &TypedLiteral) -> Option<u64>
    ensures { result ≡ in_64_bits (values_over types.now (tree_of ty.now) literal.now) }
{
    let word = literal_word(&literal.ty, literal.value)?;
    let layout = types.layout(ty)?;
    Some(word.wrapping_mul(rounded(layout.size, layout.align)))
}

/// Where the field of a struct at a place begins, the first of its fields at 0; none where there is no such field, or one up to it
/// has no size.
pub fn field_begin(
    types: &NamedTypes<'_>,
    packed: bool,
    fields: &TypeTreeList,
    place: u32,
) -> Option<u64>
    ensures exact { result ≡ field_begin types.now packed 0 (trees_in fields.now) place }
    ensures value { result ≡ in_64_bits (field_begin types.now packed 0 (trees_in fields.now) place) }
{
    let mut at = 0u64;
    let mut rest = fields;
    let mut left = place;
    while let TypeTreeList::More(node) = rest {
        let field = types.layout(&node.ty)?;
        if left == 0 {
            return Some(begin_at(packed, at, field.align));
        }
        at = field_end(packed, at, field)?;
        left -= 1;
        rest = &node.tail;
    }
    None
}

/// Where a field ends behind one that ends at `at`, at most 4,294,967,295.
fn field_end(packed: bool, at: u64, field: Layout) -> Option<u64>
    requires at { at ≤ size_limit }
    requires size { field.size ≤ size_limit }
    requires aligned { IsAlign field.align }
    ensures value { result ≡ field_end packed at field }
    ensures within { IfSome result (λ end. end ≤ size_limit) }
{
    end_behind(packed, at, field).ok()
}

/// Where a field of this alignment begins behind one that ends at `at`.
fn begin_at(packed: bool, at: u64, align: u64) -> u64
    requires at { at ≤ size_limit }
    requires aligned { IsAlign align }
    ensures value { result ≡ begin_at packed at align }
    ensures below { result < at + align }
{
    if packed { at } else { rounded(at, align) }
}

/// The least multiple of `align` that is `at` or more.
fn rounded(at: u64, align: u64) -> u64
    requires at { at ≤ size_limit }
    requires aligned { IsAlign align }
    ensures value { result ≡ rounded at align }
    ensures below { result < at + align }
{
    at.div_ceil(align) * align
}
