//! Types that are the same, where a name stands for its struct (LangRef, "Structure Type").
ghost use Rattle.std.specs.Prelude.{◌≡◌};
ghost use Rattle.ir_global_rules.specs.Same.{are_one_name, are_one_scalar, same_fields, same_parts, same_type, same_within};
ghost use Rattle.ir_syntax.specs.Types.{tree_of, trees_in};

use ir_sizes::NamedTypes;
use ir_syntax::{TypeTree, TypeTreeList};

/// The most levels that arrays and structs may stand inside each other.
const LEVEL_LIMIT: u32 = 64;

/// Whether two types are the same. Types that both have a size have few enough levels.
pub(crate) fn same_type<'a>(types: &NamedTypes<'a>, a: &'a TypeTree, b: &'a TypeTree) -> bool
    ensures { result ≡ same_type types.now (tree_of a.now) (tree_of b.now) }
{
    same_within(types, LEVEL_LIMIT, a, b)
}

fn are_one_name(a: &TypeTree, b: &TypeTree) -> bool
    ensures { result ≡ are_one_name (tree_of a.now) (tree_of b.now) }
{
    match (a, b) {
        (TypeTree::Named(a), TypeTree::Named(b)) => a.name.is_same(&b.name),
        _ => false,
    }
}

fn are_one_scalar(a: &TypeTree, b: &TypeTree) -> bool
    ensures { result ≡ are_one_scalar (tree_of a.now) (tree_of b.now) }
{
    match (a, b) {
        (TypeTree::Int { bits: a }, TypeTree::Int { bits: b }) => a == b,
        (TypeTree::Ptr, TypeTree::Ptr) => true,
        _ => false,
    }
}

#[cycle(same)]
#[tactic(auto, unfolding(crate::specs::Same::same_within))]
fn same_within<'a>(types: &NamedTypes<'a>, levels: u32, a: &'a TypeTree, b: &'a TypeTree) -> bool
    ensures { result ≡ same_within types.now levels (tree_of a.now) (tree_of b.now) }
{
    if are_one_name(a, b) {
        return true;
    }
    match levels.checked_sub(1) {
        Some(below) => match (types.written_out(a), types.written_out(b)) {
            (Some(a), Some(b)) => same_parts(types, below, a, b),
            (Some(_), None) | (None, _) => false,
        },
        None => are_one_scalar(a, b),
    }
}

#[cycle(same)]
fn same_parts<'a>(types: &NamedTypes<'a>, levels: u32, a: &'a TypeTree, b: &'a TypeTree) -> bool
    ensures { result ≡ same_parts (same_within types.now levels) (tree_of a.now) (tree_of b.now) }
{
    match (a, b) {
        (TypeTree::Int { bits: a }, TypeTree::Int { bits: b }) => a == b,
        (TypeTree::Ptr, TypeTree::Ptr) => true,
        (TypeTree::Array { len: m, elem: a }, TypeTree::Array { len: n, elem: b }) => {
            m == n && same_within(types, levels, a, b)
        }
        (
            TypeTree::Struct {
                packed: p,
                fields: a,
            },
            TypeTree::Struct {
                packed: q,
                fields: b,
            },
        ) => p == q && same_fields(types, levels, a, b),
        _ => false,
    }
}

#[cycle(same)]
fn same_fields<'a>(
    types: &NamedTypes<'a>,
    levels: u32,
    a: &'a TypeTreeList,
    b: &'a TypeTreeList,
) -> bool
    ensures { result ≡ same_fields (same_within types.now levels) (trees_in a.now) (trees_in b.now) }
{
    let mut left = a;
    let mut right = b;
    loop {
        match (left, right) {
            (TypeTreeList::End, TypeTreeList::End) => return true,
            (TypeTreeList::More(a), TypeTreeList::More(b)) => {
                if !same_within(types, levels, &a.ty, &b.ty) {
                    return false;
                }
                left = &a.tail;
                right = &b.tail;
            }
            (TypeTreeList::End, TypeTreeList::More(_))
            | (TypeTreeList::More(_), TypeTreeList::End) => return false,
        }
    }
}
