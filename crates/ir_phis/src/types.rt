//! Types that are written with the same words.
ghost use Rattle.std.specs.Prelude.{◌≡◌};
ghost use Rattle.ir_phis.specs.Values.{same_type, same_types};
ghost use Rattle.ir_syntax.specs.Types.{tree_of, trees_in};

use ir_syntax::{TyText, TypeTree, TypeTreeList};

/// Whether two types are written with the same words, wherever they stand.
pub(crate) fn same_type(a: &TyText, b: &TyText) -> bool
    ensures { result ≡ same_type a.now b.now }
{
    same_tree(a.tree(), b.tree())
}

#[cycle(same)]
fn same_tree(a: &TypeTree, b: &TypeTree) -> bool
    ensures { result ≡ same_type (tree_of a.now) (tree_of b.now) }
{
    match (a, b) {
        (TypeTree::Int { bits: a }, TypeTree::Int { bits: b }) => *a == *b,
        (TypeTree::Ptr, TypeTree::Ptr) => true,
        (TypeTree::Array { len: n, elem: a }, TypeTree::Array { len: m, elem: b }) => {
            (*n == *m) & same_tree(a, b)
        }
        (
            TypeTree::Struct {
                packed: p,
                fields: a,
            },
            TypeTree::Struct {
                packed: q,
                fields: b,
            },
        ) => (*p == *q) & same_trees(a, b),
        (TypeTree::Named(a), TypeTree::Named(b)) => a.name.is_same(&b.name),
        _ => false,
    }
}

#[cycle(same)]
fn same_trees(a: &TypeTreeList, b: &TypeTreeList) -> bool
    ensures { result ≡ same_types (trees_in a.now) (trees_in b.now) }
{
    let mut left = a;
    let mut right = b;
    while let TypeTreeList::More(head) = left {
        let TypeTreeList::More(other) = right else {
            return false;
        };
        if !same_tree(&head.ty, &other.ty) {
            return false;
        }
        left = &head.tail;
        right = &other.tail;
    }
    matches!(right, TypeTreeList::End)
}
