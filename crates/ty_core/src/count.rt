//! The places of types (LangRef, "Type System").
ghost use Rattle.std.specs.Prelude.{◌≡◌};
ghost use Rattle.ty_core.specs.Places.{places_in, places_of};
ghost use Rattle.ty_core.specs.Plans.{all_places, capped, trees_in};
ghost use Rattle.ty_core.specs.Tree.{tree_of, trees_of};

use crate::types::{Ty, TyList};

/// The places of all these types, at most 2^64 - 1.
pub(crate) fn list_places(types: &TyList) -> u64
    ensures { result ≡ capped (all_places (trees_in types.now)) }
{
    let mut total = 0u64;
    let mut rest = types;
    while let TyList::More(head, tail) = rest {
        total = total.saturating_add(type_places(head));
        rest = tail;
    }
    total
}

/// The places of a type, at most 2^64 - 1.
#[cycle(counting)]
fn type_places(ty: &Ty) -> u64
    ensures { result ≡ capped (places_of (tree_of ty.now)) }
{
    match ty {
        Ty::Int { .. } | Ty::Ptr => 1,
        Ty::Array { elem, .. } => type_places(elem).saturating_add(1),
        Ty::Struct { fields, .. } => field_places(fields).saturating_add(1),
    }
}

/// The places of the fields of a struct, each with its own, at most 2^64 - 1.
#[cycle(counting)]
fn field_places(fields: &TyList) -> u64
    ensures { result ≡ capped (places_in (trees_of fields.now)) }
{
    let mut total = 0u64;
    let mut rest = fields;
    while let TyList::More(head, tail) = rest {
        total = total.saturating_add(type_places(head)).saturating_add(1);
        rest = tail;
    }
    total
}
