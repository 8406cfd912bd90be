//! Copies of types.
ghost use Rattle.std.specs.Prelude.{◌≡◌, IfOk};
ghost use Rattle.ty_core.specs.Plans.{trees_in};
ghost use Rattle.ty_core.specs.Tree.{tree_of};

use crate::types::{Ty, TyList};
use std::alloc::{AllocError, Global};

/// A copy of a type.
#[cycle(copying)]
#[tactic(auto, using(crate::proofs::Lists::same_fields))]
fn copied_type(alloc: Global, ty: &Ty) -> Result<Ty, AllocError>
    ensures { IfOk result (λ copy. tree_of copy ≡ tree_of ty.now) }
{
    match ty {
        Ty::Int { bits } => Ok(Ty::Int { bits: *bits }),
        Ty::Ptr => Ok(Ty::Ptr),
        Ty::Array { len, elem } => {
            let elem = Box::new(alloc, copied_type(alloc, elem)?)?;
            Ok(Ty::Array { len: *len, elem })
        }
        Ty::Struct { packed, fields } => {
            let fields = copied_list(alloc, fields)?;
            Ok(Ty::Struct {
                packed: *packed,
                fields,
            })
        }
    }
}

/// A copy of these types in their order.
#[cycle(copying)]
#[tactic(auto, using(crate::proofs::Lists::one_more))]
pub(crate) fn copied_list(alloc: Global, types: &TyList) -> Result<TyList, AllocError>
    ensures { IfOk result (λ copy. trees_in copy ≡ trees_in types.now) }
{
    let mut copies = Vec::new(alloc);
    let mut rest = types;
    while let TyList::More(head, tail) = rest {
        copies.push(copied_type(alloc, head)?)?;
        rest = tail;
    }
    TyList::from_vec(alloc, copies)
}
