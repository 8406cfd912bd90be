//! Types of values, and the operands that they have (LangRef, "Single Value Types").
ghost use Rattle.std.specs.Prelude.{◌≡◌};
ghost use Rattle.ir_ident.specs.NameMaps.{value_of};
ghost use Rattle.ir_op_rules.specs.Values.{address_fits, are_same, condition_fits, int_fits, is_i1, is_int, is_ptr, is_value_type};

use ir_ident::NameMap;
use ir_scope::{Scalar, scalar_of, value_fits};
use ir_syntax::{Operand, TyText, TypeTree};

/// Whether values have a type.
pub(crate) fn is_value_type(ty: &TyText) -> bool
    ensures { result ≡ is_value_type ty.now }
{
    scalar_of(ty).is_some()
}

pub(crate) fn is_int(ty: &TyText) -> bool
    ensures { result ≡ is_int ty.now }
{
    matches!(ty.tree(), TypeTree::Int { .. })
}

fn is_i1(ty: &TyText) -> bool
    ensures { result ≡ is_i1 ty.now }
{
    matches!(ty.tree(), TypeTree::Int { bits: 1 })
}

fn is_ptr(ty: &TyText) -> bool
    ensures { result ≡ is_ptr ty.now }
{
    matches!(ty.tree(), TypeTree::Ptr)
}

/// Whether both are one type of values.
pub fn are_same(a: Option<Scalar>, b: Option<Scalar>) -> bool
    ensures { result ≡ are_same a b }
{
    match (a, b) {
        (Some(Scalar::Int(a)), Some(Scalar::Int(b))) => a == b,
        (Some(Scalar::Ptr), Some(Scalar::Ptr)) => true,
        _ => false,
    }
}

/// Whether a type is one of integers, and an operand is of it.
pub(crate) fn int_fits(locals: &NameMap<'_, Scalar>, ty: &TyText, value: &Operand) -> bool
    ensures { result ≡ int_fits (value_of locals.now) ty.now value.now }
{
    is_int(ty) & value_fits(locals, ty, value)
}

/// Whether a type is `i1`, and an operand is of it.
pub(crate) fn condition_fits(locals: &NameMap<'_, Scalar>, ty: &TyText, value: &Operand) -> bool
    ensures { result ≡ condition_fits (value_of locals.now) ty.now value.now }
{
    is_i1(ty) & value_fits(locals, ty, value)
}

/// Whether a type is `ptr`, and an operand is of it.
pub(crate) fn address_fits(locals: &NameMap<'_, Scalar>, ty: &TyText, value: &Operand) -> bool
    ensures { result ≡ address_fits (value_of locals.now) ty.now value.now }
{
    is_ptr(ty) & value_fits(locals, ty, value)
}
