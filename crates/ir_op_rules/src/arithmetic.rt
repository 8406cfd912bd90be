//! Types of the operations on numbers, of comparisons and choices (LangRef, "Binary Operations", "Bitwise Binary Operations",
//! "'icmp' Instruction" and "'select' Instruction").
ghost use Rattle.std.specs.Prelude.{◌≡◌};
ghost use Rattle.ir_ident.specs.NameMaps.{value_of};
ghost use Rattle.ir_op_rules.specs.Arithmetic.{binary_fits, choice_fits, pair_fits};

use crate::values::{are_same, is_int};
use ir_ident::NameMap;
use ir_scope::{Scalar, scalar_of, value_fits};
use ir_syntax::{Operand, TyText};

/// Whether two operands are of one type of values.
pub(crate) fn pair_fits(
    locals: &NameMap<'_, Scalar>,
    ty: &TyText,
    left: &Operand,
    right: &Operand,
) -> bool
    ensures { result ≡ pair_fits (value_of locals.now) ty.now left.now right.now }
{
    value_fits(locals, ty, left) & value_fits(locals, ty, right)
}

/// Whether two operands are integers of one type.
pub(crate) fn binary_fits(
    locals: &NameMap<'_, Scalar>,
    ty: &TyText,
    left: &Operand,
    right: &Operand,
) -> bool
    ensures { result ≡ binary_fits (value_of locals.now) ty.now left.now right.now }
{
    is_int(ty) & pair_fits(locals, ty, left, right)
}

/// Whether two values with types of their own are of one type.
pub(crate) fn choice_fits(
    locals: &NameMap<'_, Scalar>,
    then_ty: &TyText,
    then_value: &Operand,
    else_ty: &TyText,
    else_value: &Operand,
) -> bool
    ensures { result ≡ choice_fits (value_of locals.now) then_ty.now then_value.now else_ty.now else_value.now }
{
    are_same(scalar_of(then_ty), scalar_of(else_ty))
        & (value_fits(locals, then_ty, then_value) & value_fits(locals, else_ty, else_value))
}
