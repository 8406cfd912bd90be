//! Types that conversions go between (LangRef, "Conversion Operations").
ghost use Rattle.std.specs.Prelude.{◌≡◌};
ghost use Rattle.ir_ident.specs.NameMaps.{value_of};
ghost use Rattle.ir_op_rules.specs.Casts.{are_address_and_int, cast_fits, converts, converts_between, is_narrower};

use crate::values::are_same;
use ir_ident::NameMap;
use ir_scope::{Scalar, scalar_of, value_fits};
use ir_syntax::{CastOp, Operand, TyText};

/// Whether both are integers, and the first has fewer bits.
fn is_narrower(a: Scalar, b: Scalar) -> bool
    ensures { result ≡ is_narrower a b }
{
    match (a, b) {
        (Scalar::Int(a), Scalar::Int(b)) => a < b,
        (Scalar::Int(_), Scalar::Ptr) | (Scalar::Ptr, _) => false,
    }
}

/// Whether the first is a pointer, and the second an integer.
fn are_address_and_int(a: Scalar, b: Scalar) -> bool
    ensures { result ≡ are_address_and_int a b }
{
    matches!((a, b), (Scalar::Ptr, Scalar::Int(_)))
}

/// Whether a conversion goes from one type to another.
fn converts(op: CastOp, from: Scalar, to: Scalar) -> bool
    ensures { result ≡ converts op from to }
{
    match op {
        CastOp::Trunc => is_narrower(to, from),
        CastOp::Zext | CastOp::Sext => is_narrower(from, to),
        CastOp::PtrToInt => are_address_and_int(from, to),
        CastOp::IntToPtr => are_address_and_int(to, from),
        CastOp::BitCast => are_same(Some(from), Some(to)),
    }
}

/// The same of types that may be none of values.
fn converts_between(op: CastOp, from: Option<Scalar>, to: Option<Scalar>) -> bool
    ensures { result ≡ converts_between op from to }
{
    match (from, to) {
        (Some(from), Some(to)) => converts(op, from, to),
        (Some(_), None) | (None, _) => false,
    }
}

/// Whether a conversion goes between its types, and its operand is of the first one.
pub(crate) fn cast_fits(
    locals: &NameMap<'_, Scalar>,
    op: CastOp,
    from: &TyText,
    value: &Operand,
    to: &TyText,
) -> bool
    ensures { result ≡ cast_fits (value_of locals.now) op from.now value.now to.now }
{
    value_fits(locals, from, value) & converts_between(op, scalar_of(from), scalar_of(to))
}
