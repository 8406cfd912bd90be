//! Values of operands that are equal by what the text writes.
ghost use Rattle.std.specs.Prelude.{◌≡◌, ◌≤◌, IfSome};
ghost use Rattle.ir_phis.specs.Values.{literal_of, same_gep, same_index, same_indices, same_literal, same_literals, same_number, same_value};
ghost use Rattle.ir_syntax.specs.Literals.{width_of, wrapped};

use crate::types::same_type;
use ir_syntax::{GepParts, Literal, Operand, TyText, TypedLiteral};

/// Whether two operands of a type have equal values: `true` is 1 and `false` is 0, and literals wrap to the type's width.
pub(crate) fn same_value(ty: &TyText, a: &Operand, b: &Operand) -> bool
    ensures { result ≡ same_value ty.now a.now b.now }
{
    match (a, b) {
        (Operand::Local(a), Operand::Local(b)) => a.name.is_same(&b.name),
        (Operand::Global(a), Operand::Global(b)) => a.name.is_same(&b.name),
        (Operand::Gep(a), Operand::Gep(b)) => same_gep(a.parts(), b.parts()),
        (Operand::Null, Operand::Null) => true,
        (Operand::Undef, Operand::Undef) => true,
        (Operand::Poison, Operand::Poison) => true,
        _ => same_literals(ty.width(), literal_of(a), literal_of(b)),
    }
}

fn literal_of(operand: &Operand) -> Option<Literal>
    ensures { result ≡ literal_of operand.now }
{
    match operand {
        Operand::Int(literal) => Some(*literal),
        Operand::True => Some(Literal {
            negative: false,
            magnitude: 1,
        }),
        Operand::False => Some(Literal {
            negative: false,
            magnitude: 0,
        }),
        _ => None,
    }
}

fn same_literals(width: Option<u8>, a: Option<Literal>, b: Option<Literal>) -> bool
    requires { IfSome width (λ width. width ≤ 64) }
    ensures { result ≡ same_literals width a b }
{
    match (a, b) {
        (Some(a), Some(b)) => same_literal(width, a, b),
        _ => false,
    }
}

fn same_literal(width: Option<u8>, a: Literal, b: Literal) -> bool
    requires { IfSome width (λ width. width ≤ 64) }
    ensures { result ≡ same_literal width a b }
{
    match width {
        Some(width) => a.wrapped(width) == b.wrapped(width),
        None => same_number(a, b),
    }
}

/// Whether two literals are the same number.
fn same_number(a: Literal, b: Literal) -> bool
    ensures { result ≡ same_number a b }
{
    (a.magnitude == b.magnitude) & ((a.negative == b.negative) | (a.magnitude == 0))
}

/// Whether two constant getelementptrs are written with the same parts.
fn same_gep(a: &GepParts, b: &GepParts) -> bool
    ensures { result ≡ same_gep a.now b.now }
{
    (a.inbounds == b.inbounds)
        & a.base.name.is_same(&b.base.name)
        & same_type(&a.ty, &b.ty)
        & same_indices(a.indices.as_slice(), b.indices.as_slice())
}

fn same_indices(a: &[TypedLiteral], b: &[TypedLiteral]) -> bool
    ensures { result ≡ same_indices a.now b.now }
{
    let mut rest = b;
    for index in a {
        let [other, tail @ ..] = rest else {
            return false;
        };
        if !same_index(index, other) {
            return false;
        }
        rest = tail;
    }
    rest.is_empty()
}

fn same_index(a: &TypedLiteral, b: &TypedLiteral) -> bool
    ensures { result ≡ same_index a.now b.now }
{
    same_type(&a.ty, &b.ty) & same_number(a.value, b.value)
}
