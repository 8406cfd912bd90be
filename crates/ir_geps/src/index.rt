//! Indices of a `getelementptr`, and the numbers that they write (LangRef, "'getelementptr' Instruction").
ghost use Rattle.std.specs.Prelude.{◌≡◌, ◌+◌, ◌-◌, ◌*◌, ◌<◌, ◌≤◌, ◌^◌, nat_lt, if◌then◌else◌};
ghost use Rattle.ir_geps.specs.Indices.{Index, constant, field_number, is_integer, literal_field, literal_index, literal_word, operand_index, sign_extended, word_of};
ghost use Rattle.ir_syntax.specs.declared.literal.Literal.{Literal};
ghost use Rattle.ir_syntax.specs.Literals.{wrapped};

use ir_syntax::{Literal, Operand, TyText, TypeTree, TypedLiteral, TypedOperand};

/// 2^32.
const HALF_WORD: u128 = 1 << 32;
/// 2^64.
const WORD: u128 = 1 << 64;

/// An index of a `getelementptr`.
pub trait GepIndex {
    /// A literal with its type, or any other value.
    ghost index: { Self → Index };

    /// Whether it is an integer: a literal of another type is none.
    fn is_integer(&self) -> bool
        ensures { result ≡ is_integer (index self.now) };

    /// The number of the field that it names in a struct, from 0; none where it isn't a literal of type `i32`.
    fn field_number(&self) -> Option<u32>
        ensures { result ≡ field_number (index self.now) };
}

impl GepIndex for TypedLiteral {
    ghost index = { literal_index };

    fn is_integer(&self) -> bool {
        is_integer_type(&self.ty)
    }

    fn field_number(&self) -> Option<u32> {
        literal_field(&self.ty, self.value)
    }
}

impl GepIndex for TypedOperand {
    ghost index = { operand_index };

    fn is_integer(&self) -> bool {
        match self.value {
            Operand::Int(_) => is_integer_type(&self.ty),
            _ => true,
        }
    }

    fn field_number(&self) -> Option<u32> {
        match self.value {
            Operand::Int(literal) => literal_field(&self.ty, literal),
            _ => None,
        }
    }
}

fn is_integer_type(ty: &TyText) -> bool
    ensures { (l : Literal) → result ≡ is_integer (constant ty.now l) }
{
    matches!(ty.tree(), TypeTree::Int { .. })
}

/// The number of the field that a literal names.
fn literal_field(ty: &TyText, literal: Literal) -> Option<u32>
    ensures { result ≡ literal_field ty.now literal }
{
    match ty.tree() {
        TypeTree::Int { bits: 32 } => Some(low_half(literal)),
        _ => None,
    }
}

/// The lowest 32 bits of a literal.
fn low_half(literal: Literal) -> u32
    ensures { result ≡ wrapped 32 literal }
{
    let magnitude = (literal.magnitude % HALF_WORD) as u32;
    if literal.negative {
        magnitude.wrapping_neg()
    } else {
        magnitude
    }
}

/// The lowest 64 bits of a literal.
fn low_word(literal: Literal) -> u64
    ensures { result ≡ wrapped 64 literal }
{
    let magnitude = (literal.magnitude % WORD) as u64;
    if literal.negative {
        magnitude.wrapping_neg()
    } else {
        magnitude
    }
}

/// The 64 bits of a literal of an integer type; none of one of another type.
pub fn literal_word(ty: &TyText, literal: Literal) -> Option<u64>
    ensures { result ≡ literal_word ty.now literal }
{
    match ty.tree() {
        TypeTree::Int { bits } => Some(word_of(*bits, literal)),
        _ => None,
    }
}

/// The 64 bits of a literal of so many bits.
fn word_of(bits: u8, literal: Literal) -> u64
    ensures { result ≡ word_of bits literal }
{
    if bits < 64 {
        extended(bits, literal)
    } else {
        low_word(literal)
    }
}

/// The 64 bits of a literal of fewer bits, sign-extended.
fn extended(bits: u8, literal: Literal) -> u64
    requires { bits < 64 }
    ensures { result ≡ sign_extended bits (wrapped bits literal) }
{
    let unit = 1u64 << bits;
    let low = (literal.magnitude % u128::from(unit)) as u64;
    let number = if literal.negative {
        (unit - low) % unit
    } else {
        low
    };
    repeat_sign(unit, number)
}

/// A number below `unit`, the highest bit repeated up to 64.
fn repeat_sign(unit: u64, number: u64) -> u64
    requires unit { unit ≤ 2 ^ 63 }
    requires below { number < unit }
    ensures { result ≡ if nat_lt (2 * number) unit then number else number + (2 ^ 64 - unit) }
{
    if 2 * number < unit {
        number
    } else {
        number.wrapping_sub(unit)
    }
}
