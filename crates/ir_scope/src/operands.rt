//! Which operands a type has.
ghost use Rattle.std.specs.Prelude.{◌≡◌};
ghost use Rattle.ir_ident.specs.NameMaps.{value_of};
ghost use Rattle.ir_scope.specs.Operands.{is_bool, is_integer, is_pointer, is_scalar, operand_fits, value_fits};

use crate::scalar::{Scalar, scalar_of};
use ir_ident::NameMap;
use ir_syntax::{Operand, TyText};

fn is_integer(scalar: Scalar) -> bool
    ensures { result ≡ is_integer scalar }
{
    matches!(scalar, Scalar::Int(_))
}

fn is_bool(scalar: Scalar) -> bool
    ensures { result ≡ is_bool scalar }
{
    matches!(scalar, Scalar::Int(1))
}

fn is_pointer(scalar: Scalar) -> bool
    ensures { result ≡ is_pointer scalar }
{
    matches!(scalar, Scalar::Ptr)
}

/// Whether a value of the first type, if there is one, is of the second one.
fn is_scalar(own: Option<Scalar>, scalar: Scalar) -> bool
    ensures { result ≡ is_scalar own scalar }
{
    match (own, scalar) {
        (Some(Scalar::Int(own)), Scalar::Int(bits)) => own == bits,
        (Some(Scalar::Ptr), Scalar::Ptr) => true,
        (Some(Scalar::Int(_)), Scalar::Ptr) | (Some(Scalar::Ptr), Scalar::Int(_)) | (None, _) =>
            false,
    }
}

/// Whether an operand is of a type, where `locals` has the types of local names. A number is of any integer type, `undef` and
/// `poison` are of any type, and what has an address is a pointer.
pub fn operand_fits(locals: &NameMap<'_, Scalar>, operand: &Operand, scalar: Scalar) -> bool
    ensures { result ≡ operand_fits (value_of locals.now) scalar operand.now }
{
    match operand {
        Operand::Local(used) => is_scalar(locals.get(&used.name), scalar),
        Operand::Global(_) | Operand::Null | Operand::Gep(_) => is_pointer(scalar),
        Operand::Int(_) => is_integer(scalar),
        Operand::True | Operand::False => is_bool(scalar),
        Operand::Undef | Operand::Poison => true,
    }
}

/// Whether a type is one of values, and an operand is of it.
pub fn value_fits(locals: &NameMap<'_, Scalar>, ty: &TyText, operand: &Operand) -> bool
    ensures { result ≡ value_fits (value_of locals.now) ty.now operand.now }
{
    match scalar_of(ty) {
        Some(scalar) => operand_fits(locals, operand, scalar),
        None => false,
    }
}
