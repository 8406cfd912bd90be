//! The types that values have (LangRef, "Single Value Types").
ghost use Rattle.std.specs.Prelude.{◌≡◌};
ghost use Rattle.ir_scope.specs.Scalars.{maybe_scalar, scalar_of};

use ir_syntax::{TyText, TypeTree};

/// The type of a value.
#[derive(Clone, Copy, PartialEq, Eq)]
pub enum Scalar {
    /// An integer of this many bits.
    Int(u8),
    /// A pointer.
    Ptr,
}

/// The type of values that a type is; none of an array or a struct.
pub fn scalar_of(ty: &TyText) -> Option<Scalar>
    ensures { result ≡ scalar_of ty.now }
{
    match ty.tree() {
        TypeTree::Int { bits } => Some(Scalar::Int(*bits)),
        TypeTree::Ptr => Some(Scalar::Ptr),
        TypeTree::Array { .. } | TypeTree::Struct { .. } | TypeTree::Named(_) => None,
    }
}

/// The same of a type that may be left out, as `void` and `metadata` are.
pub fn maybe_scalar(ty: &Option<TyText>) -> Option<Scalar>
    ensures { result ≡ maybe_scalar ty.now }
{
    match ty {
        Some(ty) => scalar_of(ty),
        None => None,
    }
}
