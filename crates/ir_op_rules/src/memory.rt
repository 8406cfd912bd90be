//! Types and alignments of the operations on memory (LangRef, "Memory Access and Addressing Operations").
ghost use Rattle.std.specs.Prelude.{◌≡◌};
ghost use Rattle.std.specs.List.{list_all};
ghost use Rattle.ir_ident.specs.NameMaps.{value_of};
ghost use Rattle.ir_op_rules.specs.Memory.{access_align_limit, alloca_fits, counts_by_int, gep_fits, load_fits, store_fits};
ghost use Rattle.ir_op_rules.specs.Values.{int_fits};
ghost use Rattle.ir_scope.specs.Alignments.{is_aligned};

use crate::values::{address_fits, int_fits, is_int, is_value_type};
use ir_ident::NameMap;
use ir_scope::{Scalar, is_aligned, value_fits};
use ir_syntax::{Operand, TyText, TypedLiteral, TypedOperand};

/// The greatest alignment of an access in bytes.
const ACCESS_ALIGN_LIMIT: u64 = 1 << 63;
/// The greatest alignment of an `alloca` in bytes.
const ALLOCA_ALIGN_LIMIT: u64 = 16;

/// Whether an alignment of an access is a power of two from 1 to 2^63, if one is written.
pub fn is_access_aligned(align: Option<u64>) -> bool
    ensures { result ≡ is_aligned access_align_limit align }
{
    is_aligned(ACCESS_ALIGN_LIMIT, align)
}

/// Whether all indices are integers.
fn are_int(locals: &NameMap<'_, Scalar>, indices: &[TypedOperand]) -> bool
    ensures { result ≡ list_all (λ i. int_fits (value_of locals.now) i.ty i.value) indices.now }
{
    indices
        .iter()
        .all(|index| int_fits(locals, &index.ty, &index.value))
}

/// Whether a `getelementptr` has an address, and indices that are integers.
pub(crate) fn gep_fits(
    locals: &NameMap<'_, Scalar>,
    base_ty: &TyText,
    base: &Operand,
    indices: &[TypedOperand],
) -> bool
    ensures { result ≡ gep_fits (value_of locals.now) base_ty.now base.now indices.now }
{
    address_fits(locals, base_ty, base) & are_int(locals, indices)
}

/// Whether a `load` gives a value, and has an address and an alignment.
pub(crate) fn load_fits(
    locals: &NameMap<'_, Scalar>,
    ty: &TyText,
    address_ty: &TyText,
    address: &Operand,
    align: Option<u64>,
) -> bool
    ensures { result ≡ load_fits (value_of locals.now) ty.now address_ty.now address.now align }
{
    is_value_type(ty) & (address_fits(locals, address_ty, address) & is_access_aligned(align))
}

/// Whether a `store` has a value, an address and an alignment.
pub(crate) fn store_fits(
    locals: &NameMap<'_, Scalar>,
    ty: &TyText,
    value: &Operand,
    address_ty: &TyText,
    address: &Operand,
    align: Option<u64>,
) -> bool
    ensures { result ≡ store_fits (value_of locals.now) ty.now value.now address_ty.now address.now align }
{
    value_fits(locals, ty, value)
        & (address_fits(locals, address_ty, address) & is_access_aligned(align))
}

/// Whether the number of elements is an integer, if one is written.
fn counts_by_int(count: &Option<TypedLiteral>) -> bool
    ensures { result ≡ counts_by_int count.now }
{
    match count {
        Some(count) => is_int(&count.ty),
        None => true,
    }
}

/// Whether an `alloca` has a number of elements and an alignment.
pub(crate) fn alloca_fits(count: &Option<TypedLiteral>, align: Option<u64>) -> bool
    ensures { result ≡ alloca_fits count.now align }
{
    counts_by_int(count) & is_aligned(ALLOCA_ALIGN_LIMIT, align)
}
