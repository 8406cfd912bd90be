//! Sizes of the types that instructions write, and of what an `alloca` gives (LangRef, "Data Layout" and "'alloca' Instruction").
ghost use Rattle.std.specs.Prelude.{◌≡◌, ◌≤◌, IfOk, IfSome, is_some, nat_le};
ghost use Rattle.std.specs.List.{list_all};
ghost use Rattle.ir_op_rules.specs.Sizes.{alloca_size, are_sized, count_of, has_sizes, is_small_alloca, is_within, small_size};
ghost use Rattle.ir_sizes.specs.Sized.{layout_in};
ghost use Rattle.ty_core.specs.Size.{IsAlign, rounded, size_limit};

use crate::written::{Written, WrittenTypes};
use ir_sizes::NamedTypes;
use ir_syntax::{Op, TyText, TypedLiteral};
use ir_walk::Walk;
use std::alloc::AllocError;
use ty_core::Layout;

/// The most bytes that an `alloca` may take.
const SIZE_LIMIT: u128 = 0xffff_ffff;

fn is_sized(types: &NamedTypes<'_>, ty: &TyText) -> bool
    ensures { result ≡ is_some (layout_in types.now ty.now) }
{
    types.layout(ty.tree()).is_some()
}

fn all_sized(types: &NamedTypes<'_>, written: &[Written<'_>]) -> bool
    ensures { result ≡ list_all (λ ty. is_some (layout_in types.now ty)) written.now }
{
    written.iter().all(|one| is_sized(types, one.ty))
}

/// Whether all types have a size that a part of a function writes. What `written` has before does not matter: its memory
/// is used.
///
/// # Errors
///
/// [`AllocError`].
pub(crate) fn are_sized<'a, T: Walk<'a, WrittenTypes<'a>>>(
    types: &NamedTypes<'_>,
    item: &'a T,
    written: &mut WrittenTypes<'a>,
) -> Result<bool, AllocError>
    ensures { IfOk result (λ sized. sized ≡ are_sized (layout_in types.now) (T.parts item.now)) }
{
    written.clear();
    item.walk(written)?;
    Ok(all_sized(types, written.types.as_slice()))
}

/// The number of elements of an `alloca`; none where its type is not one of integers.
pub fn count_of(count: &Option<TypedLiteral>) -> Option<u128>
    ensures { result ≡ count_of count.now }
{
    match count {
        Some(count) => {
            let bits = count.ty.width()?;
            Some(count.value.wrapped(bits))
        }
        None => Some(1),
    }
}

/// The bytes that each of several elements of a layout takes.
fn stride_of(each: Layout) -> u64
    requires small { each.size ≤ size_limit }
    requires aligned { IsAlign each.align }
    ensures value { result ≡ rounded each.size each.align }
{
    each.size.div_ceil(each.align) * each.align
}

/// How many bytes so many elements of a layout take (LangRef, "'alloca' Instruction"); none where they are more than 4,294,967,295.
pub fn small_size(each: Layout, count: u128) -> Option<u64>
    requires small { each.size ≤ size_limit }
    requires aligned { IsAlign each.align }
    ensures { result ≡ small_size each count }
{
    match count.checked_mul(u128::from(stride_of(each))) {
        Some(size) if size <= SIZE_LIMIT => Some(size as u64),
        _ => None,
    }
}

fn is_small_alloca(each: Option<Layout>, count: Option<u128>) -> bool
    requires small { IfSome each (λ layout. layout.size ≤ size_limit) }
    requires aligned { IfSome each (λ layout. IsAlign layout.align) }
    ensures { result ≡ is_small_alloca each count }
{
    match (each, count) {
        (Some(each), Some(count)) => small_size(each, count).is_some(),
        (Some(_), None) | (None, _) => false,
    }
}

/// Whether an operation takes few enough bytes where it is an `alloca`.
fn is_within(types: &NamedTypes<'_>, op: &Op) -> bool
    ensures { result ≡ is_within (layout_in types.now) op.now }
{
    match op {
        Op::Alloca { ty, count, .. } => is_small_alloca(types.layout(ty.tree()), count_of(count)),
        _ => true,
    }
}

/// Whether all types have a size that an operation writes, and what it gives where it is an `alloca`. What `written` has
/// before does not matter: its memory is used.
///
/// # Errors
///
/// [`AllocError`].
pub(crate) fn has_sizes<'a>(
    types: &NamedTypes<'_>,
    op: &'a Op,
    written: &mut WrittenTypes<'a>,
) -> Result<bool, AllocError>
    ensures { IfOk result (λ sized. sized ≡ has_sizes (layout_in types.now) op.now) }
{
    let sized = are_sized(types, op, written)?;
    Ok(sized & is_within(types, op))
}
