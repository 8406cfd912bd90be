//! Sizes and alignments of types (LangRef, "Data Layout").
ghost use Rattle.std.specs.Prelude.{◌≡◌, ◌≤◌, ◌<◌, ◌+◌, ◌*◌, IfOk, OnOk, OnErr};
ghost use Rattle.ty_core.specs.Tree.{Tree, tree_of, trees_of, struct};
ghost use Rattle.std.specs.Int.{IsPowerOfTwo};
ghost use Rattle.ty_core.specs.Size.{IsAlign, align_of, layout_of, greatest_size, size_limit, rounded, least_power, bytes_of, begin_at, layout_behind};

use crate::extent::{Layout, TooBig};
use crate::types::{Ty, TyList};

/// The greatest size that a type may have, in bytes.
const SIZE_LIMIT: u64 = 0xffff_ffff;

/// The size and the alignment of a type.
///
/// An integer takes the least number of bytes that hold its bits, and is aligned to the least power of two
/// that is not below its size; a pointer takes 8 bytes and is aligned to 8. An element of an array and a
/// field of a struct take their size rounded up to their alignment. A field begins at the next multiple of
/// its alignment, in a packed struct directly behind the field before it. A struct has the greatest
/// alignment of its fields, or 1 if it is packed or has none, and its size is rounded up to that.
///
/// # Errors
///
/// [`TooBig`] where the type, or a type that is part of it, takes more than 4,294,967,295 bytes.
#[cycle(measure)]
pub fn layout(ty: &Ty) -> Result<Layout, TooBig>
    ensures ok { IfOk result (λ l. l ≡ layout_of (tree_of ty.now)) }
    ensures within { OnOk result (greatest_size (tree_of ty.now) ≤ size_limit) }
    ensures too_big { OnErr result (size_limit < greatest_size (tree_of ty.now)) }
    ensures small { IfOk result (λ l. l.size ≤ size_limit) }
    ensures aligned { IfOk result (λ l. IsAlign l.align) }
{
    match ty {
        Ty::Int { bits } => Ok(integer_layout(*bits)),
        Ty::Ptr => Ok(Layout { size: 8, align: 8 }),
        Ty::Array { len, elem } => {
            let each = layout(elem)?;
            array_layout(*len, each)
        }
        Ty::Struct { packed, fields } => struct_layout(*packed, fields),
    }
}

/// The least multiple of `align` that is `at` or more.
fn round_up(at: u64, align: u64) -> u64
    requires low { at ≤ size_limit }
    requires aligned { IsAlign align }
    ensures value { result ≡ rounded at align }
    ensures least { at ≤ result }
    ensures most { result < at + align }
{
    at.div_ceil(align) * align
}

/// The size itself, unless it is above the limit.
fn within_limit(size: u64) -> Result<u64, TooBig>
    ensures ok { IfOk result (λ same. same ≡ size) }
    ensures within { OnOk result (size ≤ size_limit) }
    ensures too_big { OnErr result (size_limit < size) }
{
    if size <= SIZE_LIMIT {
        Ok(size)
    } else {
        Err(TooBig)
    }
}

/// The layout of an integer of this many bits (LangRef, "Integer Type").
pub fn integer_layout(bits: u8) -> Layout
    ensures size { result.size ≡ bytes_of bits }
    ensures align { result.align ≡ least_power (bytes_of bits) }
{
    let size = u64::from(bits).div_ceil(8);
    Layout {
        size,
        align: size.next_power_of_two(),
    }
}

/// The layout of an array of `len` elements, each of which has the layout `each` (LangRef, "Array Type").
///
/// # Errors
///
/// [`TooBig`] where the array takes more than 4,294,967,295 bytes.
pub fn array_layout(len: u32, each: Layout) -> Result<Layout, TooBig>
    requires low { each.size ≤ size_limit }
    requires aligned { IsAlign each.align }
    ensures ok { IfOk result (λ l. l ≡ record { size = len * rounded each.size each.align; align = each.align }) }
    ensures within { OnOk result (len * rounded each.size each.align ≤ size_limit) }
    ensures too_big { OnErr result (size_limit < len * rounded each.size each.align) }
{
    let stride = round_up(each.size, each.align);
    let size = u64::from(len).checked_mul(stride).ok_or(TooBig)?;
    Ok(Layout {
        size: within_limit(size)?,
        align: each.align,
    })
}

/// Where a field of the layout `field` ends that stands behind one that ends at `at` bytes, from the start of their
/// struct (LangRef, "Structure Type").
///
/// # Errors
///
/// [`TooBig`] where it ends behind 4,294,967,295 bytes.
pub fn end_behind(packed: bool, at: u64, field: Layout) -> Result<u64, TooBig>
    requires low { at ≤ size_limit }
    requires size { field.size ≤ size_limit }
    requires aligned { IsAlign field.align }
    ensures ok { IfOk result (λ end. end ≡ begin_at packed at field.align + rounded field.size field.align) }
    ensures within { IfOk result (λ end. end ≤ size_limit) }
    ensures too_big { OnErr result (size_limit < begin_at packed at field.align + rounded field.size field.align) }
{
    let begin = if packed {
        at
    } else {
        round_up(at, field.align)
    };
    let end = begin + round_up(field.size, field.align);
    within_limit(end)
}

/// The layout of a struct whose fields end at `end` bytes and have this greatest alignment, 1 if there is no field
/// (LangRef, "Structure Type").
///
/// # Errors
///
/// [`TooBig`] where the struct takes more than 4,294,967,295 bytes.
pub fn layout_behind(packed: bool, end: u64, greatest: u64) -> Result<Layout, TooBig>
    requires low { end ≤ size_limit }
    requires aligned { IsAlign greatest }
    ensures ok { IfOk result (λ l. l ≡ layout_behind packed end greatest) }
    ensures within { IfOk result (λ l. l.size ≤ size_limit) }
    ensures too_big { OnErr result (size_limit < (layout_behind packed end greatest).size) }
{
    let align = if packed { 1 } else { greatest };
    let size = within_limit(round_up(end, align))?;
    Ok(Layout { size, align })
}

/// The layout of a struct with these fields.
#[cycle(measure)]
fn struct_layout(packed: bool, fields: &TyList) -> Result<Layout, TooBig>
    ensures ok { IfOk result (λ l. l ≡ layout_of (struct packed (trees_of fields.now))) }
    ensures within { OnOk result (greatest_size (struct packed (trees_of fields.now)) ≤ size_limit) }
    ensures too_big { OnErr result (size_limit < greatest_size (struct packed (trees_of fields.now))) }
    ensures small { IfOk result (λ l. l.size ≤ size_limit) }
    ensures aligned { IfOk result (λ l. IsAlign l.align) }
{
    let mut end = 0;
    let mut greatest = 1;
    let mut rest = fields;
    while let TyList::More(head, tail) = rest {
        let field = layout(head)?;
        end = end_behind(packed, end, field)?;
        greatest = greatest.max(field.align);
        rest = tail;
    }
    layout_behind(packed, end, greatest)
}

/// The alignment of each type is a power of two.
pub fn alignments_are_powers_of_two()
    ensures { (tree : Tree) → IsPowerOfTwo (align_of tree) }
{}
