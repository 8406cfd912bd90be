//! Sizes and alignments at worked values.
use std::alloc::{AllocError, Global};
use ty_core::{Layout, TooBig, Ty, TyList, layout};

/// A type of at most two levels, over integers of some width.
#[derive(Clone, Copy)]
pub(crate) enum Shape {
    /// An integer.
    Int(u8),
    Ptr,
    /// So many integers.
    Array(u32, u8),
    /// So many arrays of so many integers.
    Arrays(u32, u32, u8),
    /// A struct of two integers.
    Pair(u8, u8),
    /// A packed struct of two integers.
    Packed(u8, u8),
    /// A struct of an integer and an array of so many integers.
    Tailed(u8, u32, u8),
    /// A struct without fields.
    Empty,
}

/// Types, and the size and the alignment of each that is not too big.
pub(crate) const LAYOUTS: &[(Shape, Option<(u64, u64)>)] = &[
    // Scalars take whole bytes and are aligned to the next power of two.
    (Shape::Int(1), Some((1, 1))),
    (Shape::Int(8), Some((1, 1))),
    (Shape::Int(24), Some((3, 4))),
    (Shape::Int(32), Some((4, 4))),
    (Shape::Int(64), Some((8, 8))),
    (Shape::Int(65), Some((9, 16))),
    (Shape::Ptr, Some((8, 8))),
    // Fields are aligned unless the struct is packed.
    (Shape::Array(4, 32), Some((16, 4))),
    (Shape::Pair(8, 32), Some((8, 4))),
    (Shape::Packed(8, 32), Some((5, 1))),
    (Shape::Tailed(8, 3, 8), Some((4, 1))),
    (Shape::Empty, Some((0, 1))),
    // A type is too big from 4 GiB on.
    (Shape::Array(u32::MAX, 8), Some((4_294_967_295, 1))),
    (Shape::Array(u32::MAX, 16), None),
    (Shape::Arrays(0, u32::MAX, 16), None),
];

fn array(alloc: Global, len: u32, elem: Ty) -> Result<Ty, AllocError> {
    let elem = Box::new(alloc, elem)?;
    Ok(Ty::Array { len, elem })
}

pub(crate) fn structure(alloc: Global, packed: bool, fields: Vec<Ty>) -> Result<Ty, AllocError> {
    let fields = TyList::from_vec(alloc, fields)?;
    Ok(Ty::Struct { packed, fields })
}

fn pair(alloc: Global, packed: bool, first: u8, second: Ty) -> Result<Ty, AllocError> {
    let mut fields = Vec::new(alloc);
    fields.push(Ty::Int { bits: first })?;
    fields.push(second)?;
    structure(alloc, packed, fields)
}

/// The type of a shape.
pub(crate) fn ty_of(alloc: Global, shape: Shape) -> Result<Ty, AllocError> {
    match shape {
        Shape::Int(bits) => Ok(Ty::Int { bits }),
        Shape::Ptr => Ok(Ty::Ptr),
        Shape::Array(len, bits) => array(alloc, len, Ty::Int { bits }),
        Shape::Arrays(count, len, bits) => {
            array(alloc, count, array(alloc, len, Ty::Int { bits })?)
        }
        Shape::Pair(first, bits) => pair(alloc, false, first, Ty::Int { bits }),
        Shape::Packed(first, bits) => pair(alloc, true, first, Ty::Int { bits }),
        Shape::Tailed(first, len, bits) => {
            pair(alloc, false, first, array(alloc, len, Ty::Int { bits })?)
        }
        Shape::Empty => structure(alloc, false, Vec::new(alloc)),
    }
}

/// Whether a type has this size and alignment, or is too big.
pub(crate) fn has_layout(ty: &Ty, wanted: Option<(u64, u64)>) -> bool {
    match (layout(ty), wanted) {
        (Ok(Layout { size, align }), Some(wanted)) => (size, align) == wanted,
        (Err(TooBig), None) => true,
        _ => false,
    }
}

/// Whether a shape has this size and alignment, or is too big.
fn is_right(alloc: Global, shape: Shape, wanted: Option<(u64, u64)>) -> bool {
    match ty_of(alloc, shape) {
        Ok(ty) => has_layout(&ty, wanted),
        Err(_) => false,
    }
}

/// The number of the first shape whose layout is another, or 0.
fn wrong_layout(alloc: Global) -> usize {
    for at in 0..LAYOUTS.len() {
        if !is_right(alloc, LAYOUTS[at].0, LAYOUTS[at].1) {
            return at + 1;
        }
    }
    0
}

#[test]
fn types_have_their_layouts(rt: HostRuntime) {
    assert_eq!(rt; wrong_layout(rt.alloc()), 0);
}
