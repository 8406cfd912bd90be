//! What a walk goes over.
ghost use Rattle.std.specs.Prelude.{◌≡◌, ◌++◌, List, OnOk};
ghost use Rattle.std.specs.List.{flat_map};
ghost use Rattle.ir_walk.specs.Parts.{Part, literal_parts, maybe_parts, type_parts};

use crate::visitor::Visitor;
use ir_syntax::{TyText, TypeTexts, TypedLiteral};
use std::alloc::AllocError;

/// What has parts that a visitor is shown.
pub trait Walk<'a, V: Visitor<'a>> {
    /// Its parts in the order of the text.
    ghost parts: { Self → List Part };

    /// Shows its parts to a visitor, in order.
    ///
    /// # Errors
    ///
    /// [`AllocError`].
    fn walk(&'a self, visitor: &mut V) -> Result<(), AllocError>
        ensures { OnOk result (V.found visitor.new ≡ V.found visitor.old ++ flat_map V.of_part (parts self.now)) };
}

/// Shows the parts of each of these to a visitor, in order.
pub(crate) fn walk_all<'a, V: Visitor<'a>, T: Walk<'a, V>>(
    items: &'a [T],
    visitor: &mut V,
) -> Result<(), AllocError>
    ensures { OnOk result (V.found visitor.new ≡ V.found visitor.old ++ flat_map V.of_part (flat_map T.parts items.now)) }
{
    for item in items {
        item.walk(visitor)?;
    }
    Ok(())
}

impl<'a, V: Visitor<'a>, T: Walk<'a, V>> Walk<'a, V> for Option<T> {
    ghost parts = { maybe_parts T.parts };

    fn walk(&'a self, visitor: &mut V) -> Result<(), AllocError> {
        match self {
            Some(item) => item.walk(visitor),
            None => Ok(()),
        }
    }
}

impl<'a, V: Visitor<'a>> Walk<'a, V> for TyText {
    ghost parts = { type_parts };

    fn walk(&'a self, visitor: &mut V) -> Result<(), AllocError> {
        visitor.ty(self)
    }
}

impl<'a, V: Visitor<'a>> Walk<'a, V> for TypeTexts {
    ghost parts = { flat_map type_parts };

    fn walk(&'a self, visitor: &mut V) -> Result<(), AllocError> {
        walk_all(self.as_slice(), visitor)
    }
}

impl<'a, V: Visitor<'a>> Walk<'a, V> for TypedLiteral {
    ghost parts = { literal_parts };

    fn walk(&'a self, visitor: &mut V) -> Result<(), AllocError> {
        visitor.ty(&self.ty)
    }
}
