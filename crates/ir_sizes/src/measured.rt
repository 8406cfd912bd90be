//! The extents of types as the text writes them (LangRef, "Structure Type" and "Data Layout").
ghost use Rattle.std.specs.Prelude.{◌≡◌, ◌≤◌, ◌<◌, IfSome};
ghost use Rattle.ir_sizes.specs.Extents.{IsExtent, no_fields};
ghost use Rattle.ir_sizes.specs.Measured.{AreExtents, known_by, measured, measured_fields, within_levels};
ghost use Rattle.ir_sizes.specs.Sized.{level_limit};
ghost use Rattle.ir_syntax.specs.Types.{tree_of, trees_in};

use crate::extent::{Extent, NO_FIELDS, array_extent, field_extent, scalar_extent, struct_extent};
use crate::table::Table;
use ir_ident::Name;
use ir_syntax::{TypeTree, TypeTreeList};
use ty_core::{Layout, integer_layout};

/// The most levels that arrays and structs may stand inside each other.
pub(crate) const LEVEL_LIMIT: u32 = 64;

/// The extent of a type of at most so many levels, 64 or fewer; none if it has more, is too big, has too many places, or
/// has a part of a named type that the table has none for.
#[cycle(measured)]
pub(crate) fn measured(table: &Table<'_>, levels: u32, ty: &TypeTree) -> Option<Extent>
    requires known { AreExtents table.now.extents.items }
    requires few { levels ≤ level_limit }
    ensures value { result ≡ measured (known_by table.now) levels (tree_of ty.now) }
    ensures measured { IfSome result IsExtent }
    ensures flat { IfSome result (λ e. e.levels ≤ levels) }
{
    match ty {
        TypeTree::Int { bits } => Some(scalar_extent(integer_layout(*bits))),
        TypeTree::Ptr => Some(scalar_extent(Layout { size: 8, align: 8 })),
        TypeTree::Array { len, elem } => {
            let below = levels.checked_sub(1)?;
            let elem = measured(table, below, elem)?;
            array_extent(*len, elem)
        }
        TypeTree::Struct { packed, fields } => {
            let below = levels.checked_sub(1)?;
            let fields = measured_fields(table, below, *packed, fields)?;
            struct_extent(*packed, fields)
        }
        TypeTree::Named(place) => named_extent(table, levels, &place.name),
    }
}

/// The extent of a named type of at most so many levels.
fn named_extent(table: &Table<'_>, levels: u32, name: &Name) -> Option<Extent>
    requires known { AreExtents table.now.extents.items }
    ensures value { result ≡ within_levels levels (known_by table.now name.now) }
    ensures measured { IfSome result IsExtent }
    ensures flat { IfSome result (λ e. e.levels ≤ levels) }
{
    let extent = table.get(name)?;
    (extent.levels <= levels).then_some(extent)
}

/// The extent of the fields of a struct, of at most so many levels each.
#[cycle(measured)]
fn measured_fields(
    table: &Table<'_>,
    levels: u32,
    packed: bool,
    fields: &TypeTreeList,
) -> Option<Extent>
    requires known { AreExtents table.now.extents.items }
    requires few { levels < level_limit }
    ensures value { result ≡ measured_fields (known_by table.now) levels packed no_fields (trees_in fields.now) }
    ensures measured { IfSome result IsExtent }
    ensures flat { IfSome result (λ e. e.levels ≤ levels) }
{
    let mut extent = NO_FIELDS;
    let mut rest = fields;
    while let TypeTreeList::More(node) = rest {
        let field = measured(table, levels, &node.ty)?;
        extent = field_extent(packed, extent, field)?;
        rest = &node.tail;
    }
    Some(extent)
}
