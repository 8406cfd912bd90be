//! What is measured of a type that has a size (LangRef, "Data Layout").
ghost use Rattle.std.specs.Prelude.{◌≡◌, ◌≤◌, ◌<◌, IfSome};
ghost use Rattle.ir_sizes.specs.Extents.{IsExtent, array_extent, field_extent, limited, scalar_extent, struct_extent};
ghost use Rattle.ir_sizes.specs.Sized.{level_limit};
ghost use Rattle.ty_core.specs.Size.{IsAlign, size_limit};

use ty_core::{Layout, array_layout, end_behind, layout_behind};

/// The most places that a type may have.
const PLACE_LIMIT: u32 = 65_536;

/// The extent of a type, or of the fields of a struct up to one of them.
#[derive(Clone, Copy, PartialEq, Eq)]
pub struct Extent {
    /// The size and the alignment in bytes; of fields, where the last one ends and their greatest alignment.
    pub layout: Layout,
    /// The number of places, at most 65,536.
    pub places: u32,
    /// How many levels arrays and structs stand inside each other, at most 64.
    pub levels: u32,
}

/// The extent of no fields.
pub(crate) const NO_FIELDS: Extent = Extent {
    layout: Layout { size: 0, align: 1 },
    places: 0,
    levels: 0,
};

/// An extent itself, unless it has too many places.
fn within_places(extent: Extent) -> Option<Extent>
    requires small { extent.layout.size ≤ size_limit }
    ensures { result ≡ limited extent }
{
    (extent.places <= PLACE_LIMIT).then_some(extent)
}

/// The extent of an integer or a pointer.
pub(crate) fn scalar_extent(layout: Layout) -> Extent
    ensures { result ≡ scalar_extent layout }
{
    Extent {
        layout,
        places: 1,
        levels: 0,
    }
}

/// The extent of an array of `len` elements.
pub(crate) fn array_extent(len: u32, elem: Extent) -> Option<Extent>
    requires measured { IsExtent elem }
    requires flat { elem.levels < level_limit }
    ensures value { result ≡ array_extent len elem }
    ensures measured { IfSome result IsExtent }
{
    let layout = array_layout(len, elem.layout).ok()?;
    within_places(Extent {
        layout,
        places: 1 + elem.places,
        levels: 1 + elem.levels,
    })
}

/// The extent of the fields up to one of the extent `field`, from that of the fields before it.
pub(crate) fn field_extent(packed: bool, before: Extent, field: Extent) -> Option<Extent>
    requires before_measured { IsExtent before }
    requires field_measured { IsExtent field }
    ensures value { result ≡ field_extent packed before field }
    ensures measured { IfSome result IsExtent }
{
    let end = end_behind(packed, before.layout.size, field.layout).ok()?;
    within_places(Extent {
        layout: Layout {
            size: end,
            align: before.layout.align.max(field.layout.align),
        },
        places: before.places + (1 + field.places),
        levels: before.levels.max(field.levels),
    })
}

/// The extent of a struct of these fields.
pub(crate) fn struct_extent(packed: bool, fields: Extent) -> Option<Extent>
    requires measured { IsExtent fields }
    requires flat { fields.levels < level_limit }
    ensures value { result ≡ struct_extent packed fields }
    ensures measured { IfSome result IsExtent }
{
    let layout = layout_behind(packed, fields.layout.size, fields.layout.align).ok()?;
    within_places(Extent {
        layout,
        places: 1 + fields.places,
        levels: 1 + fields.levels,
    })
}
