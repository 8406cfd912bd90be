//! The extents of named types.
ghost use Rattle.std.specs.Prelude.{◌≡◌, IfSome, IfOk};
ghost use Rattle.ir_sizes.specs.Extents.{IsExtent};
ghost use Rattle.ir_sizes.specs.Measured.{AreExtents, known_by, place_of};
ghost use Rattle.ir_ident.specs.NameMaps.{value_of};
ghost use Rattle.ir_ident.specs.declared.name.Name.{Name};

use crate::extent::Extent;
use ir_ident::{Name, NameMap};
use ir_syntax::TypeDef;
use std::alloc::{AllocError, Global};

/// The extents of the definitions of types, each found by its name.
pub struct Table<'a> {
    /// The place of the first definition of a name.
    pub(crate) places: NameMap<'a, usize>,
    /// The extents by the places of the definitions; none of a type that has no size, as far as is known.
    pub(crate) extents: Vec<Option<Extent>>,
}

impl<'a> Drop for Table<'a> {
    fn drop(self) {
        let Table { places, extents } = self;
        drop(places);
        drop(extents);
    }
}

impl<'a> Table<'a> {
    /// The place of the first definition of a name, counted from 0.
    pub fn place(&self, name: &Name) -> Option<usize>
        ensures { result ≡ value_of self.now.places name.now }
    {
        self.places.get(name)
    }

    /// The extent of a named type.
    pub(crate) fn get(&self, name: &Name) -> Option<Extent>
        requires { AreExtents self.now.extents.items }
        ensures value { result ≡ known_by self.now name.now }
        ensures measured { IfSome result IsExtent }
    {
        let place = self.places.get(name)?;
        *self.extents.get(place)?
    }
}

/// The places of these definitions, counted from 0, by their names; where several define one name, of the first.
pub(crate) fn places_of<'a>(
    alloc: Global,
    defs: &'a [TypeDef],
) -> Result<NameMap<'a, usize>, AllocError>
    ensures { IfOk result (λ places. (name : Name) → value_of places name ≡ place_of defs.now name) }
{
    let mut places = NameMap::new(alloc);
    for (place, def) in defs.iter().enumerate() {
        places.add(&def.name, place)?;
    }
    Ok(places)
}
