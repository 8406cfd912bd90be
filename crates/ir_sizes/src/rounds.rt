//! Named types, measured in passes (LangRef, "Structure Type").
ghost use Rattle.std.specs.Prelude.{◌≡◌, ◌<◌, IfOk, IfSome, None, false, length, replicate, set};
ghost use Rattle.ir_ident.specs.NameMaps.{value_of};
ghost use Rattle.ir_ident.specs.declared.name.Name.{Name};
ghost use Rattle.ir_sizes.specs.Extents.{IsExtent};
ghost use Rattle.ir_sizes.specs.Measured.{AreExtents, IsTable, body_extent, extent_at, known_by, place_of};
ghost use Rattle.ir_sizes.specs.Passes.{IsPart, IsPass, known_or};
ghost use Rattle.ir_sizes.specs.Sized.{level_limit};

use crate::extent::Extent;
use crate::measured::{LEVEL_LIMIT, measured};
use crate::table::{Table, places_of};
use ir_syntax::{TyText, TypeDef, TypeTree};
use std::alloc::{AllocError, Global};

/// The extents of the named types that have a size.
///
/// A pass measures the definitions that have no extent yet, from what is known of the names in them. So where each
/// definition names earlier ones alone, the first pass finds all extents; every other pass goes backwards, for those that
/// name later ones. A type of at most 64 levels has names inside each other at most 64 deep, so that many passes find all.
pub fn table_of(alloc: Global, defs: &[TypeDef]) -> Result<Table<'_>, AllocError>
    ensures known { IfOk result (IsTable defs.now level_limit) }
    ensures measured { IfOk result (λ table. AreExtents table.extents.items) }
{
    let mut table = Table {
        places: places_of(alloc, defs)?,
        extents: no_extents(alloc, defs.len())?,
    };
    for round in 0..LEVEL_LIMIT {
        if !pass(&mut table, defs, round % 2 == 0) {
            return Ok(table);
        }
    }
    Ok(table)
}

/// So many extents that are not known.
fn no_extents(alloc: Global, count: usize) -> Result<Vec<Option<Extent>>, AllocError>
    ensures { IfOk result (λ extents. extents.items ≡ replicate count None) }
{
    let mut extents = Vec::with_capacity(alloc, count)?;
    for _ in 0..count {
        extents.push(None)?;
    }
    Ok(extents)
}

/// Measures each definition that has no extent yet, in their order or backwards, and says whether any got one.
fn pass<'a>(table: &mut Table<'a>, defs: &'a [TypeDef], is_forward: bool) -> bool
    requires places { (name : Name) → value_of table.old.places name ≡ place_of defs.now name }
    requires part { IsPart defs.now table.old.extents.items }
    requires measured { AreExtents table.old.extents.items }
    ensures places { table.new.places ≡ table.old.places }
    ensures part { IsPart defs.now table.new.extents.items }
    ensures pass { IsPass defs.now table.old.extents.items table.new.extents.items result }
    ensures measured { AreExtents table.new.extents.items }
{
    let count = defs.len();
    let mut found = false;
    for step in 0..count {
        let place = if is_forward { step } else { count - 1 - step };
        let is_new = measure(table, place, &defs[place].body);
        found = found | is_new;
    }
    found
}

/// Measures the definition at a place if it has no extent yet, and says whether it got one.
fn measure(table: &mut Table<'_>, place: usize, body: &TyText) -> bool
    requires inside { place < length table.old.extents.items }
    requires measured { AreExtents table.old.extents.items }
    ensures places { table.new.places ≡ table.old.places }
    ensures extents { table.new.extents.items ≡ set table.old.extents.items place
        (known_or (extent_at table.old.extents.items place) (body_extent (known_by table.old) body.now)) }
    ensures same { result ≡ false → table.new.extents.items ≡ table.old.extents.items }
    ensures measured { AreExtents table.new.extents.items }
{
    if table.extents[place].is_some() {
        return false;
    }
    let extent = body_extent(table, body);
    table.extents[place] = extent;
    extent.is_some()
}

/// The extent of what a name stands for, which is a struct.
fn body_extent(table: &Table<'_>, body: &TyText) -> Option<Extent>
    requires { AreExtents table.now.extents.items }
    ensures value { result ≡ body_extent (known_by table.now) body.now }
    ensures measured { IfSome result IsExtent }
{
    let tree = body.tree();
    match tree {
        TypeTree::Struct { .. } => measured(table, LEVEL_LIMIT, tree),
        TypeTree::Int { .. } | TypeTree::Ptr | TypeTree::Array { .. } | TypeTree::Named(_) => None,
    }
}
