//! The entries of a phi (LangRef, "phi Instruction").
ghost use Rattle.std.specs.Prelude.{◌≡◌, true, IfOk, slice_get};
ghost use Rattle.ir_cfg.specs.Reached.{label_successors};
ghost use Rattle.ir_ident.specs.NameMaps.{value_of};
ghost use Rattle.ir_ident.specs.declared.name.Name.{Name};
ghost use Rattle.ir_phis.specs.Entries.{entry_at, entry_places, first_entry, have_one_value, have_values_of, is_value_of, same_items};
ghost use Rattle.ir_phis.specs.Rises.{Rises};

use crate::values::same_value;
use ir_cfg::push_place;
use ir_ident::NameMap;
use ir_syntax::{PhiEntry, TyText};
use std::alloc::{AllocError, Global};

/// Whether entries name the same blocks as these predecessors, each as often.
pub(crate) fn name_blocks(
    alloc: Global,
    places: &NameMap<'_, usize>,
    entries: &[PhiEntry],
    predecessors: &[usize],
) -> Result<bool, AllocError>
    requires { Rises 0 predecessors.now }
    ensures { IfOk result (λ same. same ≡ same_items (entry_places (value_of places.now) entries.now) predecessors.now) }
{
    let mut named = entry_places(alloc, places, entries)?;
    named.sort()?;
    Ok(are_equal(named.as_slice(), predecessors))
}

fn are_equal(a: &[usize], b: &[usize]) -> bool
    ensures equal { result ≡ true → a.now ≡ b.now }
    ensures other { a.now ≡ b.now → result ≡ true }
{
    a == b
}

/// The places of the blocks that entries name, in order.
fn entry_places(
    alloc: Global,
    places: &NameMap<'_, usize>,
    entries: &[PhiEntry],
) -> Result<Vec<usize>, AllocError>
    ensures { IfOk result (λ found. found.items ≡ entry_places (value_of places.now) entries.now) }
{
    let mut found = Vec::new(alloc);
    for entry in entries {
        push_place(&mut found, places, &entry.block)?;
    }
    Ok(found)
}

/// Whether the entries of each block have one value, that of the first of them.
pub(crate) fn have_one_value(
    alloc: Global,
    ty: &TyText,
    entries: &[PhiEntry],
) -> Result<bool, AllocError>
    ensures { IfOk result (λ same. same ≡ have_one_value ty.now entries.now) }
{
    let first = first_entries(alloc, entries)?;
    Ok(have_values_of(&first, ty, entries))
}

/// The places of entries by the blocks that they name; where several name one, of the first.
fn first_entries<'a>(
    alloc: Global,
    entries: &'a [PhiEntry],
) -> Result<NameMap<'a, usize>, AllocError>
    ensures { IfOk result (λ first. (name : Name) → value_of first name ≡ first_entry entries.now name) }
{
    let mut first = NameMap::new(alloc);
    for (place, entry) in entries.iter().enumerate() {
        first.add(&entry.block.name, place)?;
    }
    Ok(first)
}

fn have_values_of(first: &NameMap<'_, usize>, ty: &TyText, entries: &[PhiEntry]) -> bool
    ensures { result ≡ have_values_of (value_of first.now) ty.now entries.now entries.now }
{
    for entry in entries {
        if !has_value_of(first, ty, entries, entry) {
            return false;
        }
    }
    true
}

/// Whether an entry has the value of the one that `first` tells for its block.
fn has_value_of(
    first: &NameMap<'_, usize>,
    ty: &TyText,
    entries: &[PhiEntry],
    entry: &PhiEntry,
) -> bool
    ensures { result ≡ is_value_of ty.now entry.now (entry_at entries.now (value_of first.now entry.now.block.name)) }
{
    match first.get(&entry.block.name) {
        Some(place) => is_value_at(ty, entry, entries, place),
        None => true,
    }
}

/// Whether an entry has the value of the one at a place.
fn is_value_at(ty: &TyText, entry: &PhiEntry, entries: &[PhiEntry], place: usize) -> bool
    ensures { result ≡ is_value_of ty.now entry.now (slice_get entries.now place) }
{
    match entries.get(place) {
        Some(other) => same_value(ty, &other.value, &entry.value),
        None => true,
    }
}
