//! Where each alias of a module leads, in tables by their places.
ghost use Rattle.std.specs.Prelude.{◌≡◌, ◌<◌, IfOk};
ghost use Rattle.ir_aliases.specs.Ends.{base_position};
ghost use Rattle.ir_aliases.specs.Tables.{FindsEnds, Leads, base_positions, composed, doubled, further_by, position_at};
ghost use Rattle.ir_ident.specs.NameMaps.{value_of};
ghost use Rattle.ir_ident.specs.declared.name.Name.{Name};
ghost use Rattle.ir_scope.specs.Globals.{global_item};
ghost use Rattle.ir_syntax.specs.declared.module.Module.{Module};

use crate::position::Position;
use crate::steps::{base_name, base_offset, item_position, moved, moved_by};
use ir_ident::NameMap;
use ir_scope::GlobalItem;
use ir_sizes::NamedTypes;
use ir_syntax::{AliasBase, Module};
use std::alloc::{AllocError, Global};

/// Where a chain stands that begins at the alias at a place.
fn position_at(table: &[Position], place: usize) -> Position
    ensures { result ≡ position_at table.now place }
{
    match table.get(place) {
        Some(position) => *position,
        None => Position::Ended(None),
    }
}

/// As far along a chain as the table leads.
pub(crate) fn further_by(table: &[Position], position: Position) -> Position
    ensures { result ≡ further_by table.now position }
{
    match position {
        Position::Ended(end) => Position::Ended(end),
        Position::At(place, offset) => moved(offset, position_at(table, place)),
    }
}

/// By the first table, and from there by the second one.
fn composed(
    alloc: Global,
    first: &[Position],
    second: &[Position],
) -> Result<Vec<Position>, AllocError>
    ensures { IfOk result (λ table. table.items ≡ composed first.now second.now) }
{
    let mut table = Vec::with_capacity(alloc, first.len())?;
    for position in first {
        table.push(further_by(second, *position))?;
    }
    Ok(table)
}

/// Twice as many steps as by a table, and one more if `is_odd`, where `bases` leads one step.
fn doubled(
    alloc: Global,
    bases: &[Position],
    half: &[Position],
    is_odd: bool,
) -> Result<Vec<Position>, AllocError>
    ensures { IfOk result (λ table. table.items ≡ doubled bases.now half.now is_odd) }
{
    let even = composed(alloc, half, half)?;
    if is_odd {
        return composed(alloc, even.as_slice(), bases);
    }
    Ok(even)
}

/// So many steps from each alias, where `bases` leads one step. There are at most two tables for each bit of `steps`, and
/// calls are no deeper than it has bits.
fn leading(alloc: Global, bases: &[Position], steps: usize) -> Result<Vec<Position>, AllocError>
    requires { 0 < steps }
    ensures { IfOk result (λ table. (m : Module) → Leads m 1 bases.now → Leads m steps table.items) }
{
    if steps == 1 {
        return bases.to_vec(alloc);
    }
    let half = leading(alloc, bases, steps / 2)?;
    doubled(alloc, bases, half.as_slice(), steps % 2 == 1)
}

/// From an alias to its base.
fn base_position(
    m: &Module,
    types: &NamedTypes<'_>,
    items: &NameMap<'_, GlobalItem>,
    base: &AliasBase,
) -> Position
    requires types { types.now ≡ m.now.types }
    requires items { (name : Name) → value_of items.now name ≡ global_item m.now name }
    ensures { result ≡ base_position m.now base.now }
{
    moved_by(
        base_offset(types, base),
        item_position(m, items.get(base_name(base))),
    )
}

/// One step from each alias.
fn base_positions(
    alloc: Global,
    m: &Module,
    types: &NamedTypes<'_>,
    items: &NameMap<'_, GlobalItem>,
) -> Result<Vec<Position>, AllocError>
    requires types { types.now ≡ m.now.types }
    requires items { (name : Name) → value_of items.now name ≡ global_item m.now name }
    ensures { IfOk result (λ table. table.items ≡ base_positions m.now) }
{
    let mut table = Vec::with_capacity(alloc, m.aliases.as_slice().len())?;
    for alias in m.aliases.as_slice() {
        table.push(base_position(m, types, items, &alias.base))?;
    }
    Ok(table)
}

/// A table by which the ends of chains are found.
pub(crate) fn ends_table(
    alloc: Global,
    m: &Module,
    items: &NameMap<'_, GlobalItem>,
) -> Result<Vec<Position>, AllocError>
    requires { (name : Name) → value_of items.now name ≡ global_item m.now name }
    ensures { IfOk result (λ table. FindsEnds m.now table.items) }
{
    let types = NamedTypes::new(alloc, m.types.as_slice())?;
    let bases = base_positions(alloc, m, &types, items)?;
    drop(types);
    if bases.is_empty() {
        return Ok(bases);
    }
    leading(alloc, bases.as_slice(), bases.len())
}
