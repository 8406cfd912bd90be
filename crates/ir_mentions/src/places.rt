//! The places of the types that a module mentions.
ghost use Rattle.std.specs.Prelude.{◌≡◌, IfOk, List, if◌then◌else◌};
ghost use Rattle.std.specs.List.{list_any, sum_by};
ghost use Rattle.ir_cfg.specs.Capped.{capped};
ghost use Rattle.ir_syntax.specs.Definitions.{has_body};
ghost use Rattle.ir_sizes.specs.Measured.{AreExtents, IsTable};
ghost use Rattle.ir_mentions.specs.Mentions.{mentioned_places, places_by, type_places};
ghost use Rattle.ir_sizes.specs.Sized.{level_limit};
ghost use Rattle.ir_syntax.specs.declared.type_def.TypeDef.{TypeDef};

use crate::items::written_types;
use crate::mention::Mention;
use crate::which::Which;
use ir_sizes::{Table, extent_of, table_of};
use ir_syntax::{Function, Module};
use std::alloc::{AllocError, Global};

/// The places of all types that a module mentions, at most 2^64 - 1.
pub fn mentioned_places(alloc: Global, m: &Module) -> Result<u64, AllocError>
    ensures { IfOk result (λ places. places ≡ capped (mentioned_places m.now)) }
{
    places_by(alloc, m, Which::Reachable)
}

/// The places of all types that a module writes in such blocks and outside of them, and of those that functions need,
/// at most 2^64 - 1.
pub fn places_by(alloc: Global, m: &Module, which: Which) -> Result<u64, AllocError>
    ensures { IfOk result (λ places. places ≡ capped (places_by which m.now)) }
{
    let table = table_of(alloc, m.types.as_slice())?;
    let written = written_types(alloc, m, which)?;
    let needed = needed_places(m.functions.as_slice());
    Ok(needed.saturating_add(total_places(&table, written.as_slice())))
}

/// The places of the types that are there wherever a function is defined: of two integers and the pointer.
fn needed_places(functions: &[Function]) -> u64
    ensures { result ≡ if list_any has_body functions.now then 3 else 0 }
{
    if is_any_defined(functions) { 3 } else { 0 }
}

/// Whether any of these functions is defined.
pub fn is_any_defined(functions: &[Function]) -> bool
    ensures { result ≡ list_any has_body functions.now }
{
    functions.iter().any(|function| function.blocks.is_some())
}

fn total_places(table: &Table<'_>, types: &[Mention<'_>]) -> u64
    requires { AreExtents table.now.extents.items }
    ensures { (defs : List TypeDef) → IsTable defs level_limit table.now → result ≡ capped (sum_by (type_places defs) types.now) }
{
    let mut total = 0u64;
    for mention in types {
        total = total.saturating_add(type_places(table, mention));
    }
    total
}

fn type_places(table: &Table<'_>, mention: &Mention<'_>) -> u64
    requires { AreExtents table.now.extents.items }
    ensures { (defs : List TypeDef) → IsTable defs level_limit table.now → result ≡ type_places defs mention.now }
{
    match extent_of(table, mention.ty) {
        Some(extent) => u64::from(extent.places),
        None => 0,
    }
}
