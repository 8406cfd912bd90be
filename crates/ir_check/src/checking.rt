//! The checks of a module.
ghost use Rattle.std.specs.Prelude.{◌≡◌, IfOk, MatchOption};
ghost use Rattle.ir_ident.specs.Names.{name_bytes};
ghost use Rattle.ir_check.specs.Checks.{Checks, IsCheckRefusal, KeepsNames, KeepsRules, first_repeated};
ghost use Rattle.ir_naming.specs.Items.{named_items};

use crate::checked::Checked;
use crate::faults::{copied, first_alias_fault, first_flow_fault, first_type_fault, least_line};
use crate::limits::exceeded_limit;
use ir_naming::{ItemName, bytes_of, first_misnamed, item_names, repeated_lines};
use ir_syntax::{Module, Refusal};
use std::alloc::{AllocError, Global};

/// A module that keeps the rules, without the blocks that no path reaches; or the first rule that it breaks.
///
/// # Errors
///
/// [`Refusal::Repeated`], [`Refusal::Reserved`], [`Refusal::TypeRule`], [`Refusal::FlowRule`], [`Refusal::AliasRule`],
/// [`Refusal::Count`] and [`Refusal::NoMemory`].
pub fn check(alloc: Global, m: Module) -> Result<Checked, Refusal>
    ensures { Checks m result }
{
    match first_broken(alloc, &m) {
        Ok(None) => keep(alloc, m),
        Ok(Some(refusal)) => Err(refusal),
        Err(_) => Err(Refusal::NoMemory),
    }
}

/// What the checks make of a module that keeps the rules.
fn keep(alloc: Global, m: Module) -> Result<Checked, Refusal>
    requires { KeepsRules m }
    ensures { Checks m result }
{
    match Checked::new(alloc, m) {
        Ok(checked) => Ok(checked),
        Err(_) => Err(Refusal::NoMemory),
    }
}

/// The first rule that a module breaks.
fn first_broken(alloc: Global, m: &Module) -> Result<Option<Refusal>, AllocError>
    ensures { IfOk result (λ first. MatchOption first (KeepsRules m.now) (IsCheckRefusal m.now)) }
{
    if let Some(refusal) = first_broken_name(alloc, m)? {
        return Ok(Some(refusal));
    }
    if let Some(line) = first_type_fault(alloc, m)? {
        return Ok(Some(Refusal::TypeRule { line }));
    }
    if let Some(line) = first_flow_fault(alloc, m)? {
        return Ok(Some(Refusal::FlowRule { line }));
    }
    if let Some(name) = first_alias_fault(alloc, m)? {
        return Ok(Some(Refusal::AliasRule { name }));
    }
    match exceeded_limit(alloc, m)? {
        Some(which) => Ok(Some(Refusal::Count { which })),
        None => Ok(None),
    }
}

/// The first rule on names that a module breaks.
fn first_broken_name(alloc: Global, m: &Module) -> Result<Option<Refusal>, AllocError>
    ensures { IfOk result (λ first. MatchOption first (KeepsNames m.now) (IsCheckRefusal m.now)) }
{
    let items = item_names(alloc, m)?;
    if let Some(line) = first_repeated(alloc, m, items.as_slice())? {
        return Ok(Some(Refusal::Repeated { line }));
    }
    match first_misnamed(items.as_slice()) {
        Some(item) => Ok(Some(reserved(alloc, item)?)),
        None => Ok(None),
    }
}

/// The least line at which a name is defined again.
fn first_repeated(
    alloc: Global,
    m: &Module,
    items: &[ItemName<'_>],
) -> Result<Option<u32>, AllocError>
    requires { items.now ≡ named_items m.now }
    ensures { IfOk result (λ line. line ≡ first_repeated m.now) }
{
    let lines = repeated_lines(alloc, m, items)?;
    Ok(least_line(lines.as_slice()))
}

/// The refusal of an item for its name.
fn reserved(alloc: Global, item: &ItemName<'_>) -> Result<Refusal, AllocError>
    ensures { IfOk result (λ refusal. refusal ≡ Refusal.Reserved (name_bytes item.now.name)) }
{
    Ok(Refusal::Reserved {
        name: copied(alloc, bytes_of(item.name))?,
    })
}
