//! The numbers of the unnamed items of a module.
ghost use Rattle.std.specs.Prelude.{◌≡◌, ◌+◌, List, ℕ, IfOk, OnOk, if◌then◌else◌};
ghost use Rattle.std.specs.List.{flat_map};
ghost use Rattle.ir_numbers.specs.Unnamed.{is_number, unnamed_in};
ghost use Rattle.ir_entities.specs.Items.{block_sites, instr_sites, param_sites, phi_sites, result_sites};
ghost use Rattle.ir_numbers.specs.Numbered.{each_numbered, numbered, numbered_block, numbered_blocks, numbered_entities, numbered_entity, numbered_function, numbered_instr, numbered_param, numbered_phi, numbered_result};
ghost use Rattle.ir_entities.specs.Sites.{Site};

use ir_entities::{Entities, Entity};
use ir_ident::{ItemNumber, Name};
use ir_syntax::{Block, Blocks, Function, Instr, Instrs, Param, Params, Phi, Phis};
use std::alloc::{AllocError, Global};
use std::mem;

/// A part of a function whose unnamed items are counted.
trait Counted: Sized {
    /// Where its items are defined.
    ghost sites: { Self → List Site };

    /// The part behind so many unnamed items, each of its own with a number.
    ghost numbered: { ℕ → Self → Self };

    /// Gives each item that has no name its number, and counts the unnamed ones.
    fn number(&mut self, alloc: Global, count: &mut u32) -> Result<(), AllocError>
        ensures part { OnOk result (self.new ≡ numbered count.old self.old) }
        ensures count { OnOk result (count.new ≡ count.old + unnamed_in (sites self.old)) };
}

/// These items of a module, each with its place among them, and with a number for each item of a function that has no
/// name.
///
/// # Errors
///
/// [`AllocError`], where there are 2^32 items or more, too.
pub fn number_entities(alloc: Global, entities: Entities) -> Result<Entities, AllocError>
    ensures { IfOk result (λ new. new ≡ numbered_entities entities) }
{
    let mut all = entities.into_vec();
    number_each_entity(alloc, all.as_mut_slice())?;
    Ok(Entities::from_vec(all))
}

fn number_each_entity(alloc: Global, entities: &mut [Entity]) -> Result<(), AllocError>
    ensures { OnOk result (entities.new ≡ numbered_entities entities.old) }
{
    let mut place = 0;
    for entity in entities.iter_mut() {
        number_entity(alloc, place, entity)?;
        place = one_more(place)?;
    }
    Ok(())
}

fn number_entity(alloc: Global, place: u32, entity: &mut Entity) -> Result<(), AllocError>
    ensures { OnOk result (entity.new ≡ numbered_entity place entity.old) }
{
    match entity {
        Entity::Type(ty) => ty.place = place,
        Entity::Global(global) => global.place = place,
        Entity::Function(function) => number_function(alloc, place, function)?,
        Entity::Alias(alias) => alias.place = place,
    }
    Ok(())
}

/// Gives a function its place, and each item of it that has no name its number.
fn number_function(alloc: Global, place: u32, function: &mut Function) -> Result<(), AllocError>
    ensures { OnOk result (function.new ≡ numbered_function place function.old) }
{
    function.place = place;
    let mut count = 0;
    let params = mem::replace(&mut function.params, Params::from_vec(Vec::new(alloc)));
    let params = number_all(alloc, &mut count, params.into_vec())?;
    function.params = Params::from_vec(params);
    number_body(alloc, count, &mut function.blocks)
}

fn number_body(alloc: Global, mut count: u32, blocks: &mut Option<Blocks>) -> Result<(), AllocError>
    ensures { OnOk result (blocks.new ≡ numbered_blocks count blocks.old) }
{
    if let Some(body) = blocks.take() {
        let body = number_all(alloc, &mut count, body.into_vec())?;
        *blocks = Some(Blocks::from_vec(body));
    }
    Ok(())
}

/// Parts in their order, each with its numbers behind those before it.
fn number_all<T: Counted + Drop>(
    alloc: Global,
    count: &mut u32,
    mut parts: Vec<T>,
) -> Result<Vec<T>, AllocError>
    ensures parts { IfOk result (λ new. new.items ≡ each_numbered T.numbered T.sites count.old parts.items) }
    ensures count { OnOk result (count.new ≡ count.old + unnamed_in (flat_map T.sites parts.items)) }
{
    number_each(alloc, count, parts.as_mut_slice())?;
    Ok(parts)
}

/// Numbers parts in their order, each behind those before it.
fn number_each<T: Counted>(
    alloc: Global,
    count: &mut u32,
    parts: &mut [T],
) -> Result<(), AllocError>
    ensures parts { OnOk result (parts.new ≡ each_numbered T.numbered T.sites count.old parts.old) }
    ensures count { OnOk result (count.new ≡ count.old + unnamed_in (flat_map T.sites parts.old)) }
{
    for part in parts.iter_mut() {
        part.number(alloc, count)?;
    }
    Ok(())
}

impl Counted for Param {
    ghost sites = { param_sites };

    ghost numbered = { numbered_param };

    #[tactic(auto, using(crate::proofs::Counts::one_value))]
    fn number(&mut self, _alloc: Global, count: &mut u32) -> Result<(), AllocError> {
        number(count, &mut self.name)
    }
}

impl Counted for Block {
    ghost sites = { block_sites };

    ghost numbered = { numbered_block };

    #[tactic(auto, using(crate::proofs::Counts::one_label, crate::proofs::Counts::unnamed_append))]
    fn number(&mut self, alloc: Global, count: &mut u32) -> Result<(), AllocError> {
        number(count, &mut self.label)?;
        let phis = mem::replace(&mut self.phis, Phis::from_vec(Vec::new(alloc)));
        let phis = number_all(alloc, count, phis.into_vec())?;
        self.phis = Phis::from_vec(phis);
        let instrs = mem::replace(&mut self.instrs, Instrs::from_vec(Vec::new(alloc)));
        let instrs = number_all(alloc, count, instrs.into_vec())?;
        self.instrs = Instrs::from_vec(instrs);
        Ok(())
    }
}

impl Counted for Phi {
    ghost sites = { phi_sites };

    ghost numbered = { numbered_phi };

    #[tactic(auto, using(crate::proofs::Counts::one_value))]
    fn number(&mut self, _alloc: Global, count: &mut u32) -> Result<(), AllocError> {
        number(count, &mut self.result)
    }
}

impl Counted for Instr {
    ghost sites = { instr_sites };

    ghost numbered = { numbered_instr };

    fn number(&mut self, _alloc: Global, count: &mut u32) -> Result<(), AllocError> {
        number_result(count, self.line, &mut self.result)
    }
}

#[tactic(auto, using(crate::proofs::Counts::one_value))]
fn number_result(count: &mut u32, line: u32, name: &mut Option<Name>) -> Result<(), AllocError>
    ensures name { OnOk result (name.new ≡ numbered_result count.old name.old) }
    ensures count { OnOk result (count.new ≡ count.old + unnamed_in (result_sites line name.old)) }
{
    match name {
        Some(name) => number(count, name),
        None => Ok(()),
    }
}

/// Numbers the name of an item behind this many unnamed ones, which it is counted among.
fn number(count: &mut u32, name: &mut Name) -> Result<(), AllocError>
    ensures name { OnOk result (name.new ≡ numbered count.old name.old) }
    ensures count { OnOk result (count.new ≡ count.old + (if is_number name.old then 1 else 0)) }
{
    let before = *count;
    match name {
        Name::Named(_) => return Ok(()),
        Name::Unnamed(_) => {}
        Name::Implicit => *name = Name::Unnamed(ItemNumber::from_u64(u64::from(before))),
    }
    *count = one_more(before)?;
    Ok(())
}

/// One more; where there are too many items to count them, there is no memory for them.
fn one_more(count: u32) -> Result<u32, AllocError>
    ensures { IfOk result (λ more. more ≡ count + 1) }
{
    match count.checked_add(1) {
        Some(more) => Ok(more),
        None => Err(AllocError),
    }
}
