//! A module without the blocks that nothing reaches.
ghost use Rattle.std.specs.Prelude.{◌≡◌, IfOk, OnOk, map};
ghost use Rattle.std.specs.List.{list_all};
ghost use Rattle.ir_prune.specs.Pruned.{pruned, pruned_blocks, pruned_body, pruned_function};

use crate::entries::drop_entries;
use crate::parts::{Parts, parts_of};
use ir_cfg::reachable_marks;
use ir_syntax::{Block, Blocks, Function, Functions, Module};
use std::alloc::{AllocError, Global};
use std::mem;

/// This module without the blocks that no path from the first block of their function reaches, and without the entries
/// of phis that name such a block (LangRef, "Functions"). All else is as it was, and in order.
///
/// # Errors
///
/// [`AllocError`].
pub fn prune(alloc: Global, mut m: Module) -> Result<Module, AllocError>
    ensures { IfOk result (λ n. n ≡ pruned m) }
{
    let functions = mem::replace(&mut m.functions, Functions::from_vec(Vec::new(alloc)));
    m.functions = prune_functions(alloc, functions)?;
    Ok(m)
}

fn prune_functions(alloc: Global, functions: Functions) -> Result<Functions, AllocError>
    ensures { IfOk result (λ new. new ≡ map pruned_function functions) }
{
    let mut all = functions.into_vec();
    prune_each(alloc, all.as_mut_slice())?;
    Ok(Functions::from_vec(all))
}

fn prune_each(alloc: Global, functions: &mut [Function]) -> Result<(), AllocError>
    ensures { OnOk result (functions.new ≡ map pruned_function functions.old) }
{
    for function in functions.iter_mut() {
        prune_body(alloc, &mut function.blocks)?;
    }
    Ok(())
}

fn prune_body(alloc: Global, blocks: &mut Option<Blocks>) -> Result<(), AllocError>
    ensures { OnOk result (blocks.new ≡ pruned_body blocks.old) }
{
    if let Some(body) = blocks.take() {
        *blocks = Some(prune_blocks(alloc, body)?);
    }
    Ok(())
}

#[tactic(auto, using(crate::proofs::WholeLemmas::same_if_all_reached))]
fn prune_blocks(alloc: Global, blocks: Blocks) -> Result<Blocks, AllocError>
    ensures { IfOk result (λ new. new ≡ pruned_blocks blocks) }
{
    let marks = reachable_marks(alloc, blocks.as_slice())?;
    if are_all_set(marks.as_slice()) {
        return Ok(blocks);
    }
    let Parts { mut kept, dropped } = parts_of(alloc, marks.as_slice(), blocks.into_vec())?;
    drop_entries(alloc, dropped.as_slice(), kept.as_mut_slice())?;
    Ok(Blocks::from_vec(kept))
}

fn are_all_set(marks: &[bool]) -> bool
    ensures { result ≡ list_all (λ mark. mark) marks.now }
{
    for mark in marks {
        if !*mark {
            return false;
        }
    }
    true
}
