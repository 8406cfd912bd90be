//! The lines of what breaks a rule on the edges between blocks.
ghost use Rattle.std.specs.Prelude.{◌≡◌, ◌++◌, IfOk, OnOk, Some};
ghost use Rattle.std.specs.List.{flat_map};
ghost use Rattle.ir_ident.specs.NameMaps.{value_of};
ghost use Rattle.ir_phis.specs.Rises.{Rises};
ghost use Rattle.ir_phis.specs.Wrong.{fits_edges, leads_to_entry, phi_lines, wrong_in_block, wrong_in_blocks, wrong_in_body, wrong_phis};
ghost use Rattle.ir_cfg.specs.Reached.{has_place, label_place};
ghost use Rattle.ir_syntax.specs.Terms.{term_line};

use crate::entries::{have_one_value, name_blocks};
use crate::predecessors::{predecessors, predecessors_at};
use ir_cfg::{label_places, successors_of};
use ir_ident::NameMap;
use ir_syntax::{Block, Blocks, Module, Phi, Term, push_line_if};
use std::alloc::{AllocError, Global};

/// Adds the lines, from 1, of what breaks a rule on the edges between blocks, in the order of the text: of a terminator,
/// in a block that some path reaches or not, that names the label of the first block (LangRef, "Functions"), and of a phi
/// whose entries are not one for each edge to its block, or differ in value for one block (LangRef, "phi Instruction").
///
/// # Errors
///
/// [`AllocError`].
pub fn push_phi_lines(alloc: Global, m: &Module, lines: &mut Vec<u32>) -> Result<(), AllocError>
    ensures { OnOk result (lines.new.items ≡ lines.old.items ++ phi_lines m.now) }
{
    for function in m.functions.as_slice() {
        push_in_body(alloc, &function.blocks, lines)?;
    }
    Ok(())
}

fn push_in_body(
    alloc: Global,
    blocks: &Option<Blocks>,
    lines: &mut Vec<u32>,
) -> Result<(), AllocError>
    ensures { OnOk result (lines.new.items ≡ lines.old.items ++ wrong_in_body blocks.now) }
{
    match blocks {
        Some(blocks) => push_in_defined(alloc, blocks.as_slice(), lines),
        None => Ok(()),
    }
}

fn push_in_defined(alloc: Global, blocks: &[Block], lines: &mut Vec<u32>) -> Result<(), AllocError>
    ensures { OnOk result (lines.new.items ≡ lines.old.items ++ wrong_in_blocks (label_place blocks.now) blocks.now) }
{
    let places = label_places(alloc, blocks)?;
    push_in_blocks(alloc, &places, blocks, lines)
}

fn push_in_blocks(
    alloc: Global,
    places: &NameMap<'_, usize>,
    blocks: &[Block],
    lines: &mut Vec<u32>,
) -> Result<(), AllocError>
    ensures { OnOk result (lines.new.items ≡ lines.old.items ++ wrong_in_blocks (value_of places.now) blocks.now) }
{
    let all = predecessors(alloc, places, blocks)?;
    for place in 0..blocks.len() {
        let from = predecessors_at(all.as_slice(), place);
        push_in_block(alloc, places, from, &blocks[place], lines)?;
    }
    Ok(())
}

fn push_in_block(
    alloc: Global,
    places: &NameMap<'_, usize>,
    predecessors: &[usize],
    block: &Block,
    lines: &mut Vec<u32>,
) -> Result<(), AllocError>
    requires { Rises 0 predecessors.now }
    ensures { OnOk result (lines.new.items ≡ lines.old.items ++ wrong_in_block (value_of places.now) predecessors.now (Some block.now)) }
{
    push_wrong_phis(alloc, places, predecessors, block.phis.as_slice(), lines)?;
    let wrong = leads_to_entry(alloc, places, &block.term)?;
    push_line_if(lines, wrong, block.term.line())
}

fn push_wrong_phis(
    alloc: Global,
    places: &NameMap<'_, usize>,
    predecessors: &[usize],
    phis: &[Phi],
    lines: &mut Vec<u32>,
) -> Result<(), AllocError>
    requires { Rises 0 predecessors.now }
    ensures { OnOk result (lines.new.items ≡ lines.old.items ++ wrong_phis (value_of places.now) predecessors.now phis.now) }
{
    for phi in phis {
        let fits = fits_edges(alloc, places, predecessors, phi)?;
        push_line_if(lines, !fits, phi.line)?;
    }
    Ok(())
}

/// Whether a phi has one entry for each of these predecessors, and one value for each block.
fn fits_edges(
    alloc: Global,
    places: &NameMap<'_, usize>,
    predecessors: &[usize],
    phi: &Phi,
) -> Result<bool, AllocError>
    requires { Rises 0 predecessors.now }
    ensures { IfOk result (λ fits. fits ≡ fits_edges (value_of places.now) predecessors.now phi.now) }
{
    let entries = phi.entries.as_slice();
    let named = name_blocks(alloc, places, entries, predecessors)?;
    let same = have_one_value(alloc, &phi.ty, entries)?;
    Ok(named & same)
}

/// Whether a terminator leads to the first block.
fn leads_to_entry(
    alloc: Global,
    places: &NameMap<'_, usize>,
    term: &Term,
) -> Result<bool, AllocError>
    ensures { IfOk result (λ leads. leads ≡ leads_to_entry (value_of places.now) term.now) }
{
    let successors = successors_of(alloc, places, term)?;
    Ok(has_first(successors.as_slice()))
}

/// Whether the first block is one of these.
fn has_first(places: &[usize]) -> bool
    ensures { result ≡ has_place places.now 0 }
{
    places.iter().any(|place| *place == 0)
}
