//! The entries of phis for blocks that are there (LangRef, "phi Instruction").
ghost use Rattle.std.specs.Prelude.{◌≡◌, IfOk, OnOk, filter, map, not};
ghost use Rattle.ir_ident.specs.NameMaps.{has_name};
ghost use Rattle.ir_ident.specs.declared.name.Name.{Name};
ghost use Rattle.ir_prune.specs.Pruned.{block_without, is_label, without_labels};

use ir_ident::NameSet;
use ir_syntax::{Block, Phi, PhiEntries, PhiEntry, Phis};
use std::alloc::{AllocError, Global};
use std::mem;

/// Drops the entries of phis that name a dropped block.
pub(crate) fn drop_entries(
    alloc: Global,
    dropped: &[Block],
    blocks: &mut [Block],
) -> Result<(), AllocError>
    ensures { OnOk result (blocks.new ≡ map (block_without (is_label dropped.now)) blocks.old) }
{
    let labels = labels_of(alloc, dropped)?;
    drop_from_blocks(alloc, &labels, blocks);
    Ok(())
}

/// The labels of blocks.
fn labels_of<'a>(alloc: Global, blocks: &'a [Block]) -> Result<NameSet<'a>, AllocError>
    ensures { IfOk result (λ labels. (name : Name) → has_name labels name ≡ is_label blocks.now name) }
{
    let mut labels = NameSet::new(alloc);
    for block in blocks {
        labels.insert(&block.label)?;
    }
    Ok(labels)
}

fn drop_from_blocks(alloc: Global, labels: &NameSet<'_>, blocks: &mut [Block])
    ensures { blocks.new ≡ map (block_without (has_name labels.now)) blocks.old }
{
    for block in blocks.iter_mut() {
        drop_from_block(alloc, labels, block);
    }
}

fn drop_from_block(alloc: Global, labels: &NameSet<'_>, block: &mut Block)
    ensures { block.new ≡ block_without (has_name labels.now) block.old }
{
    let phis = mem::replace(&mut block.phis, Phis::from_vec(Vec::new(alloc)));
    let mut phis = phis.into_vec();
    drop_from_phis(alloc, labels, phis.as_mut_slice());
    block.phis = Phis::from_vec(phis);
}

fn drop_from_phis(alloc: Global, labels: &NameSet<'_>, phis: &mut [Phi])
    ensures { phis.new ≡ map (without_labels (has_name labels.now)) phis.old }
{
    for phi in phis.iter_mut() {
        drop_from_phi(alloc, labels, phi);
    }
}

fn drop_from_phi(alloc: Global, labels: &NameSet<'_>, phi: &mut Phi)
    ensures { phi.new ≡ without_labels (has_name labels.now) phi.old }
{
    let entries = mem::replace(&mut phi.entries, PhiEntries::from_vec(Vec::new(alloc)));
    let mut entries = entries.into_vec();
    retain_others(labels, &mut entries);
    phi.entries = PhiEntries::from_vec(entries);
}

fn retain_others(labels: &NameSet<'_>, entries: &mut Vec<PhiEntry>)
    ensures { entries.new.items ≡ filter (λ e. not (has_name labels.now e.block.name)) entries.old.items }
{
    entries.retain(|entry| !labels.has(&entry.block.name));
}
