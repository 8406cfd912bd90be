//! The types that blocks write.
ghost use Rattle.std.specs.Prelude.{◌≡◌, ◌++◌, [], OnOk, Some, if◌then◌else◌};
ghost use Rattle.std.specs.List.{flat_map};
ghost use Rattle.ir_mentions.specs.Mentions.{body_by};
ghost use Rattle.ir_mentions.specs.PartTypes.{block_types};
ghost use Rattle.ir_cfg.specs.Reached.{reachable_blocks};

use crate::mention::Mentions;
use crate::which::Which;
use ir_cfg::{is_marked, reachable_marks};
use ir_syntax::Block;
use ir_walk::Walk;
use std::alloc::{AllocError, Global};

/// Adds the types that blocks of a function write, in order.
pub(crate) fn push_blocks<'a>(
    alloc: Global,
    mentions: &mut Mentions<'a>,
    which: Which,
    blocks: &'a [Block],
) -> Result<(), AllocError>
    ensures { OnOk result (mentions.new.types.items ≡ mentions.old.types.items ++ flat_map block_types (body_by which (Some blocks.now))) }
{
    match which {
        Which::Reachable => push_reachable_blocks(alloc, mentions, blocks),
        Which::Every => push_all_blocks(mentions, blocks),
    }
}

/// Adds the types that the blocks of a function write that some path reaches, in order.
fn push_reachable_blocks<'a>(
    alloc: Global,
    mentions: &mut Mentions<'a>,
    blocks: &'a [Block],
) -> Result<(), AllocError>
    ensures { OnOk result (mentions.new.types.items ≡ mentions.old.types.items ++ flat_map block_types (reachable_blocks blocks.now)) }
{
    let marks = reachable_marks(alloc, blocks)?;
    for (place, block) in blocks.iter().enumerate() {
        push_block_if(mentions, is_marked(marks.as_slice(), place), block)?;
    }
    Ok(())
}

/// Adds the types that these blocks write, in order.
fn push_all_blocks<'a>(mentions: &mut Mentions<'a>, blocks: &'a [Block]) -> Result<(), AllocError>
    ensures { OnOk result (mentions.new.types.items ≡ mentions.old.types.items ++ flat_map block_types blocks.now) }
{
    for block in blocks {
        block.walk(mentions)?;
    }
    Ok(())
}

fn push_block_if<'a>(
    mentions: &mut Mentions<'a>,
    kept: bool,
    block: &'a Block,
) -> Result<(), AllocError>
    ensures { OnOk result (mentions.new.types.items ≡ mentions.old.types.items ++ (if kept then block_types block.now else [])) }
{
    if kept {
        block.walk(mentions)?;
    }
    Ok(())
}
