//! How many instructions, phis and terminators functions have in the blocks that some path reaches.
ghost use Rattle.std.specs.Prelude.{◌≡◌, IfOk, List, if◌then◌else◌, map, nat_lt};
ghost use Rattle.std.specs.List.{list_any, sum, sum_by};
ghost use Rattle.ir_cfg.specs.Capped.{capped};
ghost use Rattle.ir_cfg.specs.Sizes.{block_size, function_size, whole_size};
ghost use Rattle.ir_cfg.specs.Reached.{reachable_blocks};

use crate::reached::{is_marked, reachable_marks};
use ir_syntax::{Block, Function};
use std::alloc::{AllocError, Global};

/// The sizes of functions, in order. One of more than 2^64 - 1 counts as that many.
pub fn function_sizes(alloc: Global, functions: &[Function]) -> Result<Vec<usize>, AllocError>
    ensures { IfOk result (λ sizes. sizes.items ≡ map (λ f. capped (function_size f)) functions.now) }
{
    let mut sizes = Vec::with_capacity(alloc, functions.len())?;
    for function in functions {
        sizes.push(function_size(alloc, function)?)?;
    }
    Ok(sizes)
}

fn function_size(alloc: Global, function: &Function) -> Result<usize, AllocError>
    ensures { IfOk result (λ size. size ≡ capped (function_size function.now)) }
{
    match &function.blocks {
        Some(blocks) => body_size(alloc, blocks.as_slice()),
        None => Ok(0),
    }
}

fn body_size(alloc: Global, blocks: &[Block]) -> Result<usize, AllocError>
    ensures { IfOk result (λ size. size ≡ capped (sum_by block_size (reachable_blocks blocks.now))) }
{
    let marks = reachable_marks(alloc, blocks)?;
    let mut size = 0usize;
    for (place, block) in blocks.iter().enumerate() {
        size = size.saturating_add(size_if(is_marked(marks.as_slice(), place), block));
    }
    Ok(size)
}

fn size_if(kept: bool, block: &Block) -> usize
    ensures { result ≡ capped (if kept then block_size block.now else 0) }
{
    if kept { block_size(block) } else { 0 }
}

fn block_size(block: &Block) -> usize
    ensures { result ≡ capped (block_size block.now) }
{
    let phis = block.phis.as_slice().len();
    let instrs = block.instrs.as_slice().len();
    phis.saturating_add(instrs).saturating_add(1)
}

/// How many instructions, phis and terminators a function has in all its blocks, also those that no path reaches. One of
/// more than 2^64 - 1 counts as that many.
pub fn whole_size(function: &Function) -> usize
    ensures { result ≡ capped (whole_size function.now) }
{
    match &function.blocks {
        Some(blocks) => blocks_size(blocks.as_slice()),
        None => 0,
    }
}

fn blocks_size(blocks: &[Block]) -> usize
    ensures { result ≡ capped (sum_by block_size blocks.now) }
{
    let mut size = 0usize;
    for block in blocks {
        size = size.saturating_add(block_size(block));
    }
    size
}

/// The sum of sizes, at most 2^64 - 1.
pub fn total_size(sizes: &[usize]) -> usize
    ensures { result ≡ capped (sum sizes.now) }
{
    let mut total = 0usize;
    for size in sizes {
        total = total.saturating_add(*size);
    }
    total
}
