//! Searches among the blocks of a memory, in as many steps as the number of blocks has bits; beyond these, only blocks
//! that are empty are passed one by one.
ghost use Rattle.std.specs.Prelude.{◌≡◌, ◌+◌, ◌<◌, ◌≤◌, ◌^◌, true, false, IfSome, IfNone, None, length, nat_lt, HoldsAt};
ghost use Rattle.std.specs.List.{list_any};
ghost use Rattle.std.specs.List.Sorted.{IsPartitionPoint};
ghost use Rattle.ir_mem.specs.Memory.{IsMemory, block_at, end_of, holds};
ghost use Rattle.ir_mem.specs.Placing.{meets};
ghost use Rattle.ir_mem.specs.Searching.{IsLastAt, IsLastFilled};

use crate::block::Block;

/// How many blocks begin at or before an address.
pub(crate) fn begun(blocks: &[Block], address: u64) -> usize
    requires { IsMemory blocks.now }
    ensures bound { result ≤ length blocks.now }
    ensures cut { IsPartitionPoint (λ block. block.base ≤ address) (λ block. address < block.base) blocks.now result }
{
    blocks.partition_point(|block| block.base <= address)
}

/// The last of the first blocks that is not empty.
fn last_filled(blocks: &[Block], count: usize) -> Option<usize>
    requires { count ≤ length blocks.now }
    ensures { IsLastFilled blocks.now count result }
{
    let mut left = count;
    while left > 0 {
        left -= 1;
        if blocks[left].bytes.len() > 0 {
            return Some(left);
        }
    }
    None
}

/// The block that holds a range, which is not empty.
pub(crate) fn holder(blocks: &[Block], at: u64, size: u64) -> Option<usize>
    requires memory { IsMemory blocks.now }
    requires some { 0 < size }
    ensures bound { IfSome result (λ place. place < length blocks.now) }
    ensures held { IfSome result (HoldsAt (λ block. holds at size block ≡ true) blocks.now) }
    ensures none { IfNone result (block_at blocks.now at size ≡ None) }
{
    let place = last_filled(blocks, begun(blocks, at))?;
    if is_held(&blocks[place], at, size) {
        Some(place)
    } else {
        None
    }
}

/// Whether a block holds a range.
fn is_held(block: &Block, at: u64, size: u64) -> bool
    ensures { result ≡ holds at size block.now }
{
    let count = block.bytes.len() as u64;
    block.base <= at && at - block.base <= count && size <= count - (at - block.base)
}

/// Whether a range, which does not wrap, has an address in common with a block.
pub(crate) fn meets_any(blocks: &[Block], at: u64, size: u64) -> bool
    requires memory { IsMemory blocks.now }
    requires whole { at + size ≤ 2 ^ 64 }
    ensures { result ≡ list_any (meets at size) blocks.now }
{
    if size == 0 {
        return false;
    }
    match last_filled(blocks, begun(blocks, at + (size - 1))) {
        Some(place) => ends_behind(&blocks[place], at),
        None => false,
    }
}

/// Whether a block ends behind an address.
fn ends_behind(block: &Block, address: u64) -> bool
    ensures { result ≡ nat_lt address (end_of block.now) }
{
    block.base > address || address - block.base < block.bytes.len() as u64
}

/// The last block that begins at an address.
pub(crate) fn last_at(blocks: &[Block], at: u64) -> Option<usize>
    requires { IsMemory blocks.now }
    ensures { IsLastAt blocks.now at result }
{
    let count = begun(blocks, at);
    if count > 0 && blocks[count - 1].base == at {
        Some(count - 1)
    } else {
        None
    }
}
