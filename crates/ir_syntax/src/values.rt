//! How many values a function names.
ghost use Rattle.std.specs.Prelude.{◌≡◌, min};
ghost use Rattle.ir_syntax.specs.Values.{block_values, value_count};

use crate::block::Block;
use crate::function::Param;

/// How many values a function of these parameters and blocks may name: each parameter, phi and instruction counts, even
/// one that has no result. It tells how much room their names take. One of more than 2^64 - 1 counts as that many.
pub fn value_count(params: &[Param], blocks: &[Block]) -> usize
    ensures { result ≡ min (value_count params.now blocks.now) 18446744073709551615 }
{
    let mut count = params.len();
    for block in blocks {
        count = count.saturating_add(block_values(block));
    }
    count
}

fn block_values(block: &Block) -> usize
    ensures { result ≡ min (block_values block.now) 18446744073709551615 }
{
    let phis = block.phis.as_slice().len();
    phis.saturating_add(block.instrs.as_slice().len())
}
