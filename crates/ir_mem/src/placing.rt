//! Where a block can be placed.
ghost use Rattle.std.specs.Prelude.{◌≡◌, ◌<◌};
ghost use Rattle.ir_mem.specs.Memory.{IsMemory};
ghost use Rattle.ir_mem.specs.Placing.{can_place};

use crate::block::Block;
use crate::search::meets_any;

/// Whether a block of this size and alignment can have the address.
pub(crate) fn can_place(blocks: &[Block], at: u64, size: u64, align: u64) -> bool
    requires memory { IsMemory blocks.now }
    requires align { 0 < align }
    ensures { result ≡ can_place blocks.now at size align }
{
    if at == 0 || at % align != 0 {
        return false;
    }
    if size > 0 && size - 1 > u64::MAX - at {
        return false;
    }
    !meets_any(blocks, at, size)
}
