//! Laws of memories.
ghost use Rattle.std.specs.Prelude.{◌≡◌, ℕ, List, [], length, IsTrue};
ghost use Rattle.ir_mem.specs.Memory.{IsMemory, stored};
ghost use Rattle.ir_mem.specs.Placing.{can_place, freed, placed, sealed};
ghost use Rattle.ir_mem.specs.declared.block.Block.{Block};

/// A block that is placed and then freed leaves the blocks that were there.
pub fn free_undoes_place()
    ensures { (block : Block) (blocks : List Block) → IsMemory blocks
        → freed block.base (placed block blocks) ≡ blocks }
{}

/// What is done to the blocks of a memory leaves those of a memory.
pub fn memories_stay()
    ensures begun { IsMemory [] }
    ensures placed { (block : Block) (blocks : List Block) (align : ℕ) → IsMemory blocks
        → IsTrue (can_place blocks block.base (length block.bytes) align) → IsMemory (placed block blocks) }
    ensures stored { (at : ℕ) (bytes : List ℕ) (blocks : List Block) → IsMemory blocks
        → IsMemory (stored at bytes blocks) }
    ensures sealed { (at : ℕ) (blocks : List Block) → IsMemory blocks → IsMemory (sealed at blocks) }
    ensures freed { (at : ℕ) (blocks : List Block) → IsMemory blocks → IsMemory (freed at blocks) }
{}

/// A free takes the same block before a store and behind it, and the other blocks have what was stored.
pub fn free_keeps_stores()
    ensures { (base at : ℕ) (bytes : List ℕ) (blocks : List Block)
        → freed base (stored at bytes blocks) ≡ stored at bytes (freed base blocks) }
{}
