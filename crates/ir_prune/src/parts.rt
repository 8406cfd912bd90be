//! The blocks of a function that some path from its first block reaches, apart from the others.
ghost use Rattle.std.specs.Prelude.{◌≡◌, ◌++◌, ◌∷◌, [], IfOk, OnOk, if◌then◌else◌};
ghost use Rattle.ir_cfg.specs.Reached.{marked};
ghost use Rattle.ir_prune.specs.Pruned.{unmarked};

use ir_syntax::Block;
use std::alloc::{AllocError, Global};

/// The blocks of a function, each kind in the order of the text.
#[derive(Drop)]
pub(crate) struct Parts {
    pub(crate) kept: Vec<Block>,
    pub(crate) dropped: Vec<Block>,
}

impl Parts {
    /// No blocks.
    fn new(alloc: Global) -> Parts
        ensures kept { result.kept.items ≡ [] }
        ensures dropped { result.dropped.items ≡ [] }
    {
        Parts {
            kept: Vec::new(alloc),
            dropped: Vec::new(alloc),
        }
    }

    /// Adds a block to those that are kept, or to the others.
    fn push(&mut self, is_kept: bool, block: Block) -> Result<(), AllocError>
        ensures kept { OnOk result (self.new.kept.items ≡ self.old.kept.items ++ (if is_kept then block ∷ [] else [])) }
        ensures dropped { OnOk result (self.new.dropped.items ≡ self.old.dropped.items ++ (if is_kept then [] else block ∷ [])) }
    {
        if is_kept {
            add(&mut self.kept, block)
        } else {
            add(&mut self.dropped, block)
        }
    }
}

/// Adds a block at the end.
fn add(blocks: &mut Vec<Block>, block: Block) -> Result<(), AllocError>
    ensures { OnOk result (blocks.new.items ≡ blocks.old.items ++ block ∷ []) }
{
    blocks.push(block)?;
    Ok(())
}

/// Blocks by their marks, of which there are no fewer.
pub(crate) fn parts_of(
    alloc: Global,
    marks: &[bool],
    blocks: Vec<Block>,
) -> Result<Parts, AllocError>
    ensures kept { IfOk result (λ parts. parts.kept.items ≡ marked marks.now blocks.items) }
    ensures dropped { IfOk result (λ parts. parts.dropped.items ≡ unmarked marks.now blocks.items) }
{
    let mut parts = Parts::new(alloc);
    let mut rest = blocks.into_iter();
    for is_kept in marks {
        if let Some(block) = rest.next() {
            parts.push(*is_kept, block)?;
        }
    }
    Ok(parts)
}
