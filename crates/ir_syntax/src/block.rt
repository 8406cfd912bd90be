//! Basic blocks (LangRef, "Functions").
ghost use Rattle.std.specs.Prelude.{◌≡◌};

use crate::instr::Instrs;
use crate::phi::Phis;
use crate::term::Term;
use ir_ident::Name;
use std::marker::Model;

/// A basic block.
#[derive(Drop)]
pub struct Block {
    /// The line of the block's first token.
    pub line: u32,
    /// The block's label.
    pub label: Name,
    /// Its phis.
    pub phis: Phis,
    /// Its instructions between the phis and the terminator.
    pub instrs: Instrs,
    /// The block's terminator.
    pub term: Term,
}

/// The blocks of a function in the order of the text, the entry first. Contracts see a list.
#[derive(Drop)]
pub struct Blocks {
    blocks: Vec<Block>,
}

impl Model for Blocks {
    ghost use Rattle.std.specs.Prelude.{List};
    ghost use Rattle.std.specs.Coded.{coded_list};
    ghost use Rattle.ir_syntax.specs.declared.block.Block.{Block};
    ghost use Rattle.ir_syntax.specs.contracts.block.Block as block;

    ghost Value = { List Block };

    ghost coded = { coded_list block.the_row.coded };

    ghost view = { λ b. b.blocks.items };
}

impl Blocks {
    /// These blocks, in their order, with no room for more.
    pub fn from_vec(mut blocks: Vec<Block>) -> Blocks
        ensures { result ≡ blocks.items }
    {
        blocks.shrink_to_fit();
        Blocks { blocks }
    }

    /// The blocks in order.
    pub fn as_slice(&self) -> &[Block]
        ensures { result.now ≡ self.now }
    {
        self.blocks.as_slice()
    }

    /// The blocks in order, to be taken apart.
    pub fn into_vec(self) -> Vec<Block>
        ensures { result.items ≡ self }
    {
        self.blocks
    }
}
