//! Blocks that tokens begin with (LangRef, "Functions").
ghost use Rattle.std.specs.Prelude.{◌≡◌, ◌++◌, false, IfErr, IfOk, List, Ok};
ghost use Rattle.ir_body.specs.Blocks.{blocks};
ghost use Rattle.ir_rules.specs.Reading.{Gives, IsLongestPrefix, StopsAt};
ghost use Rattle.ir_rules.specs.Rules.{begins};
ghost use Rattle.ir_syntax.specs.declared.block.Block.{Block};
ghost use Rattle.ir_words.specs.Lexemes.{Lexeme};

use crate::blocks::read_block_text;
use ir_rules::End;
use ir_syntax::Block;
use ir_words::Cursor;
use std::alloc::Global;

/// Reads a basic block, the first one of a function or another, as far as its text goes (LangRef,
/// "Functions").
///
/// # Errors
///
/// `NoMemory` where memory runs out, else `Bad` at the first token at which no block goes on.
pub fn read_block<'t>(
    alloc: Global,
    rest: Cursor<'t>,
    first: bool,
) -> Result<(Block, Cursor<'t>), End>
    ensures ok { IfOk result (λ x. IsLongestPrefix (blocks first) rest.entry x.0 x.1) }
    ensures bad { IfErr result (λ end. StopsAt (blocks first) rest.entry end) }
    ensures only { (us : List Lexeme) (vs : List Lexeme) (x : Block) → rest.entry ≡ us ++ vs → (blocks first).text us x → begins (blocks first).flast vs ≡ false → Gives (λ x. x) result (Ok (x, vs)) }
    ensures read { Gives (λ x. x) result ((blocks first).read rest.entry) }
{
    read_block_text(alloc, rest, first)
}
