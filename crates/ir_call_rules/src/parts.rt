//! The lines of the instructions of a function that break a rule on calls.
ghost use Rattle.std.specs.Prelude.{◌≡◌, ◌++◌, OnOk};
ghost use Rattle.std.specs.List.{flat_map};
ghost use Rattle.ir_call_rules.specs.CallLines.{block_lines, body_lines, instr_lines};
ghost use Rattle.ir_call_rules.specs.Ops.{callee_of};
ghost use Rattle.ir_ident.specs.NameMaps.{value_of};

use crate::ops::instr_fits;
use crate::scope::Scope;
use ir_syntax::{Block, Blocks, Instr, push_line_if};
use std::alloc::AllocError;

fn push_instrs(scope: &Scope<'_>, lines: &mut Vec<u32>, instrs: &[Instr]) -> Result<(), AllocError>
    ensures { OnOk result (lines.new.items ≡ lines.old.items
        ++ flat_map (instr_lines (value_of scope.now.locals.now) (callee_of scope.now.ends.now)) instrs.now) }
{
    for instr in instrs {
        push_line_if(lines, !instr_fits(scope, instr), instr.line)?;
    }
    Ok(())
}

fn push_blocks(scope: &Scope<'_>, lines: &mut Vec<u32>, blocks: &[Block]) -> Result<(), AllocError>
    ensures { OnOk result (lines.new.items ≡ lines.old.items
        ++ flat_map (block_lines (value_of scope.now.locals.now) (callee_of scope.now.ends.now)) blocks.now) }
{
    for block in blocks {
        push_instrs(scope, lines, block.instrs.as_slice())?;
    }
    Ok(())
}

/// Adds the lines, from 1, of the instructions of a function that break a rule, in order.
///
/// # Errors
///
/// [`AllocError`].
pub(crate) fn push_body(
    scope: &Scope<'_>,
    lines: &mut Vec<u32>,
    blocks: &Option<Blocks>,
) -> Result<(), AllocError>
    ensures { OnOk result (lines.new.items ≡ lines.old.items
        ++ body_lines (value_of scope.now.locals.now) (callee_of scope.now.ends.now) blocks.now) }
{
    match blocks {
        Some(blocks) => push_blocks(scope, lines, blocks.as_slice()),
        None => Ok(()),
    }
}
