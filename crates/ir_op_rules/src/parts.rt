//! The lines of the parts of a function that break a rule on types.
ghost use Rattle.std.specs.Prelude.{◌≡◌, ◌++◌, OnOk};
ghost use Rattle.std.specs.List.{flat_map};
ghost use Rattle.ir_ident.specs.NameMaps.{value_of};
ghost use Rattle.ir_op_rules.specs.OpLines.{block_lines, body_lines, instr_lines, phi_lines, term_lines};
ghost use Rattle.ir_sizes.specs.Sized.{layout_in};

use crate::control::{phi_fits, term_fits};
use crate::ops::instr_fits;
use crate::scope::Scope;
use crate::sizes::{are_sized, has_sizes};
use crate::switches::cases_differ;
use crate::written::WrittenTypes;
use ir_syntax::{Block, Blocks, Instr, Phi, Term, push_line_if};
use std::alloc::{AllocError, Global};

fn push_phi<'a>(
    scope: &Scope<'_>,
    written: &mut WrittenTypes<'a>,
    lines: &mut Vec<u32>,
    phi: &'a Phi,
) -> Result<(), AllocError>
    ensures { OnOk result (lines.new.items ≡ lines.old.items ++ phi_lines (value_of scope.now.locals.now) (layout_in scope.now.types.now) phi.now) }
{
    push_line_if(lines, !phi_fits(scope.locals, phi), phi.line)?;
    let sized = are_sized(scope.types, phi, written)?;
    push_line_if(lines, !sized, phi.line)
}

fn push_phis<'a>(
    scope: &Scope<'_>,
    written: &mut WrittenTypes<'a>,
    lines: &mut Vec<u32>,
    phis: &'a [Phi],
) -> Result<(), AllocError>
    ensures { OnOk result (lines.new.items ≡ lines.old.items ++ flat_map (phi_lines (value_of scope.now.locals.now) (layout_in scope.now.types.now)) phis.now) }
{
    for phi in phis {
        push_phi(scope, written, lines, phi)?;
    }
    Ok(())
}

fn push_instr<'a>(
    scope: &Scope<'_>,
    written: &mut WrittenTypes<'a>,
    lines: &mut Vec<u32>,
    instr: &'a Instr,
) -> Result<(), AllocError>
    ensures { OnOk result (lines.new.items ≡ lines.old.items ++ instr_lines (value_of scope.now.locals.now) (layout_in scope.now.types.now) instr.now) }
{
    push_line_if(lines, !instr_fits(scope.locals, instr), instr.line)?;
    let sized = has_sizes(scope.types, &instr.op, written)?;
    push_line_if(lines, !sized, instr.line)
}

fn push_instrs<'a>(
    scope: &Scope<'_>,
    written: &mut WrittenTypes<'a>,
    lines: &mut Vec<u32>,
    instrs: &'a [Instr],
) -> Result<(), AllocError>
    ensures { OnOk result (lines.new.items ≡ lines.old.items ++ flat_map (instr_lines (value_of scope.now.locals.now) (layout_in scope.now.types.now)) instrs.now) }
{
    for instr in instrs {
        push_instr(scope, written, lines, instr)?;
    }
    Ok(())
}

fn push_term<'a>(
    alloc: Global,
    scope: &Scope<'_>,
    written: &mut WrittenTypes<'a>,
    lines: &mut Vec<u32>,
    term: &'a Term,
) -> Result<(), AllocError>
    ensures { OnOk result (lines.new.items
        ≡ lines.old.items ++ term_lines (value_of scope.now.locals.now) (layout_in scope.now.types.now) scope.now.returned.now term.now) }
{
    let line = term.line();
    push_line_if(lines, !term_fits(scope.locals, scope.returned, term), line)?;
    let differ = cases_differ(alloc, term)?;
    push_line_if(lines, !differ, line)?;
    let sized = are_sized(scope.types, term, written)?;
    push_line_if(lines, !sized, line)
}

fn push_block<'a>(
    alloc: Global,
    scope: &Scope<'_>,
    written: &mut WrittenTypes<'a>,
    lines: &mut Vec<u32>,
    block: &'a Block,
) -> Result<(), AllocError>
    ensures { OnOk result (lines.new.items
        ≡ lines.old.items ++ block_lines (value_of scope.now.locals.now) (layout_in scope.now.types.now) scope.now.returned.now block.now) }
{
    push_phis(scope, written, lines, block.phis.as_slice())?;
    push_instrs(scope, written, lines, block.instrs.as_slice())?;
    push_term(alloc, scope, written, lines, &block.term)
}

fn push_blocks<'a>(
    alloc: Global,
    scope: &Scope<'_>,
    written: &mut WrittenTypes<'a>,
    lines: &mut Vec<u32>,
    blocks: &'a [Block],
) -> Result<(), AllocError>
    ensures { OnOk result (lines.new.items
        ≡ lines.old.items ++ flat_map (block_lines (value_of scope.now.locals.now) (layout_in scope.now.types.now) scope.now.returned.now) blocks.now) }
{
    for block in blocks {
        push_block(alloc, scope, written, lines, block)?;
    }
    Ok(())
}

/// Adds the lines, from 1, of the phis, instructions and terminators of a function that break a rule, in order.
///
/// # Errors
///
/// [`AllocError`].
pub(crate) fn push_body<'a>(
    alloc: Global,
    scope: &Scope<'_>,
    written: &mut WrittenTypes<'a>,
    lines: &mut Vec<u32>,
    blocks: &'a Option<Blocks>,
) -> Result<(), AllocError>
    ensures { OnOk result (lines.new.items
        ≡ lines.old.items ++ body_lines (value_of scope.now.locals.now) (layout_in scope.now.types.now) scope.now.returned.now blocks.now) }
{
    match blocks {
        Some(blocks) => push_blocks(alloc, scope, written, lines, blocks.as_slice()),
        None => Ok(()),
    }
}
