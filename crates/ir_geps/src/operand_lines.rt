//! The lines of what breaks a rule on operations and operands.
ghost use Rattle.std.specs.Prelude.{◌≡◌, ◌++◌, Bool, IfOk, OnOk};
ghost use Rattle.std.specs.List.{flat_map, list_any};
ghost use Rattle.ir_geps.specs.OperandLines.{any_breaks, block_lines, body_lines, function_lines, global_lines, instr_lines, operand_lines, phi_lines, term_lines};
ghost use Rattle.ir_syntax.specs.declared.instr.Op.{Op};
ghost use Rattle.ir_syntax.specs.declared.operand.Operand.{Operand};
ghost use Rattle.ir_syntax.specs.Terms.{term_line};

use crate::operands::{Site, Sites, sites_in_init};
use ir_syntax::{
    Block, Blocks, Function, Global as GlobalVariable, Instr, Module, Op, Operand, Phi, Term,
    push_line_if,
};
use ir_walk::Walk;
use std::alloc::{AllocError, Global};

/// A rule that an operation breaks, or an operand.
pub trait OperandRule {
    /// Whether an operation breaks it, apart from its operands.
    ghost op_breaks: { Self → Op → Bool };

    /// Whether an operand breaks it.
    ghost breaks: { Self → Operand → Bool };

    /// Whether an operation breaks it, apart from its operands.
    fn op_breaks(&self, op: &Op) -> bool
        ensures { result ≡ op_breaks self.now op.now };

    /// Whether an operand breaks it.
    fn breaks(&self, operand: &Operand) -> bool
        ensures { result ≡ breaks self.now operand.now };
}

/// Adds the lines of the globals, instructions, phis and terminators that break a rule.
///
/// # Errors
///
/// [`AllocError`].
pub fn push_operand_lines<R: OperandRule>(
    alloc: Global,
    rule: &R,
    m: &Module,
    lines: &mut Vec<u32>,
) -> Result<(), AllocError>
    ensures { OnOk result (lines.new.items ≡ lines.old.items ++ operand_lines (R.op_breaks rule.now) (R.breaks rule.now) m.now) }
{
    push_globals(alloc, rule, m.globals.as_slice(), lines)?;
    let mut sites = Sites::new(alloc);
    push_functions(rule, m.functions.as_slice(), &mut sites, lines)
}

fn push_globals<R: OperandRule>(
    alloc: Global,
    rule: &R,
    globals: &[GlobalVariable],
    lines: &mut Vec<u32>,
) -> Result<(), AllocError>
    ensures { OnOk result (lines.new.items ≡ lines.old.items ++ flat_map (global_lines (R.breaks rule.now)) globals.now) }
{
    for global in globals {
        push_global(alloc, rule, global, lines)?;
    }
    Ok(())
}

fn push_global<R: OperandRule>(
    alloc: Global,
    rule: &R,
    global: &GlobalVariable,
    lines: &mut Vec<u32>,
) -> Result<(), AllocError>
    ensures { OnOk result (lines.new.items ≡ lines.old.items ++ global_lines (R.breaks rule.now) global.now) }
{
    let sites = sites_in_init(alloc, &global.init)?;
    let fault = is_any_broken(rule, sites.sites.as_slice());
    drop(sites);
    push_line_if(lines, fault, global.line)
}

fn push_functions<'a, R: OperandRule>(
    rule: &R,
    functions: &'a [Function],
    sites: &mut Sites<'a>,
    lines: &mut Vec<u32>,
) -> Result<(), AllocError>
    ensures { OnOk result (lines.new.items ≡ lines.old.items ++ flat_map (function_lines (R.op_breaks rule.now) (R.breaks rule.now)) functions.now) }
{
    for function in functions {
        push_body(rule, &function.blocks, sites, lines)?;
    }
    Ok(())
}

fn push_body<'a, R: OperandRule>(
    rule: &R,
    blocks: &'a Option<Blocks>,
    sites: &mut Sites<'a>,
    lines: &mut Vec<u32>,
) -> Result<(), AllocError>
    ensures { OnOk result (lines.new.items ≡ lines.old.items ++ body_lines (R.op_breaks rule.now) (R.breaks rule.now) blocks.now) }
{
    match blocks {
        Some(blocks) => push_blocks(rule, blocks.as_slice(), sites, lines),
        None => Ok(()),
    }
}

fn push_blocks<'a, R: OperandRule>(
    rule: &R,
    blocks: &'a [Block],
    sites: &mut Sites<'a>,
    lines: &mut Vec<u32>,
) -> Result<(), AllocError>
    ensures { OnOk result (lines.new.items ≡ lines.old.items ++ flat_map (block_lines (R.op_breaks rule.now) (R.breaks rule.now)) blocks.now) }
{
    for block in blocks {
        push_block(rule, block, sites, lines)?;
    }
    Ok(())
}

fn push_block<'a, R: OperandRule>(
    rule: &R,
    block: &'a Block,
    sites: &mut Sites<'a>,
    lines: &mut Vec<u32>,
) -> Result<(), AllocError>
    ensures { OnOk result (lines.new.items ≡ lines.old.items ++ block_lines (R.op_breaks rule.now) (R.breaks rule.now) block.now) }
{
    push_phis(rule, block.phis.as_slice(), sites, lines)?;
    push_instrs(rule, block.instrs.as_slice(), sites, lines)?;
    let fault = is_broken_in(rule, &block.term, sites)?;
    push_line_if(lines, fault, block.term.line())
}

fn push_phis<'a, R: OperandRule>(
    rule: &R,
    phis: &'a [Phi],
    sites: &mut Sites<'a>,
    lines: &mut Vec<u32>,
) -> Result<(), AllocError>
    ensures { OnOk result (lines.new.items ≡ lines.old.items ++ flat_map (phi_lines (R.breaks rule.now)) phis.now) }
{
    for phi in phis {
        let fault = is_broken_in(rule, phi, sites)?;
        push_line_if(lines, fault, phi.line)?;
    }
    Ok(())
}

fn push_instrs<'a, R: OperandRule>(
    rule: &R,
    instrs: &'a [Instr],
    sites: &mut Sites<'a>,
    lines: &mut Vec<u32>,
) -> Result<(), AllocError>
    ensures { OnOk result (lines.new.items ≡ lines.old.items ++ flat_map (instr_lines (R.op_breaks rule.now) (R.breaks rule.now)) instrs.now) }
{
    for instr in instrs {
        let fault = is_broken_in(rule, instr, sites)?;
        push_line_if(lines, rule.op_breaks(&instr.op) | fault, instr.line)?;
    }
    Ok(())
}

/// Whether one of the operands of this breaks the rule. What `sites` has before does not matter: its memory is used.
fn is_broken_in<'a, R: OperandRule, T: Walk<'a, Sites<'a>>>(
    rule: &R,
    item: &'a T,
    sites: &mut Sites<'a>,
) -> Result<bool, AllocError>
    ensures { IfOk result (λ broken. broken ≡ any_breaks (R.breaks rule.now) (T.parts item.now)) }
{
    sites.clear();
    item.walk(sites)?;
    Ok(is_any_broken(rule, sites.sites.as_slice()))
}

fn is_any_broken<R: OperandRule>(rule: &R, sites: &[Site<'_>]) -> bool
    ensures { result ≡ list_any (R.breaks rule.now) sites.now }
{
    let mut broken = false;
    for site in sites {
        broken |= rule.breaks(site.operand);
    }
    broken
}
