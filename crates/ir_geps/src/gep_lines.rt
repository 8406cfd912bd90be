//! The lines of what has a `getelementptr` with an index out of range (LangRef, "'getelementptr' Instruction").
ghost use Rattle.std.specs.Prelude.{◌≡◌, ◌++◌, OnOk};
ghost use Rattle.std.specs.List.{flat_map};
ghost use Rattle.ir_geps.specs.GepLines.{alias_lines, base_breaks, gep_lines, gep_lines_by, op_breaks, operand_breaks};

use crate::operand_lines::{OperandRule, push_operand_lines};
use crate::range::{is_in_range, parts_in_range};
use ir_sizes::NamedTypes;
use ir_syntax::{Alias, AliasBase, Module, Op, Operand, push_line_if};
use std::alloc::{AllocError, Global};

/// The indices of each `getelementptr` are in range.
#[derive(Drop)]
struct InRange<'a> {
    types: NamedTypes<'a>,
}

impl<'a> OperandRule for InRange<'a> {
    ghost op_breaks = { λ r. op_breaks r.types };

    ghost breaks = { λ r. operand_breaks r.types };

    fn op_breaks(&self, op: &Op) -> bool {
        match op {
            Op::Gep { ty, indices, .. } => !is_in_range(&self.types, ty, indices.as_slice()),
            _ => false,
        }
    }

    fn breaks(&self, operand: &Operand) -> bool {
        match operand {
            Operand::Gep(gep) => !parts_in_range(&self.types, gep.parts()),
            _ => false,
        }
    }
}

/// Adds the lines of the globals, instructions, phis, terminators and aliases that have a `getelementptr` with an index
/// out of range.
///
/// # Errors
///
/// [`AllocError`].
pub fn push_gep_lines(alloc: Global, m: &Module, lines: &mut Vec<u32>) -> Result<(), AllocError>
    ensures { OnOk result (lines.new.items ≡ lines.old.items ++ gep_lines m.now) }
{
    let rule = InRange {
        types: NamedTypes::new(alloc, m.types.as_slice())?,
    };
    push_broken(alloc, &rule, m, lines)
}

/// Adds the lines of all that breaks the rule.
fn push_broken(
    alloc: Global,
    rule: &InRange<'_>,
    m: &Module,
    lines: &mut Vec<u32>,
) -> Result<(), AllocError>
    ensures { OnOk result (lines.new.items ≡ lines.old.items ++ gep_lines_by rule.now.types m.now) }
{
    push_operand_lines(alloc, rule, m, lines)?;
    push_aliases(&rule.types, m.aliases.as_slice(), lines)
}

fn push_aliases(
    types: &NamedTypes<'_>,
    aliases: &[Alias],
    lines: &mut Vec<u32>,
) -> Result<(), AllocError>
    ensures { OnOk result (lines.new.items ≡ lines.old.items ++ flat_map (alias_lines types.now) aliases.now) }
{
    for alias in aliases {
        push_line_if(lines, base_breaks(types, &alias.base), alias.line)?;
    }
    Ok(())
}

fn base_breaks(types: &NamedTypes<'_>, base: &AliasBase) -> bool
    ensures { result ≡ base_breaks types.now base.now }
{
    match base {
        AliasBase::Gep(gep) => !parts_in_range(types, gep.parts()),
        AliasBase::Global(_) => false,
    }
}
