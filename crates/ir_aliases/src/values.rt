//! Functions used as values.
ghost use Rattle.std.specs.Prelude.{◌≡◌, ◌++◌, false, OnOk};
ghost use Rattle.ir_aliases.specs.FunctionValues.{function_value_lines, is_function_value};

use crate::ends::AliasEnds;
use ir_geps::{OperandRule, push_operand_lines};
use ir_syntax::{Op, Operand};
use std::alloc::{AllocError, Global};

/// The name of a function is called, and is no value.
#[derive(Clone, Copy)]
struct CalledAlone<'e, 'a> {
    ends: &'e AliasEnds<'a>,
}

impl<'e, 'a> OperandRule for CalledAlone<'e, 'a> {
    ghost op_breaks = { λ r op. false };

    ghost breaks = { λ r. is_function_value r.ends.now };

    fn op_breaks(&self, _op: &Op) -> bool {
        false
    }

    fn breaks(&self, operand: &Operand) -> bool {
        match operand {
            Operand::Global(used) => self.ends.names_function(&used.name),
            Operand::Gep(gep) => self.ends.names_function(&gep.parts().base.name),
            _ => false,
        }
    }
}

/// Adds the lines of a module's globals, instructions, phis and terminators that have the name of a function, or of an
/// alias whose chain ends in one, as a value or as the base of a constant `getelementptr`. What is called is no such value.
///
/// # Errors
///
/// [`AllocError`].
pub fn push_function_value_lines(
    alloc: Global,
    ends: &AliasEnds<'_>,
    lines: &mut Vec<u32>,
) -> Result<(), AllocError>
    ensures { OnOk result (lines.new.items ≡ lines.old.items ++ function_value_lines ends.now) }
{
    push_operand_lines(alloc, &CalledAlone { ends }, ends.module(), lines)
}
