//! The lines of the calls of a module that break a rule.
ghost use Rattle.std.specs.Prelude.{◌≡◌, ◌++◌, OnOk};
ghost use Rattle.std.specs.List.{flat_map};
ghost use Rattle.ir_call_rules.specs.CallLines.{call_lines, function_lines};
ghost use Rattle.ir_call_rules.specs.Ops.{callee_of};

use crate::parts::push_body;
use crate::scope::Scope;
use ir_aliases::AliasEnds;
use ir_scope::local_scalars;
use ir_syntax::Function;
use std::alloc::{AllocError, Global};

/// Adds the lines of the instructions of a function that break a rule.
fn push_function(
    alloc: Global,
    ends: &AliasEnds<'_>,
    lines: &mut Vec<u32>,
    function: &Function,
) -> Result<(), AllocError>
    ensures { OnOk result (lines.new.items ≡ lines.old.items ++ function_lines (callee_of ends.now) function.now) }
{
    let locals = local_scalars(alloc, function)?;
    let scope = Scope {
        locals: &locals,
        ends,
    };
    push_body(&scope, lines, &function.blocks)
}

fn push_functions(
    alloc: Global,
    ends: &AliasEnds<'_>,
    functions: &[Function],
    lines: &mut Vec<u32>,
) -> Result<(), AllocError>
    ensures { OnOk result (lines.new.items ≡ lines.old.items ++ flat_map (function_lines (callee_of ends.now)) functions.now) }
{
    for function in functions {
        push_function(alloc, ends, lines, function)?;
    }
    Ok(())
}

/// Adds the lines, from 1, of the calls of a module that break a rule, in order (LangRef, "'call' Instruction" and "Intrinsic
/// Functions").
///
/// The name stands for a function, or for an alias whose chain ends at the begin of one, of the call's result type, with as many parameters as the call has arguments, each of its
/// argument's type. Types of parameters that the call writes are those of the arguments. Arguments are of their types, and
/// alignments powers of two from 1 to 2^63. A call of `void` has no result.
///
/// The call of an intrinsic has the intrinsic's type, whatever its declaration says. The flag of `ctlz`, `cttz` and `abs` is a
/// constant, and the width of `bswap` a multiple of 16. The flag of a memory intrinsic is false, and its length a constant of at
/// most 256 bytes and 64 pieces.
///
/// # Errors
///
/// [`AllocError`].
pub fn push_call_lines(
    alloc: Global,
    ends: &AliasEnds<'_>,
    lines: &mut Vec<u32>,
) -> Result<(), AllocError>
    ensures { OnOk result (lines.new.items ≡ lines.old.items ++ call_lines ends.now) }
{
    push_functions(alloc, ends, ends.module().functions.as_slice(), lines)
}
