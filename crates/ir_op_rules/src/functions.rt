//! The lines of what breaks a rule on types in a module.
ghost use Rattle.std.specs.Prelude.{◌≡◌, ◌++◌, OnOk};
ghost use Rattle.std.specs.List.{flat_map, list_all};
ghost use Rattle.ir_op_rules.specs.OpLines.{body_lines, function_lines, is_valued, op_lines, signature_fits};
ghost use Rattle.ir_sizes.specs.Sized.{layout_in};
ghost use Rattle.ir_scope.specs.Locals.{local_scalar};

use crate::parts::push_body;
use crate::scope::Scope;
use crate::values::is_value_type;
use crate::written::WrittenTypes;
use ir_scope::local_scalars;
use ir_sizes::NamedTypes;
use ir_syntax::{Function, Module, Param, TyText, push_line_if};
use std::alloc::{AllocError, Global};

fn is_valued(ty: &Option<TyText>) -> bool
    ensures { result ≡ is_valued ty.now }
{
    match ty {
        Some(ty) => is_value_type(ty),
        None => true,
    }
}

fn are_valued(params: &[Param]) -> bool
    ensures { result ≡ list_all (λ p. is_valued p.ty) params.now }
{
    params.iter().all(|param| is_valued(&param.ty))
}

/// Whether the result and the parameters of a function are values.
fn signature_fits(function: &Function) -> bool
    ensures { result ≡ signature_fits function.now }
{
    is_valued(&function.result) & are_valued(function.params.as_slice())
}

/// Adds the lines of the phis, instructions and terminators of a function that break a rule.
fn push_parts<'a>(
    alloc: Global,
    types: &NamedTypes<'_>,
    written: &mut WrittenTypes<'a>,
    lines: &mut Vec<u32>,
    function: &'a Function,
) -> Result<(), AllocError>
    ensures { OnOk result (lines.new.items
        ≡ lines.old.items ++ body_lines (local_scalar function.now) (layout_in types.now) function.now.result function.now.blocks) }
{
    let locals = local_scalars(alloc, function)?;
    let scope = Scope {
        locals: &locals,
        types,
        returned: &function.result,
    };
    push_body(alloc, &scope, written, lines, &function.blocks)
}

fn push_function<'a>(
    alloc: Global,
    types: &NamedTypes<'_>,
    written: &mut WrittenTypes<'a>,
    lines: &mut Vec<u32>,
    function: &'a Function,
) -> Result<(), AllocError>
    ensures { OnOk result (lines.new.items ≡ lines.old.items ++ function_lines (layout_in types.now) function.now) }
{
    push_line_if(lines, !signature_fits(function), function.line)?;
    push_parts(alloc, types, written, lines, function)
}

fn push_functions<'a>(
    alloc: Global,
    types: &NamedTypes<'_>,
    written: &mut WrittenTypes<'a>,
    lines: &mut Vec<u32>,
    functions: &'a [Function],
) -> Result<(), AllocError>
    ensures { OnOk result (lines.new.items ≡ lines.old.items ++ flat_map (function_lines (layout_in types.now)) functions.now) }
{
    for function in functions {
        push_function(alloc, types, written, lines, function)?;
    }
    Ok(())
}

/// Adds the lines, from 1, of what breaks a rule on types, in order: of a function whose result or a parameter is no value,
/// and of the phis, instructions and terminators of all blocks, once for each kind of rule. They state their types, operands
/// and alignments (LangRef, "Instruction Reference"); the types that they write have sizes; an `alloca` takes at most
/// 4,294,967,295 bytes; and the values of a `switch` differ. Of a call only the types have to have sizes.
///
/// # Errors
///
/// [`AllocError`].
pub fn push_op_lines(alloc: Global, m: &Module, lines: &mut Vec<u32>) -> Result<(), AllocError>
    ensures { OnOk result (lines.new.items ≡ lines.old.items ++ op_lines m.now) }
{
    let types = NamedTypes::new(alloc, m.types.as_slice())?;
    let mut written = WrittenTypes::new(alloc);
    push_functions(alloc, &types, &mut written, lines, m.functions.as_slice())
}
