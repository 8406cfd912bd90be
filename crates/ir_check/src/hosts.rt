//! The functions of the host: their types, and the lines of what has their names and another type.
ghost use Rattle.std.specs.Prelude.{◌≡◌, ◌++◌, OnOk, bytes_eq, not};
ghost use Rattle.std.specs.List.{flat_map};
ghost use Rattle.ir_ident.specs.Names.{name_bytes};
ghost use Rattle.ir_check.specs.Hosts.{fits_host, host_lines, is_host, is_i32, takes_i32};
ghost use Rattle.ir_syntax.specs.Lines.{line_if};

use ir_ident::Name;
use ir_syntax::{Function, Global, Module, Param, TyText, TypeTree, push_line_if};
use std::alloc::AllocError;

/// Whether a type is `i32` (LangRef, "Integer Type").
pub fn is_i32(ty: &Option<TyText>) -> bool
    ensures { result ≡ is_i32 ty.now }
{
    match ty {
        Some(ty) => matches!(ty.tree(), TypeTree::Int { bits: 32 }),
        None => false,
    }
}

fn takes_i32(params: &[Param]) -> bool
    ensures { result ≡ takes_i32 params.now }
{
    match params {
        [param] => is_i32(&param.ty),
        _ => false,
    }
}

fn is_called(name: &Name, bytes: &[u8]) -> bool
    ensures { result ≡ bytes_eq (name_bytes name.now) bytes.now }
{
    match name {
        Name::Named(name) => name.as_bytes() == bytes,
        Name::Unnamed(_) | Name::Implicit => bytes.is_empty(),
    }
}

/// Whether a function has the type of a function of the host, where it has its name: `void @__host_put(i32)` and
/// `i32 @__host_get()`.
fn fits_host(function: &Function) -> bool
    ensures { result ≡ fits_host function.now }
{
    let params = function.params.as_slice();
    if is_called(&function.name, b"__host_put") {
        return function.result.is_none() & takes_i32(params);
    }
    if is_called(&function.name, b"__host_get") {
        return is_i32(&function.result) & params.is_empty();
    }
    true
}

/// Whether a variable has the name of a function of the host.
fn is_host(variable: &Global) -> bool
    ensures { result ≡ is_host variable.now }
{
    is_called(&variable.name, b"__host_put") | is_called(&variable.name, b"__host_get")
}

fn push_functions(lines: &mut Vec<u32>, functions: &[Function]) -> Result<(), AllocError>
    ensures { OnOk result (lines.new.items ≡ lines.old.items ++ flat_map (λ f. line_if (not (fits_host f)) f.line) functions.now) }
{
    for function in functions {
        push_line_if(lines, !fits_host(function), function.line)?;
    }
    Ok(())
}

fn push_variables(lines: &mut Vec<u32>, variables: &[Global]) -> Result<(), AllocError>
    ensures { OnOk result (lines.new.items ≡ lines.old.items ++ flat_map (λ g. line_if (is_host g) g.line) variables.now) }
{
    for variable in variables {
        push_line_if(lines, is_host(variable), variable.line)?;
    }
    Ok(())
}

/// Adds the lines of the functions and variables that have the name of a function of the host, and another type.
///
/// # Errors
///
/// [`AllocError`].
pub(crate) fn push_host_lines(lines: &mut Vec<u32>, m: &Module) -> Result<(), AllocError>
    ensures { OnOk result (lines.new.items ≡ lines.old.items ++ host_lines m.now) }
{
    push_functions(lines, m.functions.as_slice())?;
    push_variables(lines, m.globals.as_slice())
}
