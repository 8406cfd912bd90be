//! The lines of items.
ghost use Rattle.std.specs.Prelude.{◌≡◌, ◌++◌, Some, OnOk, map};
ghost use Rattle.std.specs.List.{flat_map};
ghost use Rattle.cg_built.specs.Unbuilt.{unbuilt_by, unbuilt_in};

use crate::built::body::is_built_body;
use crate::built::head::is_built_head;
use ir_syntax::{Alias, Block, Function, Global, push_line_if};
use std::alloc::AllocError;

/// Adds the lines of variables.
pub fn push_variables(lines: &mut Vec<u32>, variables: &[Global]) -> Result<(), AllocError>
    ensures { OnOk result (lines.new.items ≡ lines.old.items ++ map (λ g. g.line) variables.now) }
{
    for variable in variables {
        lines.push(variable.line)?;
    }
    Ok(())
}

/// Adds the lines of aliases.
pub fn push_aliases(lines: &mut Vec<u32>, aliases: &[Alias]) -> Result<(), AllocError>
    ensures { OnOk result (lines.new.items ≡ lines.old.items ++ map (λ a. a.line) aliases.now) }
{
    for alias in aliases {
        lines.push(alias.line)?;
    }
    Ok(())
}

/// Adds the lines of what is not built of functions.
pub fn push_unbuilt(lines: &mut Vec<u32>, functions: &[Function]) -> Result<(), AllocError>
    ensures { OnOk result (lines.new.items ≡ lines.old.items ++ flat_map unbuilt_in functions.now) }
{
    for function in functions {
        push_function(lines, function)?;
    }
    Ok(())
}

fn push_function(lines: &mut Vec<u32>, function: &Function) -> Result<(), AllocError>
    ensures { OnOk result (lines.new.items ≡ lines.old.items ++ unbuilt_in function.now) }
{
    match &function.blocks {
        Some(blocks) => push_definition(lines, function, blocks.as_slice()),
        None => Ok(()),
    }
}

fn push_definition(
    lines: &mut Vec<u32>,
    function: &Function,
    blocks: &[Block],
) -> Result<(), AllocError>
    ensures { OnOk result (lines.new.items ≡ lines.old.items ++ unbuilt_by function.now (Some blocks.now)) }
{
    match blocks {
        [first, more @ ..] => {
            push_line_if(lines, !is_built_head(function), function.line)?;
            push_line_if(lines, !is_built_body(function, first, more), first.line)
        }
        [] => push_line_if(lines, true, function.line),
    }
}
