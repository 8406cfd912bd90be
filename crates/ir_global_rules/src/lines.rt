//! The lines of the global variables and aliases that break a rule on types.
ghost use Rattle.std.specs.Prelude.{◌≡◌, ◌++◌, OnOk};
ghost use Rattle.std.specs.List.{flat_map};
ghost use Rattle.ir_global_rules.specs.GlobalLines.{alias_lines, global_lines, lines_by, variable_lines};

use crate::fits::init_fits;
use crate::sized::{is_alias_sized, is_global_sized};
use ir_scope::is_aligned;
use ir_sizes::NamedTypes;
use ir_syntax::{Alias, Global as GlobalVariable, Module, push_line_if};
use std::alloc::{AllocError, Global};

/// The greatest alignment of a global variable in bytes.
const ALIGN_LIMIT: u64 = 4096;

fn push_variable<'a>(
    types: &NamedTypes<'a>,
    global: &'a GlobalVariable,
    lines: &mut Vec<u32>,
) -> Result<(), AllocError>
    ensures { OnOk result (lines.new.items ≡ lines.old.items ++ variable_lines types.now global.now) }
{
    push_line_if(lines, !is_aligned(ALIGN_LIMIT, global.align), global.line)?;
    // Types without a size may have no end, so they are not compared.
    let fits = is_global_sized(types, global) && init_fits(types, global);
    push_line_if(lines, !fits, global.line)
}

fn push_variables<'a>(
    types: &NamedTypes<'a>,
    globals: &'a [GlobalVariable],
    lines: &mut Vec<u32>,
) -> Result<(), AllocError>
    ensures { OnOk result (lines.new.items ≡ lines.old.items ++ flat_map (variable_lines types.now) globals.now) }
{
    for global in globals {
        push_variable(types, global, lines)?;
    }
    Ok(())
}

fn push_aliases(
    types: &NamedTypes<'_>,
    aliases: &[Alias],
    lines: &mut Vec<u32>,
) -> Result<(), AllocError>
    ensures { OnOk result (lines.new.items ≡ lines.old.items ++ flat_map (alias_lines types.now) aliases.now) }
{
    for alias in aliases {
        push_line_if(lines, !is_alias_sized(types, alias), alias.line)?;
    }
    Ok(())
}

/// Adds the lines of what breaks a rule by what these names stand for.
fn push_lines<'a>(
    types: &NamedTypes<'a>,
    m: &'a Module,
    lines: &mut Vec<u32>,
) -> Result<(), AllocError>
    ensures { OnOk result (lines.new.items ≡ lines.old.items ++ lines_by types.now m.now) }
{
    push_variables(types, m.globals.as_slice(), lines)?;
    push_aliases(types, m.aliases.as_slice(), lines)
}

/// Adds the lines, from 1, of the global variables and then of the aliases that break a rule on types; a variable has two where
/// its alignment is wrong and its types are, too:
/// an alignment is a power of two from 1 to 4,096, the types that they write have sizes, those in initialisers and constant
/// addresses too, and an initialiser is of its type (LangRef, "Global Variables", "Aliases" and "Structure Type").
///
/// # Errors
///
/// [`AllocError`].
pub fn push_global_lines(alloc: Global, m: &Module, lines: &mut Vec<u32>) -> Result<(), AllocError>
    ensures { OnOk result (lines.new.items ≡ lines.old.items ++ global_lines m.now) }
{
    let types = NamedTypes::new(alloc, m.types.as_slice())?;
    push_lines(&types, m, lines)
}
