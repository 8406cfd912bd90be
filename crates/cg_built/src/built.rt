//! What of a module is not built.
ghost use Rattle.std.specs.Prelude.{◌≡◌, IfOk};
ghost use Rattle.cg_built.specs.Unbuilt.{first_unbuilt, unbuilt_lines};

mod body;
mod head;
mod lines;

use ir_check::{Checked, least_line};
use ir_syntax::Module;
use lines::{push_aliases, push_unbuilt, push_variables};
use std::alloc::{AllocError, Global};

/// The first line, from 1, of what is not built yet; none exactly where all is built.
///
/// Not built are variables and aliases, and defined functions other than those that `program_of` takes.
///
/// # Errors
///
/// [`AllocError`].
pub fn unbuilt(alloc: Global, m: &Checked) -> Result<Option<u32>, AllocError>
    ensures { IfOk result (λ line. line ≡ first_unbuilt m.now) }
{
    let lines = unbuilt_lines(alloc, m.module())?;
    Ok(least_line(lines.as_slice()))
}

fn unbuilt_lines(alloc: Global, m: &Module) -> Result<Vec<u32>, AllocError>
    ensures { IfOk result (λ lines. lines.items ≡ unbuilt_lines m.now) }
{
    let mut lines = Vec::new(alloc);
    push_variables(&mut lines, m.globals.as_slice())?;
    push_aliases(&mut lines, m.aliases.as_slice())?;
    push_unbuilt(&mut lines, m.functions.as_slice())?;
    Ok(lines)
}
