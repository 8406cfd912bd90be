//! Lines of faults.
ghost use Rattle.std.specs.Prelude.{◌≡◌, ◌++◌, OnErr, OnOk};
ghost use Rattle.ir_syntax.specs.Lines.{line_if};

use std::alloc::AllocError;

/// Adds the line of a fault at the end, if it is one.
///
/// # Errors
///
/// [`AllocError`]; then nothing is added.
pub fn push_line_if(lines: &mut Vec<u32>, fault: bool, line: u32) -> Result<(), AllocError>
    ensures ok { OnOk result (lines.new.items ≡ lines.old.items ++ line_if fault line) }
    ensures err { OnErr result (lines.new.items ≡ lines.old.items) }
{
    if fault {
        lines.push(line)?;
    }
    Ok(())
}
