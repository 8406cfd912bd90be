//! The lines of a text.
ghost use Rattle.std.specs.Prelude.{IfOk};
ghost use Rattle.asm_read.specs.Checks.{AreLinesOf};

use asm_inst::cut_at;
use asm_line::read_line;
use rv_isa::Statement;
use std::alloc::{AllocError, Global};

/// What was read from the lines of a text.
#[derive(Drop)]
pub struct Lines {
    /// What each line says, or `None` where it is outside the grammar.
    pub readings: Vec<Option<Statement>>,
    /// Whether nothing stands after the last line feed.
    pub whole: bool,
}

/// Reads each line of the text.
pub fn read_lines(alloc: Global, text: &[u8]) -> Result<Lines, AllocError>
    ensures { IfOk result (λ read. AreLinesOf text.now read.readings.items read.whole) }
{
    let mut readings = Vec::new(alloc);
    let mut rest = text;
    while let Some((line, after)) = cut_at(rest, b'\n') {
        readings.push(read_line(alloc, line)?)?;
        rest = after;
    }
    Ok(Lines {
        readings,
        whole: rest.is_empty(),
    })
}
