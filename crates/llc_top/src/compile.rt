//! A module, compiled.
ghost use Rattle.std.specs.Prelude.{◌≡◌, IfOk};
ghost use Rattle.cg_built.specs.Unbuilt.{IsBuilt};
ghost use Rattle.cg_part.specs.Text.{output_of};
ghost use Rattle.llc_top.specs.Partial.{Written, WrittenText};
ghost use Rattle.llc_top.specs.Streams.{sink_change};

use crate::status::Status;
use cg_io::{Sink, write_all};
use cg_part::text_of;
use ir_syntax::Module;
use std::alloc::{AllocError, Global};

/// Writes what a module compiles to.
pub fn write_output<O: Sink>(alloc: Global, m: &Module, out: &mut O) -> Status
    requires { IsBuilt m.now }
    ensures { Written m.now result (sink_change O.written O.faults out.old out.new) }
{
    let Ok(output) = output_text(alloc, m) else {
        return Status::NoMemory;
    };
    write_text(output.as_slice(), out)
}

fn write_text<O: Sink>(text: &[u8], out: &mut O) -> Status
    ensures { WrittenText text.now result (sink_change O.written O.faults out.old out.new) }
{
    match write_all(out, text) {
        Ok(()) => Status::Done,
        Err(_) => Status::WriteFault,
    }
}

/// The line that begins the one part, and its text.
fn output_text(alloc: Global, m: &Module) -> Result<Vec<u8>, AllocError>
    requires { IsBuilt m.now }
    ensures { IfOk result (λ output. output.items ≡ output_of m.now) }
{
    let text = text_of(alloc, m)?;
    let mut output = Vec::from_slice(alloc, b"#--- part 0\n")?;
    output.extend_from_slice(&text)?;
    Ok(output)
}
