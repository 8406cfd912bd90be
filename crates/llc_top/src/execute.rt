//! An image, run on the machine.
ghost use Rattle.llc_top.specs.Partial.{Executed};
ghost use Rattle.llc_top.specs.Streams.{sink_change};

use crate::status::Status;
use crate::tell::{Untold, tell_stop};
use cg_io::Sink;
use llc_words::Command;
use obj_link::Image;
use rv_mach::Machine;
use std::alloc::Global;

/// Runs an image with the input and the steps of the command: the machine's output goes to `out`, and how it ended
/// is told on `err`.
pub fn execute<O: Sink, E: Sink>(
    alloc: Global,
    command: &Command<'_>,
    image: &Image,
    out: &mut O,
    err: &mut E,
) -> Status
    ensures { Executed command.now image.now result (sink_change O.written O.faults out.old out.new)
        (sink_change E.written E.faults err.old err.new) }
{
    let Ok(mut machine) = Machine::load(alloc, image) else {
        return Status::NoMemory;
    };
    let Ok(stop) = machine.run(command.steps(), command.input(), out) else {
        return Status::WriteFault;
    };
    match tell_stop(err, stop) {
        Ok(()) => Status::Done,
        Err(Untold) => Status::WriteFault,
    }
}
