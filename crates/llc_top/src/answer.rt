//! Answers that tell a line on the sink for errors.
ghost use Rattle.std.specs.Prelude.{◌≢◌};
ghost use Rattle.llc_top.specs.Partial.{Told, ToldRefusal, ToldUnlinked, ToldUnread};
ghost use Rattle.llc_top.specs.Streams.{sink_change};

use crate::status::Status;
use crate::tell::{tell_refusal, write_piece};
use cg_io::Sink;
use ir_syntax::{Bytes, Refusal};
use obj_link::Unlinked;
use std::alloc::Global;

/// Tells a line, and answers with the status that is due, or that the write failed.
pub fn answer_line<E: Sink>(err: &mut E, line: &[u8], due: Status) -> Status
    ensures { Told result due line.now (sink_change E.written E.faults err.old err.new) }
{
    match write_piece(err, line) {
        Ok(()) => due,
        Err(_) => Status::WriteFault,
    }
}

/// Tells a refusal, and answers `Refused`, or that the write failed.
pub fn answer_refusal<E: Sink>(err: &mut E, refusal: Refusal) -> Status
    requires { refusal ≢ Refusal.NoMemory }
    ensures { ToldRefusal refusal result (sink_change E.written E.faults err.old err.new) }
{
    match tell_refusal(err, refusal) {
        Ok(()) => Status::Refused,
        Err(_) => Status::WriteFault,
    }
}

/// Tells why a text is not read, unless memory ran out.
pub fn answer_unread<E: Sink>(err: &mut E, refusal: Refusal) -> Status
    ensures { ToldUnread refusal result (sink_change E.written E.faults err.old err.new) }
{
    if matches!(&refusal, Refusal::NoMemory) {
        return Status::NoMemory;
    }
    answer_refusal(err, refusal)
}

/// Tells why a module is not linked, unless memory ran out.
pub fn answer_unlinked<E: Sink>(alloc: Global, err: &mut E, why: Unlinked) -> Status
    ensures { ToldUnlinked why result (sink_change E.written E.faults err.old err.new) }
{
    match why {
        Unlinked::Undefined { name } => match Vec::from_slice(alloc, name.as_bytes()) {
            Ok(bytes) => {
                let name = Bytes::from_vec(bytes);
                answer_refusal(err, Refusal::Unresolved { name })
            }
            Err(_) => Status::NoMemory,
        },
        Unlinked::TooLarge { bytes } => answer_refusal(err, Refusal::Image { bytes }),
        Unlinked::NoMemory => Status::NoMemory,
    }
}
