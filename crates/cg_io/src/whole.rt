ghost use Rattle.std.specs.Prelude.{◌≡◌, ◌+◌, ◌<◌, ◌≤◌, ◌⊎◌, length, take, OnOk, OnErr, IfOk, IfErr, IsErrOf};
ghost use Rattle.std.specs.Io.KnownBytes.{Appends};
ghost use Rattle.cg_io.specs.Faults.{Rose};
ghost use Rattle.cg_io.specs.Told.{GivesAll, TakesAtMost, AppendsProperPrefix, HasAtMost};
ghost use Rattle.cg_io.specs.ReadEnds.{EndsEarly, OnlyTooLongAbove};

use crate::errors::{Failed, ReadEnd, WriteFault};
use crate::streams::{Sink, Source};
use std::alloc::Global;

/// How many bytes one read asks for at most.
const CHUNK: usize = 4096;

/// All bytes of a source, to its end, if these are at most `limit`.
///
/// Answers `TooLong` once one byte more than `limit` was read, and reads no further. Memory for a
/// read's bytes is taken before the read, so `NoMemory` comes with no more than `limit` bytes read.
pub fn read_all<S: Source>(alloc: Global, src: &mut S, limit: usize) -> Result<Vec<u8>, ReadEnd>
    ensures all { IfOk result (λ bytes. GivesAll (S.left src.old) (S.left src.new) bytes.items) }
    ensures within { IfOk result (λ bytes. length bytes.items ≤ limit) }
    ensures fits { OnOk result (HasAtMost limit (S.left src.old)) }

    // Exactly `limit + 1` bytes were taken at `TooLong`, and at most `limit` at any other answer.
    ensures early { IfErr result (λ end. EndsEarly end limit (S.left src.old) (S.left src.new)) }
    ensures too_long { IfErr result (λ end. OnlyTooLongAbove end limit (S.left src.old)) }
    ensures most { TakesAtMost (limit + 1) (S.left src.old) (S.left src.new) }

    ensures fault { IsErrOf result ReadEnd.Fault → Rose (S.faults src.old) (S.faults src.new) }
    ensures no_fault { IsErrOf result ReadEnd.Fault ⊎ (S.faults src.new ≡ S.faults src.old) }
    ensures later { S.faults src.old ≤ S.faults src.new }
{
    let mut bytes = Vec::new(alloc);
    let mut buffer = [0; CHUNK];
    while bytes.len() <= limit {
        let room = (limit - bytes.len()).min(CHUNK - 1) + 1;
        if bytes.reserve(room).is_err() {
            return Err(ReadEnd::NoMemory);
        }
        let Ok(count) = src.read(&mut buffer[..room]) else {
            return Err(ReadEnd::Fault);
        };
        if count == 0 {
            return Ok(bytes);
        }
        bytes.extend_from_slice(&buffer[..count]).unwrap();
    }
    Err(ReadEnd::TooLong { taken: bytes.len() })
}

/// Writes all of `bytes`. At a fault the first `written` of them were written, and not all. It takes
/// no memory.
pub fn write_all<O: Sink>(sink: &mut O, bytes: &[u8]) -> Result<(), WriteFault>
    ensures all { OnOk result (Appends (O.written sink.old) (O.written sink.new) bytes.now) }
    ensures part { IfErr result (λ fault. Appends (O.written sink.old) (O.written sink.new)
        (take fault.written bytes.now)) }
    ensures not_all { IfErr result (λ fault. fault.written < length bytes.now) }
    ensures cut_off { OnErr result (AppendsProperPrefix (O.written sink.old) (O.written sink.new) bytes.now) }

    ensures fault { OnErr result (Rose (O.faults sink.old) (O.faults sink.new)) }
    ensures no_fault { OnOk result (O.faults sink.new ≡ O.faults sink.old) }
    ensures later { O.faults sink.old ≤ O.faults sink.new }
{
    let mut written = 0;
    while written < bytes.len() {
        match sink.write(&bytes[written..]) {
            Ok(count) => written += count,
            Err(Failed) => return Err(WriteFault { written }),
        }
    }
    Ok(())
}
