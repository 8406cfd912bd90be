//! Sources that are read to their end, and sinks that take all of a text.
use cg_io::{
    MemSink, MemSource, ReadEnd, Sink, Source, StdSink, StdSource, WriteFault, read_all, write_all,
};
use std::alloc::{AllocError, Global};

/// What a read of a whole source answers.
#[derive(Clone, Copy)]
enum Read {
    /// These bytes.
    All(&'static [u8]),
    /// A read failed.
    Fault,
    /// There are more bytes than the limit, and so many were read.
    TooLong(usize),
}

/// A limit, what a read of the whole source answers, and how many reads failed until then.
type Reading = (usize, Read, u64);

/// How many bytes a source of `hello world` gives at once, which of its reads fail, and what it is read as.
const READ: &[(usize, &[u64], &[Reading])] = &[
    (4, &[], &[(11, Read::All(b"hello world"), 0)]),
    // The first read took eight bytes.
    (
        8,
        &[2],
        &[(100, Read::Fault, 1), (100, Read::All(b"rld"), 1)],
    ),
    // The last byte is left, and is as many as are allowed.
    (
        4,
        &[],
        &[(9, Read::TooLong(10), 0), (1, Read::All(b"d"), 0)],
    ),
];

/// Whether a whole source is read so.
fn is_read<S: Source>(alloc: Global, source: &mut S, limit: usize, wanted: Read) -> bool {
    match (read_all(alloc, source, limit), wanted) {
        (Ok(bytes), Read::All(all)) => bytes.as_slice() == all,
        (Err(ReadEnd::Fault), Read::Fault) => true,
        (Err(ReadEnd::TooLong { taken }), Read::TooLong(count)) => taken == count,
        _ => false,
    }
}

/// Whether a source is read so, time after time.
fn are_read(alloc: Global, source: &mut MemSource, readings: &[Reading]) -> bool {
    for (limit, wanted, faults) in readings {
        if !is_read(alloc, source, *limit, *wanted) || source.fault_count() != *faults {
            return false;
        }
    }
    true
}

/// Whether a source of `hello world` is read so.
fn source_is_read(
    alloc: Global,
    piece: usize,
    fails: &[u64],
    readings: &[Reading],
) -> Result<bool, AllocError> {
    let bytes = b"hello world".to_vec(alloc)?;
    let mut source = MemSource::new(bytes, piece.max(1), fails.to_vec(alloc)?);
    Ok(are_read(alloc, &mut source, readings))
}

/// The number of the first source that is read otherwise, or 0.
fn wrong_source(alloc: Global) -> usize {
    for at in 0..READ.len() {
        let (piece, fails, readings) = READ[at];
        if source_is_read(alloc, piece, fails, readings) != Ok(true) {
            return at + 1;
        }
    }
    0
}

#[test]
fn sources_are_read_to_their_end(rt: HostRuntime) {
    assert_eq!(rt; wrong_source(rt.alloc()), 0);
}

/// How a write of `hello` ends, what the sink has then, and how many writes failed until then.
type Writing = (Result<(), WriteFault>, &'static [u8], u64);

/// The room of a sink, which of its writes fail, and what becomes of writes to it.
const WRITTEN: &[(usize, &[u64], &[Writing])] = &[
    (
        8,
        &[1],
        &[
            (Err(WriteFault { written: 0 }), b"", 1),
            (Ok(()), b"hello", 1),
        ],
    ),
    (4, &[], &[(Err(WriteFault { written: 4 }), b"hell", 1)]),
];

/// Whether a sink has these bytes, and so many of its writes failed.
fn has_taken(sink: &MemSink, bytes: &[u8], faults: u64) -> bool {
    (sink.bytes() == bytes) & (sink.fault_count() == faults)
}

/// Whether writes of `hello` end so, one after the other.
fn are_written(sink: &mut MemSink, writings: &[Writing]) -> bool {
    for (end, bytes, faults) in writings {
        let ended = write_all(sink, b"hello") == *end;
        if !ended || !has_taken(sink, bytes, *faults) {
            return false;
        }
    }
    true
}

/// Whether writes to a sink with this room end so.
fn sink_is_written(
    alloc: Global,
    room: usize,
    fails: &[u64],
    writings: &[Writing],
) -> Result<bool, AllocError> {
    let mut sink = MemSink::new(alloc, room, fails.to_vec(alloc)?)?;
    Ok(are_written(&mut sink, writings))
}

/// The number of the first sink that is written otherwise, or 0.
fn wrong_sink(alloc: Global) -> usize {
    for at in 0..WRITTEN.len() {
        let (room, fails, writings) = WRITTEN[at];
        if sink_is_written(alloc, room, fails, writings) != Ok(true) {
            return at + 1;
        }
    }
    0
}

#[test]
fn sinks_take_a_first_part_at_least(rt: HostRuntime) {
    assert_eq!(rt; wrong_sink(rt.alloc()), 0);
}

/// Whether a source is read without a fault.
fn has_an_end<S: Source>(alloc: Global, source: &mut S) -> bool {
    !matches!(read_all(alloc, source, 1 << 20), Err(ReadEnd::Fault))
}

/// Whether a sink takes a line.
fn takes_a_line<O: Sink>(sink: &mut O) -> bool {
    write_all(sink, b"written to standard output\n") == Ok(())
}

#[test]
fn the_standard_streams_read_and_write(rt: HostRuntime) {
    let mut source = StdSource::new(rt.stdin());
    assert!(rt; has_an_end(rt.alloc(), &mut source));
    let mut sink = StdSink::new(rt.stdout());
    assert!(rt; takes_a_line(&mut sink));
}
