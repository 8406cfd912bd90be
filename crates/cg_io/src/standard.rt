ghost use Rattle.std.specs.Prelude.{◌≡◌};
ghost use Rattle.cg_io.specs.Standard.{reader_of, read_faults, writer_of, write_faults};

use crate::errors::Failed;
use crate::streams::{Sink, Source};
use std::io::{Read, Write};

/// A reader of std as a [`Source`], as standard input. It counts each `Err` of the reader.
#[derive(Drop)]
pub struct StdSource<R: Read> {
    inner: R,
    faults: u64,
}

impl<R: Read> StdSource<R> {
    /// A source that reads from `inner`. No read failed yet.
    pub fn new(inner: R) -> Self
        ensures reader { reader_of result ≡ inner }
        ensures none_yet { read_faults result ≡ 0 }
    {
        StdSource { inner, faults: 0 }
    }
}

impl<R: Read> Source for StdSource<R> {
    ghost left = { λ s. R.remaining (reader_of s) };

    ghost faults = { read_faults };

    fn read(&mut self, buf: &mut [u8]) -> Result<usize, Failed> {
        match self.inner.read(buf) {
            Ok(count) => Ok(count),
            Err(_) => {
                self.faults = self.faults.saturating_add(1);
                Err(Failed)
            }
        }
    }
}

/// A writer of std as a [`Sink`], as standard output. It counts each `Err` of the writer, and each
/// write that took nothing of a piece that isn't empty.
#[derive(Drop)]
pub struct StdSink<W: Write> {
    inner: W,
    faults: u64,
}

impl<W: Write> StdSink<W> {
    /// A sink that writes to `inner`. No write failed yet.
    pub fn new(inner: W) -> Self
        ensures writer { writer_of result ≡ inner }
        ensures none_yet { write_faults result ≡ 0 }
    {
        StdSink { inner, faults: 0 }
    }
}

impl<W: Write> Sink for StdSink<W> {
    ghost written = { λ s. W.contents (writer_of s) };

    ghost faults = { write_faults };

    fn write(&mut self, piece: &[u8]) -> Result<usize, Failed> {
        match self.inner.write(piece) {
            Ok(count) if count > 0 || piece.is_empty() => Ok(count),
            _ => {
                self.faults = self.faults.saturating_add(1);
                Err(Failed)
            }
        }
    }
}
