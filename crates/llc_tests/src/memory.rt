//! The program, run over memory.
use cg_io::{MemSink, MemSource};
use llc_top::{Status, run_llc};
use std::alloc::{AllocError, Global};

/// A text, and what comes of it: its assembly, or what is told.
pub(crate) type Row = (&'static str, &'static str);

/// The words that ask for assembly.
pub(crate) const COMPILE: &[&str] = &["llc", "compile"];

/// What the program did.
#[derive(Clone, Copy)]
pub(crate) struct Outcome {
    pub status: Status,
    /// Whether it put these bytes on its output.
    pub is_put: bool,
    /// Whether it told this line.
    pub is_told: bool,
    /// How many bytes it put on its output.
    pub count: usize,
    /// How many reads and writes failed.
    pub faults: u64,
}

/// The words of a command line, as the program gets them.
fn words_of(alloc: Global, words: &[&str]) -> Result<Vec<String>, AllocError> {
    let mut owned = Vec::new(alloc);
    for word in words {
        let word = String::from_str(alloc, word)?;
        owned.push(word)?;
    }
    Ok(owned)
}

/// A source of a text, of which these reads fail.
fn source_of(alloc: Global, text: &[u8], fails: &[u64]) -> Result<MemSource, AllocError> {
    let left = text.to_vec(alloc)?;
    Ok(MemSource::new(left, 7, fails.to_vec(alloc)?))
}

/// A sink of 4,096 bytes, of which these writes fail.
fn sink_of(alloc: Global, fails: &[u64]) -> Result<MemSink, AllocError> {
    MemSink::new(alloc, 4096, fails.to_vec(alloc)?)
}

/// What a sink of the output and one of the errors are to get.
type Wanted<'t> = (&'t [u8], &'t [u8]);

/// Runs the program on these words and streams.
fn outcome_on(
    alloc: Global,
    words: &[String],
    src: &mut MemSource,
    out: &mut MemSink,
    err: &mut MemSink,
    wanted: Wanted<'_>,
) -> Outcome {
    let status = run_llc(alloc, words, src, out, err);
    Outcome {
        status,
        is_put: out.bytes() == wanted.0,
        is_told: err.bytes() == wanted.1,
        count: out.bytes().len(),
        faults: src.fault_count().saturating_add(out.fault_count()),
    }
}

/// Runs the program on these words and this source, where these writes of the output fail.
fn outcome_from(
    alloc: Global,
    words: &[String],
    src: &mut MemSource,
    fails: &[u64],
    wanted: Wanted<'_>,
) -> Result<Outcome, AllocError> {
    let mut err = sink_of(alloc, &[])?;
    let mut out = sink_of(alloc, fails)?;
    Ok(outcome_on(alloc, words, src, &mut out, &mut err, wanted))
}

/// What the program does with these words and this text, where these reads of it and these writes of the output
/// fail, beside what it is to put and to tell.
pub(crate) fn outcome_of(
    alloc: Global,
    words: &[&str],
    text: &[u8],
    fails: (&[u64], &[u64]),
    wanted: Wanted<'_>,
) -> Result<Outcome, AllocError> {
    let words = words_of(alloc, words)?;
    let mut src = source_of(alloc, text, fails.0)?;
    outcome_from(alloc, words.as_slice(), &mut src, fails.1, wanted)
}

/// Whether the program answers to these words and this text with this status, puts this and tells this.
pub(crate) fn answers(
    alloc: Global,
    words: &[&str],
    text: &[u8],
    status: Status,
    wanted: Wanted<'_>,
) -> bool {
    match outcome_of(alloc, words, text, (&[], &[]), wanted) {
        Ok(outcome) => (outcome.status == status) & outcome.is_put & outcome.is_told,
        Err(_) => false,
    }
}

/// Whether the program answers to these words and this text with this status, puts nothing and tells this.
pub(crate) fn tells(
    alloc: Global,
    words: &[&str],
    text: &str,
    status: Status,
    told: &'static str,
) -> bool {
    let wanted = (b"".as_slice(), told.as_bytes());
    answers(alloc, words, text.as_bytes(), status, wanted)
}

/// The number of the first of these texts that these words do not compile to the assembly beside it, or 0.
pub(crate) fn wrong_assembly(alloc: Global, rows: &[Row]) -> usize {
    for at in 0..rows.len() {
        let (text, assembly) = rows[at];
        let wanted = (assembly.as_bytes(), b"".as_slice());
        if !answers(alloc, COMPILE, text.as_bytes(), Status::Done, wanted) {
            return at + 1;
        }
    }
    0
}
