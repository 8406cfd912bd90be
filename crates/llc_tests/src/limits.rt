//! Texts at the limits and just beyond them.
use crate::memory::{COMPILE, answers, outcome_of};
use itoa::Buffer;
use llc_top::Status;
use std::alloc::{AllocError, Global};

/// A long text: what it begins with, what stands in it so many times, `#` in that for its number from 0, and what it
/// ends with.
type Long = (&'static str, &'static str, usize, &'static str);

/// A function of eight parameters, a line each.
const FUNCTION: &str =
    "define i64 @f#(i64 %a, i64 %b, i64 %c, i64 %d, i64 %e, i64 %f, i64 %g, i64 %h) { ret i64 %h }\n";

/// A type, and the first line of a function.
const BEGUN: &str = "%t = type { i8 }\ndefine i64 @a() {\n";

/// An instruction.
const ADD: &str = "  add i64 1, 2\n";

/// A terminator, and the last line of a function.
const ENDED: &str = "  ret i64 0\n}\n";

/// Long texts that are refused, and what is told of them.
const LONG: &[(Long, &str)] = &[
    (
        ("", FUNCTION, 4097, ""),
        "llc: refused 11 Count Functions\n",
    ),
    ((BEGUN, ADD, 65_535, ENDED), "llc: refused 18 NotYet 3\n"),
    (
        (BEGUN, ADD, 65_536, ENDED),
        "llc: refused 11 Count OneFunction\n",
    ),
    (("", "x", 16_777_216, ""), "llc: refused 4 Form 1\n"),
    (
        ("", "x", 16_777_217, ""),
        "llc: refused 1 TooLong 16777217\n",
    ),
];

/// Adds what stands in a text many times, with its number.
fn push_part(text: &mut Vec<u8>, part: &str, number: usize) -> Result<(), AllocError> {
    for byte in part.as_bytes() {
        if *byte == b'#' {
            text.extend_from_slice(Buffer::new().format(number).as_bytes())?;
        } else {
            text.push(*byte)?;
        }
    }
    Ok(())
}

/// The bytes of a long text.
fn text_of(alloc: Global, long: Long) -> Result<Vec<u8>, AllocError> {
    let (prefix, part, count, end) = long;
    let mut text = Vec::new(alloc);
    push_part(&mut text, prefix, 0)?;
    for number in 0..count {
        push_part(&mut text, part, number)?;
    }
    push_part(&mut text, end, 0)?;
    Ok(text)
}

/// Whether a text puts nothing, and is refused so.
fn is_refused(alloc: Global, long: Long, told: &'static str) -> bool {
    match text_of(alloc, long) {
        Ok(text) => answers(
            alloc,
            COMPILE,
            text.as_slice(),
            Status::Refused,
            (b"", told.as_bytes()),
        ),
        Err(_) => false,
    }
}

/// The number of the first long text that is not refused so, or 0.
fn wrong_text(alloc: Global) -> usize {
    for at in 0..LONG.len() {
        if !is_refused(alloc, LONG[at].0, LONG[at].1) {
            return at + 1;
        }
    }
    0
}

#[test]
fn a_text_beyond_a_limit_is_refused(rt: HostRuntime) {
    assert_eq!(rt; wrong_text(rt.alloc()), 0);
}

/// As many functions as there may be.
const MOST: Long = ("", FUNCTION, 4096, "");

/// Whether a text is compiled, to more than the sink takes.
fn is_compiled(alloc: Global, text: &[u8]) -> bool {
    match outcome_of(alloc, COMPILE, text, (&[], &[]), (b"", b"")) {
        Ok(found) => (found.status == Status::WriteFault) & (found.count == 4096),
        Err(_) => false,
    }
}

/// Whether a long text is compiled.
fn are_compiled(alloc: Global, long: Long) -> bool {
    match text_of(alloc, long) {
        Ok(text) => is_compiled(alloc, text.as_slice()),
        Err(_) => false,
    }
}

#[test]
fn as_many_functions_as_there_may_be_are_compiled(rt: HostRuntime) {
    assert!(rt; are_compiled(rt.alloc(), MOST));
}
