//! Texts cut behind each of their tokens.
ghost use Rattle.std.specs.Prelude.{◌<◌, length};

use crate::tables::cuts::{HELD, LONG, OPEN};
use crate::told::{Told, told_of};
use std::alloc::{AllocError, Global};

/// What holds of the cuts of a text.
#[derive(Clone, Copy)]
enum Cut {
    /// No cut makes a module.
    Open,
    /// No cut makes a module, and some tokens stand in brackets that hold any.
    Held,
    /// Some cuts make a module.
    Long,
}

/// The tables, and what holds of the cuts of their texts.
const TABLES: &[(Cut, &str)] = &[(Cut::Open, OPEN), (Cut::Held, HELD), (Cut::Long, LONG)];

/// A text with each token on a line of its own, and this word on the last one.
fn lines_of(alloc: Global, text: &[u8], word: &[u8]) -> Result<Vec<u8>, AllocError> {
    let mut lines = Vec::new(alloc);
    for byte in text {
        lines.push(if *byte == b' ' { b'\n' } else { *byte })?;
    }
    lines.extend_from_slice(word)?;
    Ok(lines)
}

/// What is told of a text with each token on a line of its own, and this word on the last one, where a word that is
/// left out is this one.
fn told_with(alloc: Global, text: &[u8], word: &[u8]) -> Told {
    match lines_of(alloc, text, word) {
        Ok(lines) => told_of(alloc, lines.as_slice(), word),
        Err(_) => Told::Other,
    }
}

/// Whether a text is refused as it should be before the blank at this place, where this is the line of the last token:
/// at once where it ends there, and at the next token where that begins nothing.
fn is_refused_at(alloc: Global, text: &[u8], at: usize, line: u32, cut: Cut) -> bool
    requires { at < length text.now }
{
    let next = line.saturating_add(1);
    let ends = told_with(alloc, &text[..at], b"") == Told::Form(line);
    let begins_nothing = told_with(alloc, &text[..=at], b"*") == Told::Form(next);
    let is_left_out = told_with(alloc, &text[..=at], b"half") == Told::Unsupported(next);
    match cut {
        Cut::Open => ends & begins_nothing & is_left_out,
        Cut::Held => ends,
        Cut::Long => begins_nothing & is_left_out,
    }
}

/// Whether a text whose tokens are separated by blanks is read, and each cut of it is refused.
fn is_cut_well(alloc: Global, text: &[u8], cut: Cut) -> bool {
    let mut line: u32 = 1;
    for at in 0..text.len() {
        if text[at] == b' ' {
            if !is_refused_at(alloc, text, at, line, cut) {
                return false;
            }
            line = line.saturating_add(1);
        }
    }
    matches!(told_with(alloc, text, b""), Told::Items(_))
}

/// The first of these texts that has a cut which is not refused.
fn first_wrong(alloc: Global, rows: &'static str, cut: Cut) -> Option<&'static str> {
    for row in rows.lines() {
        if !row.is_empty() && !is_cut_well(alloc, row.as_bytes(), cut) {
            return Some(row);
        }
    }
    None
}

#[test]
fn texts_are_cut_behind_each_token(rt: HostRuntime) {
    for (cut, rows) in TABLES {
        assert_eq!(rt; first_wrong(rt.alloc(), rows, *cut), None);
    }
}
