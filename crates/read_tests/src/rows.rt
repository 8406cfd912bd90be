//! Rows of texts, and the tests that go over them, one for each table: what a table has is written out where it is used.
//!
//! A row is what is told of a text, a colon and a blank, and the text, in which `^` stands for the end of a line.
use crate::tables::allocas::ALLOCAS;
use crate::tables::bodies::BODIES;
use crate::tables::bytes::BYTES;
use crate::tables::calls::CALLS;
use crate::tables::ends::ENDS;
use crate::tables::functions::FUNCTIONS;
use crate::tables::globals::GLOBALS;
use crate::tables::initialisers::INITIALISERS;
use crate::tables::modules::MODULES;
use crate::tables::names::NAMES;
use crate::tables::operands::OPERANDS;
use crate::tables::operations::OPERATIONS;
use crate::tables::tokens::TOKENS;
use crate::tables::types::TYPES;
use crate::tables::words::WORDS;
use crate::told::{Told, told_of, told_of_module};
use std::alloc::{AllocError, Global};
use std::process::Abort;

/// Where the texts of a table stand.
#[derive(Clone, Copy)]
enum Setting {
    /// Each is a whole text.
    Text,
    /// Each is a whole text, and its names are to be defined.
    Module,
    /// Each is lines in the body of a function, of which the first is the second of the text.
    Body,
}

/// Adds the text of a row.
fn push_text(text: &mut Vec<u8>, row: &str) -> Result<(), AllocError> {
    for byte in row.as_bytes() {
        text.push(match *byte {
            b'^' => b'\n',
            b'`' => b'\xff',
            other => other,
        })?;
    }
    Ok(())
}

/// The text of a row in its setting.
fn text_of(alloc: Global, row: &str, setting: Setting) -> Result<Vec<u8>, AllocError> {
    let (before, behind) = match setting {
        Setting::Text | Setting::Module => ("", ""),
        Setting::Body => ("define void @f() {^  ", "^  ret void }"),
    };
    let mut text = Vec::new(alloc);
    for part in [before, row, behind] {
        push_text(&mut text, part)?;
    }
    Ok(text)
}

/// What a row says that is told of its text, by the first letter of its kind.
fn wanted_in(kind: &str, line: u32) -> Told {
    match kind.as_bytes() {
        [b'I', ..] => Told::Items(line as usize),
        [b'M', ..] => Told::Module,
        [b'L', ..] => Told::Lex(line),
        [b'F', ..] => Told::Form(line),
        [b'U', ..] => Told::Unsupported(line),
        [b'N', ..] => Told::Name(line),
        _ => Told::Other,
    }
}

/// What is told of the text of a row in its setting, where a word that is left out is this one.
fn told_in(alloc: Global, row: &str, setting: Setting, word: &str) -> Told {
    match text_of(alloc, row, setting) {
        Ok(text) => match setting {
            Setting::Module => told_of_module(alloc, text.as_slice()),
            Setting::Text | Setting::Body => told_of(alloc, text.as_slice(), word.as_bytes()),
        },
        Err(_) => Told::Other,
    }
}

/// What stands before the first of these, and what behind it.
fn halves<'t>(text: &'t str, at: char) -> (&'t str, &'t str) {
    match text.split_once(at) {
        Some(parts) => parts,
        None => (text, ""),
    }
}

/// Whether what a row says is told of its text.
fn is_told(alloc: Global, row: &str, setting: Setting) -> bool {
    let (head, text) = halves(row, ':');
    let (kind, rest) = halves(head, ' ');
    let (line, word) = halves(rest, ' ');
    let text = text.strip_prefix(' ').unwrap_or(text);
    let wanted = wanted_in(kind, line.parse::<u32>().unwrap_or(0));
    (wanted != Told::Other) & (told_in(alloc, text, setting, word) == wanted)
}

/// The first row of a table that is wrong.
fn first_wrong(alloc: Global, rows: &'static str, setting: Setting) -> Option<&'static str> {
    for row in rows.lines() {
        if !row.is_empty() && !is_told(alloc, row, setting) {
            return Some(row);
        }
    }
    None
}

/// Fails with this row, if there is one. One assert for all tests is cheap to prove.
fn assert_none(rt: &impl Abort, wrong: Option<&'static str>) {
    assert_eq!(rt; wrong, None);
}

#[test]
fn what_each_row_says_is_told_of_tokens(rt: HostRuntime) {
    assert_none(&rt, first_wrong(rt.alloc(), TOKENS, Setting::Text));
}

#[test]
fn what_each_row_says_is_told_of_bytes_outside_the_alphabet(rt: HostRuntime) {
    assert_none(&rt, first_wrong(rt.alloc(), BYTES, Setting::Text));
}

#[test]
fn what_each_row_says_is_told_of_types(rt: HostRuntime) {
    assert_none(&rt, first_wrong(rt.alloc(), TYPES, Setting::Text));
}

#[test]
fn what_each_row_says_is_told_of_modules(rt: HostRuntime) {
    assert_none(&rt, first_wrong(rt.alloc(), MODULES, Setting::Text));
}

#[test]
fn what_each_row_says_is_told_of_variables_and_aliases(rt: HostRuntime) {
    assert_none(&rt, first_wrong(rt.alloc(), GLOBALS, Setting::Text));
}

#[test]
fn what_each_row_says_is_told_of_initialisers(rt: HostRuntime) {
    assert_none(&rt, first_wrong(rt.alloc(), INITIALISERS, Setting::Text));
}

#[test]
fn what_each_row_says_is_told_of_functions(rt: HostRuntime) {
    assert_none(&rt, first_wrong(rt.alloc(), FUNCTIONS, Setting::Text));
}

#[test]
fn what_each_row_says_is_told_of_bodies(rt: HostRuntime) {
    assert_none(&rt, first_wrong(rt.alloc(), BODIES, Setting::Text));
}

#[test]
fn what_each_row_says_is_told_of_allocas(rt: HostRuntime) {
    assert_none(&rt, first_wrong(rt.alloc(), ALLOCAS, Setting::Text));
}

#[test]
fn what_each_row_says_is_told_of_words(rt: HostRuntime) {
    assert_none(&rt, first_wrong(rt.alloc(), WORDS, Setting::Text));
}

#[test]
fn what_each_row_says_is_told_of_texts_that_end_too_soon(rt: HostRuntime) {
    assert_none(&rt, first_wrong(rt.alloc(), ENDS, Setting::Text));
}

#[test]
fn what_each_row_says_is_told_of_names(rt: HostRuntime) {
    assert_none(&rt, first_wrong(rt.alloc(), NAMES, Setting::Module));
}

#[test]
fn what_each_row_says_is_told_of_operands(rt: HostRuntime) {
    assert_none(&rt, first_wrong(rt.alloc(), OPERANDS, Setting::Body));
}

#[test]
fn what_each_row_says_is_told_of_operations(rt: HostRuntime) {
    assert_none(&rt, first_wrong(rt.alloc(), OPERATIONS, Setting::Body));
}

#[test]
fn what_each_row_says_is_told_of_calls(rt: HostRuntime) {
    assert_none(&rt, first_wrong(rt.alloc(), CALLS, Setting::Body));
}
