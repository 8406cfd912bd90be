//! The lines that are refused.
ghost use Rattle.std.specs.Prelude.{◌≡◌, ◌<◌, ◌||◌, ℕ, List, true, false, not, length, IfOk, OnOk, MatchOption};
ghost use Rattle.std.specs.List.{list_any};
ghost use Rattle.asm_read.specs.Assembly.{exports};
ghost use Rattle.asm_read.specs.Checks as checks;
ghost use Rattle.asm_read.specs.Checks.{gives, has, refuses, refuses_at};
ghost use Rattle.asm_read.specs.Labels.{is_some_and};
ghost use Rattle.asm_line.specs.Statements as statements;
ghost use Rattle.asm_line.specs.Statements.{named, wanted};

use crate::names::{add_name, has_name};
use rv_isa::Statement;
use std::alloc::{AllocError, Global};
use std::collections::HashSet;

/// Whether a line begins the text section.
fn opens(line: &Option<Statement>) -> bool
    ensures { result ≡ is_some_and statements.opens line.now }
{
    matches!(line, Some(Statement::Text))
}

/// Adds the symbol or the label that a line names.
fn add_named<'a>(
    names: &mut HashSet<&'a [u8]>,
    line: &'a Option<Statement>,
) -> Result<(), AllocError>
    ensures { OnOk result ((q : List ℕ) → has names.new q ≡ (is_some_and (gives q) line.now || has names.old q)) }
{
    match line {
        Some(Statement::Define(name) | Statement::Label(name)) => add_name(names, name.as_bytes()),
        _ => Ok(()),
    }
}

/// Adds the name that a line exports.
fn add_exported<'a>(
    names: &mut HashSet<&'a [u8]>,
    line: &'a Option<Statement>,
) -> Result<(), AllocError>
    ensures { OnOk result ((q : List ℕ) → has names.new q ≡ (is_some_and (exports q) line.now || has names.old q)) }
{
    match line {
        Some(Statement::Global(name)) => add_name(names, name.as_bytes()),
        _ => Ok(()),
    }
}

/// The symbols and the labels that the lines name.
pub fn named_in(alloc: Global, lines: &[Option<Statement>]) -> Result<HashSet<&[u8]>, AllocError>
    ensures { IfOk result (λ names. (q : List ℕ) → has names q ≡ list_any (is_some_and (gives q)) lines.now) }
{
    let mut names = HashSet::new(alloc);
    for line in lines {
        add_named(&mut names, line)?;
    }
    Ok(names)
}

/// The names that the lines export.
pub fn exported_names(
    alloc: Global,
    lines: &[Option<Statement>],
) -> Result<HashSet<&[u8]>, AllocError>
    ensures { IfOk result (λ names. (q : List ℕ) → has names q ≡ list_any (is_some_and (exports q)) lines.now) }
{
    let mut names = HashSet::new(alloc);
    for line in lines {
        add_exported(&mut names, line)?;
    }
    Ok(names)
}

/// Whether a statement needs a section, and none is before it.
fn is_early(statement: &Statement, opened: bool) -> bool
    ensures { result ≡ checks.is_early opened statement.now }
{
    !matches!(statement, Statement::Text | Statement::Global(_)) & !opened
}

/// Whether a statement names a symbol or a label that is named before it.
fn is_again(statement: &Statement, seen: &HashSet<&[u8]>) -> bool
    ensures { result ≡ is_some_and (has seen.now) (named statement.now) }
{
    match statement {
        Statement::Define(name) | Statement::Label(name) => has_name(seen, name.as_bytes()),
        _ => false,
    }
}

/// Whether a statement exports a symbol, or goes to a label, that no line names.
fn is_unknown(statement: &Statement, known: &HashSet<&[u8]>) -> bool
    ensures { result ≡ is_some_and (λ name. not (has known.now name)) (wanted statement.now) }
{
    match statement {
        Statement::Global(name) | Statement::ToLabel(_, name) => {
            !has_name(known, name.as_bytes())
        }
        _ => false,
    }
}

/// Whether a line is refused by itself, where `opened` says that a section line is before it, `seen` has the symbols and
/// labels that are named before it, and `known` all that are.
fn is_refused(
    line: &Option<Statement>,
    opened: bool,
    seen: &HashSet<&[u8]>,
    known: &HashSet<&[u8]>,
) -> bool
    ensures { result ≡ refuses opened (has seen.now) (has known.now) line.now }
{
    match line {
        None => true,
        Some(statement) => {
            is_early(statement, opened) | is_again(statement, seen) | is_unknown(statement, known)
        }
    }
}

/// The place of the first line that is refused by itself, where `known` has the symbols and labels that the lines name.
pub fn first_refused(
    alloc: Global,
    lines: &[Option<Statement>],
    known: &HashSet<&[u8]>,
) -> Result<Option<usize>, AllocError>
    requires { (q : List ℕ) → has known.now q ≡ list_any (is_some_and (gives q)) lines.now }
    ensures { IfOk result (λ first. MatchOption first
        ((k : ℕ) → k < length lines.now → refuses_at lines.now k ≡ false)
        (λ at. (at < length lines.now) × (refuses_at lines.now at ≡ true)
        × ((k : ℕ) → k < at → refuses_at lines.now k ≡ false))) }
{
    let mut opened = false;
    let mut seen = HashSet::new(alloc);
    for at in 0..lines.len() {
        let line = &lines[at];
        if is_refused(line, opened, &seen, known) {
            return Ok(Some(at));
        }
        opened |= opens(line);
        add_named(&mut seen, line)?;
    }
    Ok(None)
}
