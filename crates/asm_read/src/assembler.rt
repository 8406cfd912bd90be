//! The assembler.
ghost use Rattle.std.specs.Prelude.{◌≡◌, ◌+◌, ◌⊎◌, ℕ, false, List, IfErr, IfOk, MatchOption, MatchResult, map};
ghost use Rattle.rv_isa.specs.Lines.{text_of_lines};
ghost use Rattle.asm_read.specs.Assembly.{AreOrdered, Assembles, IsAssembly, IsObjectOf, IsRefusal};
ghost use Rattle.std.specs.List.{All};
ghost use Rattle.rv_isa.specs.Statements.{statement_line};
ghost use Rattle.asm_line.specs.Statements.{IsStatement};
ghost use Rattle.asm_read.specs.Checks.{IsEnd, IsFirstRefused, IsMissed, IsRefused, IsRefusedThere, is_far_at, statements_in};
ghost use Rattle.rv_isa.specs.declared.statement.Statement.{Statement};

use crate::build::object_of;
use crate::check::{exported_names, first_refused, named_in};
use crate::labels::{first_far, label_places};
use crate::lines::{Lines, read_lines};
use crate::object::Object;
use crate::refusal::AsmRefusal;
use std::alloc::{AllocError, Global};

/// How many lines stand before the first that is refused by itself, and whether there is such a line.
fn end_of(alloc: Global, lines: &Lines) -> Result<(usize, bool), AllocError>
    ensures { IfOk result (λ end. IsEnd lines.now.readings.items lines.now.whole end.0
        × IsRefusedThere lines.now.readings.items lines.now.whole end.0 end.1) }
{
    let readings = lines.readings.as_slice();
    let named = named_in(alloc, readings)?;
    let first = first_refused(alloc, readings, &named);
    drop(named);
    match first? {
        Some(at) => Ok((at, true)),
        None => Ok((readings.len(), !lines.whole)),
    }
}

/// The number of the first line that is refused, counted from 1.
fn refused_line(alloc: Global, lines: &Lines) -> Result<Option<u64>, AllocError>
    ensures { IfOk result (λ refused. MatchOption refused
        ((k : ℕ) → IsRefused lines.now.readings.items lines.now.whole k ⊎ IsMissed lines.now.readings.items lines.now.whole k → ⊥)
        (λ line. (k : ℕ) × IsFirstRefused lines.now.readings.items lines.now.whole k × (line ≡ k + 1))) }
{
    let (end, is_refused) = end_of(alloc, lines)?;
    let first = &lines.readings.as_slice()[..end];
    let places = label_places(alloc, first)?;
    let far = first_far(first, &places);
    drop(places);
    match far {
        Some(at) => Ok(Some(at as u64 + 1)),
        None if is_refused => Ok(Some(end as u64 + 1)),
        None => Ok(None),
    }
}

/// The object of the lines of a text.
fn build(alloc: Global, lines: &Lines) -> Result<Object, AllocError>
    requires grammar { All IsStatement (statements_in lines.now.readings.items) }
    requires near { (k : ℕ) → is_far_at lines.now.readings.items k ≡ false }
    ensures { IfOk result (IsObjectOf (statements_in lines.now.readings.items)) }
{
    let readings = lines.readings.as_slice();
    let globals = exported_names(alloc, readings)?;
    let places = label_places(alloc, readings)?;
    object_of(alloc, readings, &globals, &places)
}

/// Assembles a text: sections, symbols and instructions, each spelled as the code generator
/// spells it. A line outside this grammar is refused, as is one that stands before the first
/// section and needs one, one that names a symbol or a label for the second time, one that exports a symbol or goes to a
/// label which the text does not name, one that goes to a label out of its reach, and one without a line feed at its end.
///
/// # Errors
///
/// `Line` for the first line that is refused, and `NoMemory` where memory runs out.
pub fn assemble(alloc: Global, text: &[u8]) -> Result<Object, AsmRefusal>
    ensures object { IfOk result (Assembles text.now) }
    ensures only { (statements : List Statement) → IsAssembly text.now statements
        → MatchResult result (IsObjectOf statements) (λ refusal. refusal ≡ AsmRefusal.NoMemory) }
    ensures line { IfErr result (IsRefusal text.now) }
{
    let Ok(lines) = read_lines(alloc, text) else {
        return Err(AsmRefusal::NoMemory);
    };
    match refused_line(alloc, &lines) {
        Ok(None) => {}
        Ok(Some(line)) => return Err(AsmRefusal::Line { line }),
        Err(_) => return Err(AsmRefusal::NoMemory),
    }
    match build(alloc, &lines) {
        Ok(object) => Ok(object),
        Err(_) => Err(AsmRefusal::NoMemory),
    }
}

/// A text is an assembly, which [`assemble`] takes, where its first line begins the section,
/// it names no symbol and no label twice, it defines each symbol that it exports, and has each label that it goes to, in
/// reach.
pub fn ordered_lines_are_assembled()
    ensures { (statements : List Statement) → AreOrdered statements
        → IsAssembly (text_of_lines (map statement_line statements)) statements }
{}
