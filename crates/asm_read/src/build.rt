//! The object of a text.
ghost use Rattle.std.specs.Prelude.{◌≡◌, ◌*◌, ◌++◌, ℕ, List, pos, false, not, length, IfOk, OnOk};
ghost use Rattle.std.specs.List.{All, list_any};
ghost use Rattle.asm_read.specs.Assembly.{IsObjectOf, exports, symbol_at};
ghost use Rattle.asm_read.specs.Checks.{has, in_line, is_far_at, place_in, statements_in};
ghost use Rattle.asm_read.specs.Labels.{aimed_at, code_at, is_some_and, misses, place, reaches};
ghost use Rattle.asm_line.specs.Statements.{IsStatement, defined};

use crate::labels::{going, place_of};
use crate::names::has_name;
use crate::object::{Needs, Object, ObjectSymbol, Section, Symbols, Words};
use rv_isa::{Inst, Line, Statement, SymName};
use std::alloc::{AllocError, Global};
use std::collections::{HashMap, HashSet};

/// The symbol of this name after so many instructions, where `globals` has the names that are
/// exported.
fn symbol_after(
    alloc: Global,
    instructions: usize,
    name: &SymName,
    globals: &HashSet<&[u8]>,
) -> Result<ObjectSymbol, AllocError>
    ensures { IfOk result (λ symbol. symbol ≡ record {
      name = name.now;
      global = has globals.now name.now;
      section = Section.Text;
      offset = pos (4 * instructions);
    }) }
{
    let bytes = name.as_bytes();
    Ok(ObjectSymbol {
        name: SymName::from_vec(Vec::from_slice(alloc, bytes)?),
        global: has_name(globals, bytes),
        section: Section::Text,
        offset: 4 * instructions as i128,
    })
}

/// The branch or jump after so many instructions, with its distance where its label has a place.
fn aimed(inst: Inst, here: usize, place: Option<usize>) -> Inst
    requires { is_some_and (λ there. not (reaches inst here there)) place ≡ false }
    ensures { result ≡ aimed_at inst here place }
{
    match place {
        Some(there) => going(inst, here, there),
        None => inst,
    }
}

/// Adds the instruction of a line, where `places` has the places of labels.
fn add_word(
    words: &mut Vec<Line>,
    line: &Option<Statement>,
    places: &HashMap<&[u8], usize>,
) -> Result<(), AllocError>
    requires { is_some_and (misses (place_in places.now) (length words.old.items)) line.now ≡ false }
    ensures { OnOk result (words.new.items
        ≡ words.old.items ++ in_line (code_at (place_in places.now) (length words.old.items)) line.now) }
{
    match line {
        Some(Statement::Code(inst)) => words.push(Line::Plain(*inst))?,
        Some(Statement::Unimp) => words.push(Line::Unimp)?,
        Some(Statement::ToLabel(inst, label)) => {
            let place = place_of(places, label.as_bytes());
            let inst = aimed(*inst, words.len(), place);
            words.push(Line::Plain(inst))?;
        }
        _ => {}
    }
    Ok(())
}

/// Adds the symbol of a line after so many instructions.
fn add_symbol(
    alloc: Global,
    symbols: &mut Vec<ObjectSymbol>,
    instructions: usize,
    line: &Option<Statement>,
    globals: &HashSet<&[u8]>,
) -> Result<(), AllocError>
    ensures { OnOk result
        (symbols.new.items ≡ symbols.old.items
        ++ in_line (λ statement. symbol_at (has globals.now) instructions (defined statement)) line.now) }
{
    if let Some(Statement::Define(name)) = line {
        symbols.push(symbol_after(alloc, instructions, name, globals)?)?;
    }
    Ok(())
}

/// The object of a text with these lines, where `globals` has the names that they export, and `places` the places of their
/// labels.
pub fn object_of(
    alloc: Global,
    lines: &[Option<Statement>],
    globals: &HashSet<&[u8]>,
    places: &HashMap<&[u8], usize>,
) -> Result<Object, AllocError>
    requires grammar { All IsStatement (statements_in lines.now) }
    requires globals { (q : List ℕ) → has globals.now q ≡ list_any (is_some_and (exports q)) lines.now }
    requires places { (q : List ℕ) → place_in places.now q ≡ place (statements_in lines.now) q }
    requires near { (k : ℕ) → is_far_at lines.now k ≡ false }
    ensures { IfOk result (IsObjectOf (statements_in lines.now)) }
{
    let mut words = Vec::new(alloc);
    let mut symbols = Vec::new(alloc);
    for line in lines {
        add_symbol(alloc, &mut symbols, words.len(), line, globals)?;
        add_word(&mut words, line, places)?;
    }
    Ok(Object {
        words: Words::from_vec(words),
        symbols: Symbols::from_vec(symbols),
        needs: Needs::from_vec(Vec::new(alloc)),
    })
}
