//! Repetitions.
ghost use Rattle.std.specs.Prelude.{◌≡◌, fold, false};
ghost use Rattle.ir_rules.specs.Laws.{Lawful};
ghost use Rattle.ir_rules.specs.Reading.{Gives, GivesUnless};
ghost use Rattle.ir_rules.specs.Repeats.{into, prefixed};
ghost use Rattle.ir_rules.specs.Rules.{dropped, each};

use crate::element::{Element, Fold};
use crate::end::End;
use ir_words::Cursor;
use std::alloc::Global;

/// Reads as many as begin, and appends them to a list.
///
/// # Errors
///
/// `Bad` at the first token that can't stand there, `NoMemory` if memory runs out.
pub fn append_each<'t, E: Element>(
    element: &E,
    list: Vec<E::Tree>,
    rest: Cursor<'t>,
) -> Result<(Vec<E::Tree>, Cursor<'t>), End>
    requires law { Lawful (E.rule element.now) }
    requires some { (E.rule element.now).nullable ≡ false }
    ensures { Gives (λ x. (x.0.items, x.1)) result (prefixed list.items ((each (E.rule element.now)).read rest.entry)) }
{
    let mut list = list;
    let mut rest = rest;
    while element.begins(rest.first()) {
        let (tree, after) = element.read(rest)?;
        list.push(tree)?;
        rest = after;
    }
    Ok((list, rest))
}

/// Reads as many as begin, of which nothing is kept.
///
/// # Errors
///
/// `Bad` at the first token that can't stand there, `NoMemory` if memory runs out.
pub fn skip_each<'t, E: Element>(element: &E, rest: Cursor<'t>) -> Result<Cursor<'t>, End>
    requires law { Lawful (E.rule element.now) }
    requires some { (E.rule element.now).nullable ≡ false }
    ensures { GivesUnless E.takes_memory (λ rest. (tt, rest)) result ((dropped (E.rule element.now)).read rest.entry) }
{
    let mut rest = rest;
    while element.begins(rest.first()) {
        let (tree, after) = element.read(rest)?;
        drop(tree);
        rest = after;
    }
    Ok(rest)
}

/// Reads as many as begin.
///
/// # Errors
///
/// `Bad` at the first token that can't stand there, `NoMemory` if memory runs out.
pub fn read_each<'t, E: Element>(
    alloc: Global,
    element: &E,
    rest: Cursor<'t>,
) -> Result<(Vec<E::Tree>, Cursor<'t>), End>
    requires law { Lawful (E.rule element.now) }
    requires some { (E.rule element.now).nullable ≡ false }
    ensures { Gives (λ x. (x.0.items, x.1)) result ((each (E.rule element.now)).read rest.entry) }
{
    append_each(element, Vec::new(alloc), rest)
}

/// Reads as many as begin, and goes on from what others gave.
///
/// # Errors
///
/// `Bad` at the first token that can't stand there, `NoMemory` if memory runs out.
pub fn fold_each<'t, F: Fold>(
    element: &F,
    all: F::All,
    rest: Cursor<'t>,
) -> Result<(F::All, Cursor<'t>), End>
    requires law { Lawful (F.Element.rule element.now) }
    requires some { (F.Element.rule element.now).nullable ≡ false }
    ensures { GivesUnless F.Element.takes_memory (λ x. x) result (into (λ found. fold F.next all found) ((each (F.Element.rule element.now)).read rest.entry)) }
{
    let mut all = all;
    let mut rest = rest;
    while element.begins(rest.first()) {
        let (tree, after) = element.read(rest)?;
        all = element.next(all, tree);
        rest = after;
    }
    Ok((all, rest))
}
