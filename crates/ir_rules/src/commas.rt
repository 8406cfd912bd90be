//! Parts that are separated by commas.
ghost use Rattle.std.specs.Prelude.{◌≡◌, false};
ghost use Rattle.ir_rules.specs.Laws.{Lawful};
ghost use Rattle.ir_rules.specs.Reading.{Gives, GivesUnless};
ghost use Rattle.ir_rules.specs.Repeats.{into};
ghost use Rattle.ir_rules.specs.Rules.{commas, commas_some, dropped, each, ◌▷◌};
ghost use Rattle.ir_words.specs.declared.class.Class.TheVariants.{Comma};

use crate::element::{AfterComma, Element};
use crate::end::End;
use crate::repeated::{append_each, read_each, skip_each};
use ir_words::Cursor;
use std::alloc::Global;

/// Reads one or more, separated by commas.
///
/// # Errors
///
/// `Bad` at the first token that can't stand there, `NoMemory` if memory runs out.
pub fn read_commas_some<'t, E: Element>(
    alloc: Global,
    element: &E,
    rest: Cursor<'t>,
) -> Result<(Vec<E::Tree>, Cursor<'t>), End>
    requires law { Lawful (E.rule element.now) }
    ensures { Gives (λ x. (x.0.items, x.1)) result ((commas_some (E.rule element.now)).read rest.entry) }
{
    let (first, rest) = element.read(rest)?;
    let mut list = Vec::new(alloc);
    list.push(first)?;
    append_each(&AfterComma { element }, list, rest)
}

/// Reads none or more, separated by commas.
///
/// # Errors
///
/// `Bad` at the first token that can't stand there, `NoMemory` if memory runs out.
pub fn read_commas<'t, E: Element>(
    alloc: Global,
    element: &E,
    rest: Cursor<'t>,
) -> Result<(Vec<E::Tree>, Cursor<'t>), End>
    requires law { Lawful (E.rule element.now) }
    requires some { (E.rule element.now).nullable ≡ false }
    ensures { Gives (λ x. (x.0.items, x.1)) result ((commas (E.rule element.now)).read rest.entry) }
{
    if element.begins(rest.first()) {
        read_commas_some(alloc, element, rest)
    } else {
        Ok((Vec::new(alloc), rest))
    }
}

/// Reads one or more, separated by commas, of which nothing is kept.
fn skip_commas_some<'t, E: Element>(element: &E, rest: Cursor<'t>) -> Result<Cursor<'t>, End>
    requires law { Lawful (E.rule element.now) }
    ensures { GivesUnless E.takes_memory (λ rest. (tt, rest)) result (into (λ xs. tt {0}) ((commas_some (E.rule element.now)).read rest.entry)) }
{
    let (first, rest) = element.read(rest)?;
    drop(first);
    skip_each(&AfterComma { element }, rest)
}

/// Reads none or more, separated by commas, of which nothing is kept.
///
/// # Errors
///
/// `Bad` at the first token that can't stand there, `NoMemory` if memory runs out.
pub fn skip_commas<'t, E: Element>(element: &E, rest: Cursor<'t>) -> Result<Cursor<'t>, End>
    requires law { Lawful (E.rule element.now) }
    requires some { (E.rule element.now).nullable ≡ false }
    ensures { GivesUnless E.takes_memory (λ rest. (tt, rest)) result (into (λ xs. tt {0}) ((commas (E.rule element.now)).read rest.entry)) }
{
    if element.begins(rest.first()) {
        skip_commas_some(element, rest)
    } else {
        Ok(rest)
    }
}

/// Reads as many as follow, each after a comma.
///
/// # Errors
///
/// `Bad` at the first token that can't stand there, `NoMemory` if memory runs out.
pub fn read_each_after_comma<'t, E: Element>(
    alloc: Global,
    element: &E,
    rest: Cursor<'t>,
) -> Result<(Vec<E::Tree>, Cursor<'t>), End>
    requires law { Lawful (E.rule element.now) }
    ensures { Gives (λ x. (x.0.items, x.1)) result ((each (Comma ▷ E.rule element.now)).read rest.entry) }
{
    read_each(alloc, &AfterComma { element }, rest)
}

/// Reads as many as follow, each after a comma, of which nothing is kept.
///
/// # Errors
///
/// `Bad` at the first token that can't stand there, `NoMemory` if memory runs out.
pub fn skip_each_after_comma<'t, E: Element>(
    element: &E,
    rest: Cursor<'t>,
) -> Result<Cursor<'t>, End>
    requires law { Lawful (E.rule element.now) }
    ensures { GivesUnless E.takes_memory (λ rest. (tt, rest)) result ((dropped (Comma ▷ E.rule element.now)).read rest.entry) }
{
    skip_each(&AfterComma { element }, rest)
}
