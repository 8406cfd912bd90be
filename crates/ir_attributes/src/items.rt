//! Items that each follow a comma, and attached metadata behind them.
ghost use Rattle.std.specs.Prelude.{◌≡◌, ◌∷◌, [], false, true};
ghost use Rattle.ir_attributes.specs.Items.{items, may_follow, next_item, next_part};
ghost use Rattle.ir_rules.specs.Laws.{Lawful};
ghost use Rattle.ir_rules.specs.Reading.{Gives, GivesUnless};
ghost use Rattle.ir_rules.specs.Rules.{apart};
ghost use Rattle.ir_words.specs.declared.class.Class.TheVariants.{Meta};

use crate::attributes::read_attachment;
use ir_rules::{Element, End, push_found, word};
use ir_words::{Class, Cursor};
use std::alloc::Global;

/// Reads what follows an item: another one, or metadata.
fn read_next_item<'t, E: Element>(
    item: &E,
    rest: Cursor<'t>,
) -> Result<(Option<E::Tree>, Cursor<'t>), End>
    ensures { GivesUnless E.takes_memory (λ x. x) result ((next_item (E.rule item.now)).read rest.entry) }
{
    let rest = word(rest, Class::Comma)?;
    match rest.first() {
        Class::Meta => {
            let rest = read_attachment(rest)?;
            Ok((None, rest))
        }
        _ => {
            let (tree, rest) = item.read(rest)?;
            Ok((Some(tree), rest))
        }
    }
}

/// Reads what follows an item; another one only where `before` says so.
#[tactic(auto, unfolding(crate::specs::Items::next_part))]
fn read_next_part<'t, E: Element>(
    item: &E,
    rest: Cursor<'t>,
    before: bool,
) -> Result<(Option<E::Tree>, Cursor<'t>), End>
    ensures { GivesUnless E.takes_memory (λ x. x) result ((next_part (E.rule item.now) before).read rest.entry) }
{
    if before {
        return read_next_item(item, rest);
    }
    let rest = word(rest, Class::Comma)?;
    let rest = read_attachment(rest)?;
    Ok((None, rest))
}

/// Whether an item may follow what was found.
fn may_follow<T>(before: bool, found: &Option<T>) -> bool
    ensures { result ≡ may_follow before found.now }
{
    match found {
        Some(_) => before,
        None => false,
    }
}

/// Reads items that each follow a comma, and attached metadata behind them.
///
/// # Errors
///
/// `Bad` at the first token that can't stand there, `NoMemory` if memory runs out.
#[tactic(auto, unfolding(crate::specs::Items::item_forms))]
pub fn read_items<'t, E: Element>(
    alloc: Global,
    item: &E,
    rest: Cursor<'t>,
) -> Result<(Vec<E::Tree>, Cursor<'t>), End>
    requires law { Lawful (E.rule item.now) }
    requires some { (E.rule item.now).nullable ≡ false }
    requires last { (E.rule item.now).flast ≡ [] }
    requires other { apart (E.rule item.now).firsts (Meta ∷ []) ≡ true }
    ensures { Gives (λ x. (x.0.items, x.1)) result ((items (E.rule item.now)).read rest.entry) }
{
    let mut rest = rest;
    let mut list = Vec::new(alloc);
    let mut before = true;
    while rest.first() == Class::Comma {
        let (found, after) = read_next_part(item, rest, before)?;
        before = may_follow(before, &found);
        push_found(&mut list, found)?;
        rest = after;
    }
    Ok((list, rest))
}
