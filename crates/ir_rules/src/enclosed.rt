//! Tokens between brackets, skipped.
ghost use Rattle.std.specs.Prelude.{◌≡◌, ◌∷◌, reverse};
ghost use Rattle.ir_rules.specs.Balance.{Passes, enclosed};
ghost use Rattle.ir_rules.specs.Reading.{Gives};

use crate::bracket::{Bracket, Role, opener, role_of};
use crate::end::End;
use crate::token::{bad, word};
use ir_words::Cursor;
use std::alloc::{AllocError, Global};

/// Passes the first token, where `last` is the innermost bracket that is open and `awaited` has those
/// round it, the innermost at its end.
///
/// # Errors
///
/// `Bad` at this token if it closes another bracket, or at the end.
fn pass(rest: &Cursor<'_>, last: Bracket, awaited: &mut Vec<Bracket>) -> Result<(), End>
    ensures { Passes result (last ∷ reverse awaited.old.items) rest.now (reverse awaited.new.items) }
{
    match role_of(rest.first()) {
        Role::Opens(next) => {
            awaited.push(last)?;
            awaited.push(next)?;
        }
        Role::Closes(next) => {
            if next != last {
                return Err(bad(rest));
            }
        }
        Role::Plain => {
            if rest.len() == 0 {
                return Err(bad(rest));
            }
            awaited.push(last)?;
        }
    }
    Ok(())
}

/// Skips a bracket, all up to the one that closes it, and that one.
///
/// # Errors
///
/// `Bad` at the first token that is no such bracket or closes one that is not the last open one, or
/// at the end.
pub fn skip_enclosed<'t>(
    alloc: Global,
    rest: Cursor<'t>,
    bracket: Bracket,
) -> Result<Cursor<'t>, End>
    ensures { Gives (λ rest. (tt, rest)) result ((enclosed bracket).read rest.entry) }
{
    let mut rest = word(rest, opener(bracket))?;
    let mut awaited = Vec::new(alloc);
    awaited.push(bracket)?;
    while let Some(last) = awaited.pop() {
        pass(&rest, last, &mut awaited)?;
        rest = rest.skip();
    }
    Ok(rest)
}
