//! Tokens one at a time.
ghost use Rattle.std.specs.Prelude.{◌≡◌, length};
ghost use Rattle.ir_rules.specs.Reading.{GivesExactly};
ghost use Rattle.ir_rules.specs.Rules.{word};
ghost use Rattle.ir_rules.specs.declared.end.End.TheVariants.{Bad};

use crate::end::End;
use ir_words::{Class, Cursor, is_same};

/// The first token is bad.
pub fn bad(rest: &Cursor<'_>) -> End
    ensures { result ≡ Bad (length rest.now) }
{
    End::Bad(rest.len())
}

/// Reads a token of a class.
///
/// # Errors
///
/// `Bad` at this token if it is of another class.
pub fn word<'t>(rest: Cursor<'t>, class: Class) -> Result<Cursor<'t>, End>
    ensures { GivesExactly (λ rest. (tt, rest)) result ((word class).read rest.entry) }
{
    if is_same(class, rest.first()) {
        Ok(rest.skip())
    } else {
        Err(bad(&rest))
    }
}
