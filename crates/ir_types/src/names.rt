//! Names as tokens write them (LangRef, "Identifiers").
ghost use Rattle.std.specs.Prelude.{◌≡◌, drop, IfOk};
ghost use Rattle.ir_words.specs.Classes.{head_line, head_text};
ghost use Rattle.ir_types.specs.Names.{between_quotes, name_of, sigil_name};

use crate::digits::item_number;
use crate::quoted::unescaped;
use ir_ident::{Identifier, Name, NameUse};
use ir_lex::{byte_at, prefix_of, rest_of};
use ir_words::{Cursor, are_digits};
use std::alloc::{AllocError, Global};

/// What stands between quotes.
fn between_quotes(text: &[u8]) -> &[u8]
    ensures { result.now ≡ between_quotes text.now }
{
    prefix_of(rest_of(text, 1), text.len().saturating_sub(2))
}

/// The name that these bytes write, without its sigil or its colon: a number, a string in quotes,
/// or the name itself.
#[tactic(auto, unfolding(crate::specs::Names::name_of))]
pub fn name_of(alloc: Global, text: &[u8]) -> Result<Name, AllocError>
    ensures { IfOk result (λ name. name ≡ name_of text.now) }
{
    if are_digits(text) {
        return Ok(Name::Unnamed(item_number(alloc, text)?));
    }
    let bytes = if byte_at(text, 0) == b'"' {
        let bytes = unescaped(alloc, between_quotes(text))?;
        Identifier::from_slice(alloc, bytes.as_slice())?
    } else {
        Identifier::from_slice(alloc, text)?
    };
    Ok(Name::Named(bytes))
}

/// Reads the name that the first token writes behind its sigil.
pub(crate) fn name_here<'t>(
    alloc: Global,
    rest: Cursor<'t>,
) -> Result<(Name, Cursor<'t>), AllocError>
    ensures { IfOk result (λ x. x ≡ (sigil_name (head_text rest.entry), drop 1 rest.entry)) }
{
    let name = name_of(alloc, rest_of(rest.text(), 1))?;
    Ok((name, rest.skip()))
}

/// Reads the name that the first token writes behind its sigil, with its line.
pub fn use_here<'t>(alloc: Global, rest: Cursor<'t>) -> Result<(NameUse, Cursor<'t>), AllocError>
    ensures { IfOk result (λ x. x ≡ (record { line = head_line rest.entry; name = sigil_name (head_text rest.entry) }, drop 1 rest.entry)) }
{
    let line = rest.line();
    let (name, rest) = name_here(alloc, rest)?;
    Ok((NameUse { line, name }, rest))
}
