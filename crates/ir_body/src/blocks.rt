//! Basic blocks (LangRef, "Functions").
ghost use Rattle.std.specs.Prelude.{◌≡◌, ◌∷◌, []};
ghost use Rattle.ir_body.specs.Blocks.{block_firsts, blocks, first_place, labels};
ghost use Rattle.ir_rules.specs.Reading.{Gives};
ghost use Rattle.ir_rules.specs.Rules.{has, option};
ghost use Rattle.ir_words.specs.declared.class.Class.TheVariants as Classes;

use crate::statement::Place;
use crate::statements::{begins_statement, read_block_parts};
use ir_ident::Name;
use ir_rules::End;
use ir_syntax::Block;
use ir_terms::{begins_term, read_term};
use ir_types::name_of;
use ir_words::{Class, Cursor};
use std::alloc::Global;

/// Reads a label where one stands.
fn read_label<'t>(alloc: Global, rest: Cursor<'t>) -> Result<(Option<Name>, Cursor<'t>), End>
    ensures { Gives (λ x. x) result ((option labels).read rest.entry) }
{
    match rest.first() {
        Class::Label => {
            let text = rest.text();
            let name = name_of(alloc, &text[..text.len().saturating_sub(1)])?;
            Ok((Some(name), rest.skip()))
        }
        _ => Ok((None, rest)),
    }
}

/// Whether a token of a class is a label.
fn is_label(class: Class) -> bool
    ensures { result ≡ has (Classes.Label ∷ []) class }
{
    class == Class::Label
}

/// Whether a token of a class begins a block.
pub fn begins_block(class: Class) -> bool
    ensures { result ≡ has block_firsts class }
{
    is_label(class) | begins_term(class) | begins_statement(class)
}

/// The place at the start of the first block of a function, or of another one.
fn first_place(first: bool) -> Place
    ensures { result ≡ first_place first }
{
    if first { Place::Entry } else { Place::PhisOnly }
}

/// Reads a block; the first one of a function or another.
#[tactic(auto, unfolding(crate::specs::Blocks::block_forms))]
pub(crate) fn read_block_text<'t>(
    alloc: Global,
    rest: Cursor<'t>,
    first: bool,
) -> Result<(Block, Cursor<'t>), End>
    ensures { Gives (λ x. x) result ((blocks first).read rest.entry) }
{
    let line = rest.line();
    let (label, rest) = read_label(alloc, rest)?;
    let ((phis, instrs), rest) = read_block_parts(alloc, rest, first_place(first))?;
    let (term, rest) = read_term(alloc, rest)?;
    let label = label.unwrap_or(Name::Implicit);
    Ok((
        Block {
            line,
            label,
            phis,
            instrs,
            term,
        },
        rest,
    ))
}
