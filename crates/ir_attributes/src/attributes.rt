//! Attributes and attached metadata (LangRef, "Parameter Attributes" and "Metadata").
ghost use Rattle.std.specs.Prelude.{◌≡◌, None};
ghost use Rattle.ir_attributes.specs.Attributes.{alignment_of, alignments, an_attribute, attachment, attachments, attribute_firsts, attributes, later, no_alignment, round_brackets};
ghost use Rattle.ir_rules.specs.Reading.{Gives, GivesExactly};
ghost use Rattle.ir_rules.specs.Rules.{has, made, option, word, ◌▷◌};
ghost use Rattle.ir_words.specs.declared.class.Class.TheVariants.{Attribute, Equal, Str};

use ir_rules::{
    Bracket, Element, End, Fold, fold_each, skip_each_after_comma, skip_enclosed, word,
};
use ir_syntax::Literal;
use ir_types::read_literal;
use ir_words::{Class, Cursor};
use std::alloc::Global;

/// An alignment as an item keeps it: one below 0 or above 2^63 is kept as 0, which none may be.
fn alignment_of(literal: Literal) -> u64
    ensures { result ≡ alignment_of literal }
{
    if literal.negative || literal.magnitude > 1 << 63 {
        0
    } else {
        literal.magnitude as u64
    }
}

/// Reads `align` and a number.
///
/// # Errors
///
/// `Bad` at the first token that can't stand there.
pub fn read_alignment<'t>(rest: Cursor<'t>) -> Result<(u64, Cursor<'t>), End>
    ensures { GivesExactly (λ x. x) result (alignments.read rest.entry) }
{
    let rest = word(rest, Class::Align)?;
    let (literal, rest) = read_literal(rest)?;
    Ok((alignment_of(literal), rest))
}

/// Reads two metadata names.
///
/// # Errors
///
/// `Bad` at the first token that can't stand there.
pub fn read_attachment<'t>(rest: Cursor<'t>) -> Result<Cursor<'t>, End>
    ensures { GivesExactly (λ rest. (tt, rest)) result (attachment.read rest.entry) }
{
    let rest = word(rest, Class::Meta)?;
    word(rest, Class::Meta)
}

/// The reader of one attachment: two metadata names.
#[derive(Drop)]
pub struct AttachmentReader;

impl Element for AttachmentReader {
    type Tree = ();

    ghost rule = { λ _. attachment };

    ghost takes_memory = { ⊥ };

    fn begins(&self, class: Class) -> bool {
        class == Class::Meta
    }

    fn read<'t>(&self, rest: Cursor<'t>) -> Result<((), Cursor<'t>), End> {
        Ok(((), read_attachment(rest)?))
    }
}

/// Reads attached metadata, each after a comma.
///
/// # Errors
///
/// `Bad` at the first token that can't stand there.
#[tactic(auto, using(crate::proofs::AttributeLaws::attachment_law), unfolding(crate::specs::Attributes::attachment_list))]
pub fn skip_attachments<'t>(rest: Cursor<'t>) -> Result<Cursor<'t>, End>
    ensures { GivesExactly (λ rest. (tt, rest)) result (attachments.read rest.entry) }
{
    skip_each_after_comma(&AttachmentReader, rest)
}

/// Reads `(`, all up to the `)` that closes it, and that one.
///
/// # Errors
///
/// `Bad` at the first token that can't stand there, `NoMemory` if memory runs out.
pub fn skip_round_brackets<'t>(alloc: Global, rest: Cursor<'t>) -> Result<Cursor<'t>, End>
    ensures { Gives (λ rest. (tt, rest)) result (round_brackets.read rest.entry) }
{
    skip_enclosed(alloc, rest, Bracket::Round)
}

/// Reads the word of an attribute, and what it says between brackets.
fn skip_word_attribute<'t>(alloc: Global, rest: Cursor<'t>) -> Result<Cursor<'t>, End>
    ensures { Gives (λ rest. (None, rest)) result ((made no_alignment (Attribute ▷ option round_brackets)).read rest.entry) }
{
    let rest = word(rest, Class::Attribute)?;
    match rest.first() {
        Class::OpenRound => skip_round_brackets(alloc, rest),
        _ => Ok(rest),
    }
}

/// Reads a string as an attribute, and the string that is its value.
fn skip_string_attribute<'t>(rest: Cursor<'t>) -> Result<Cursor<'t>, End>
    ensures { GivesExactly (λ rest. (None, rest)) result ((made no_alignment (Str ▷ option (Equal ▷ word Str))).read rest.entry) }
{
    let rest = word(rest, Class::Str)?;
    match rest.first() {
        Class::Equal => word(rest.skip(), Class::Str),
        _ => Ok(rest),
    }
}

/// Reads an attribute; an alignment alone is kept.
///
/// # Errors
///
/// `Bad` at the first token that can't stand there, `NoMemory` if memory runs out.
#[tactic(auto, unfolding(crate::specs::Attributes::attribute_forms))]
pub fn read_attribute<'t>(alloc: Global, rest: Cursor<'t>) -> Result<(Option<u64>, Cursor<'t>), End>
    ensures { Gives (λ x. x) result (an_attribute.read rest.entry) }
{
    match rest.first() {
        Class::Attribute => Ok((None, skip_word_attribute(alloc, rest)?)),
        Class::Align => {
            let (alignment, rest) = read_alignment(rest)?;
            Ok((Some(alignment), rest))
        }
        Class::Str => Ok((None, skip_string_attribute(rest)?)),
        _ => Ok((None, word(rest, Class::Attr)?)),
    }
}

/// The alignment after one more attribute: the last one counts.
pub fn later(before: Option<u64>, found: Option<u64>) -> Option<u64>
    ensures { result ≡ later before found }
{
    found.or(before)
}

/// Whether a token of a class begins an attribute.
pub fn begins_attribute(class: Class) -> bool
    ensures { result ≡ has attribute_firsts class }
{
    matches!(
        class,
        Class::Attribute | Class::Align | Class::Str | Class::Attr
    )
}

/// The reader of one attribute.
#[derive(Drop)]
struct AttributeReader {
    alloc: Global,
}

impl Element for AttributeReader {
    type Tree = Option<u64>;

    ghost rule = { λ _. an_attribute };

    ghost takes_memory = { Unit {0} };

    fn begins(&self, class: Class) -> bool {
        begins_attribute(class)
    }

    fn read<'t>(&self, rest: Cursor<'t>) -> Result<(Option<u64>, Cursor<'t>), End> {
        read_attribute(self.alloc, rest)
    }
}

impl Fold for AttributeReader {
    type All = Option<u64>;

    ghost next = { later };

    fn next(&self, all: Option<u64>, tree: Option<u64>) -> Option<u64> {
        later(all, tree)
    }
}

/// Reads attributes; of several alignments the last one counts.
///
/// # Errors
///
/// `Bad` at the first token that can't stand there, `NoMemory` if memory runs out.
#[tactic(auto, using(crate::proofs::AttributeLaws::an_attribute_law), unfolding(crate::specs::Attributes::attribute_list))]
pub fn read_attributes<'t>(
    alloc: Global,
    rest: Cursor<'t>,
) -> Result<(Option<u64>, Cursor<'t>), End>
    ensures { Gives (λ x. x) result (attributes.read rest.entry) }
{
    fold_each(&AttributeReader { alloc }, None, rest)
}
