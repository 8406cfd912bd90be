//! Items at the top of a module that mean nothing here: its source, its target, groups of attributes,
//! and metadata (LangRef, "Module Structure", "Attribute Groups" and "Metadata").
ghost use Rattle.std.specs.Prelude.{◌≡◌, Some, None, if◌then◌else◌};
ghost use Rattle.ir_words.specs.declared.class.Class.TheVariants.{Datalayout, Distinct, Triple};
ghost use Rattle.ir_rules.specs.Reading.{Gives, GivesExactly};
ghost use Rattle.ir_rules.specs.Rules.{either, has, option, word};
ghost use Rattle.ir_attributes.specs.Ignored.{attribute_group, ignored, ignored_firsts, metadata, metadata_body, metadata_kind, source_filename, target};

use crate::attributes::skip_round_brackets;
use ir_rules::{Bracket, End, skip_enclosed, word};
use ir_words::{Class, Cursor};
use std::alloc::Global;

/// Skips the name of the source.
fn skip_source_filename<'t>(rest: Cursor<'t>) -> Result<Cursor<'t>, End>
    ensures { GivesExactly (λ rest. (tt, rest)) result (source_filename.read rest.entry) }
{
    let rest = word(rest, Class::SourceFilename)?;
    let rest = word(rest, Class::Equal)?;
    word(rest, Class::Str)
}

/// Skips what is said about the target.
fn skip_target_word<'t>(rest: Cursor<'t>) -> Result<Cursor<'t>, End>
    ensures { GivesExactly (λ rest. (tt, rest)) result ((either (word Triple) (word Datalayout)).read rest.entry) }
{
    match rest.first() {
        Class::Triple => Ok(rest.skip()),
        _ => word(rest, Class::Datalayout),
    }
}

/// Skips the triple or the data layout of the target.
fn skip_target<'t>(rest: Cursor<'t>) -> Result<Cursor<'t>, End>
    ensures { GivesExactly (λ rest. (tt, rest)) result (target.read rest.entry) }
{
    let rest = word(rest, Class::Target)?;
    let rest = skip_target_word(rest)?;
    let rest = word(rest, Class::Equal)?;
    word(rest, Class::Str)
}

/// Skips a group of attributes.
fn skip_attribute_group<'t>(alloc: Global, rest: Cursor<'t>) -> Result<Cursor<'t>, End>
    ensures { Gives (λ rest. (tt, rest)) result (attribute_group.read rest.entry) }
{
    let rest = word(rest, Class::Attributes)?;
    let rest = word(rest, Class::Attr)?;
    let rest = word(rest, Class::Equal)?;
    skip_enclosed(alloc, rest, Bracket::Curly)
}

/// Reads `distinct`, where it stands: whether it does.
fn read_distinct<'t>(rest: Cursor<'t>) -> Result<(bool, Cursor<'t>), End>
    ensures { GivesExactly (λ x. (if x.0 then Some tt else None, x.1)) result ((option (word Distinct)).read rest.entry) }
{
    match rest.first() {
        Class::Distinct => Ok((true, rest.skip())),
        _ => Ok((false, rest)),
    }
}

/// Skips a kind of metadata, and its fields.
fn skip_kind<'t>(alloc: Global, rest: Cursor<'t>) -> Result<Cursor<'t>, End>
    ensures { Gives (λ rest. (tt, rest)) result (metadata_kind.read rest.entry) }
{
    let rest = word(rest, Class::Meta)?;
    match rest.first() {
        Class::OpenRound => skip_round_brackets(alloc, rest),
        _ => Ok(rest),
    }
}

/// Skips what metadata stands for.
///
/// # Errors
///
/// `Bad` at the first token that can't stand there, `NoMemory` if memory runs out.
pub fn skip_metadata_body<'t>(alloc: Global, rest: Cursor<'t>) -> Result<Cursor<'t>, End>
    ensures { Gives (λ rest. (tt, rest)) result (metadata_body.read rest.entry) }
{
    match rest.first() {
        Class::Meta => skip_kind(alloc, rest),
        _ => {
            let rest = word(rest, Class::Bang)?;
            skip_enclosed(alloc, rest, Bracket::Curly)
        }
    }
}

/// Skips the definition of metadata.
fn skip_metadata<'t>(alloc: Global, rest: Cursor<'t>) -> Result<Cursor<'t>, End>
    ensures { Gives (λ rest. (tt, rest)) result (metadata.read rest.entry) }
{
    let rest = word(rest, Class::Meta)?;
    let rest = word(rest, Class::Equal)?;
    let (_, rest) = read_distinct(rest)?;
    skip_metadata_body(alloc, rest)
}

/// Skips an item at the top of a module that means nothing here.
///
/// # Errors
///
/// `Bad` at the first token that can't stand there, `NoMemory` if memory runs out.
#[tactic(auto, unfolding(crate::specs::Ignored::ignored_forms))]
pub fn skip_ignored<'t>(alloc: Global, rest: Cursor<'t>) -> Result<Cursor<'t>, End>
    ensures { Gives (λ rest. (tt, rest)) result (ignored.read rest.entry) }
{
    match rest.first() {
        Class::SourceFilename => Ok(skip_source_filename(rest)?),
        Class::Target => Ok(skip_target(rest)?),
        Class::Attributes => skip_attribute_group(alloc, rest),
        _ => skip_metadata(alloc, rest),
    }
}

/// Whether a token of a class begins such an item.
pub fn begins_ignored(class: Class) -> bool
    ensures { result ≡ has ignored_firsts class }
{
    matches!(
        class,
        Class::SourceFilename | Class::Target | Class::Attributes | Class::Meta
    )
}
