//! What a function says behind its parameters: attributes and attached metadata (LangRef,
//! "Functions").
ghost use Rattle.std.specs.Prelude.{◌≡◌, [], ◌∷◌};
ghost use Rattle.ir_words.specs.declared.class.Class.TheVariants as Classes;
ghost use Rattle.ir_rules.specs.Reading.{Gives, GivesExactly};
ghost use Rattle.ir_rules.specs.Rules.{dropped, has};
ghost use Rattle.ir_attributes.specs.Attributes.{attachment};
ghost use Rattle.ir_prototypes.specs.Prototypes.{declared_end_firsts, declared_ends, defined_ends};

use ir_attributes::{AttachmentReader, begins_attribute, read_attachment, read_attribute};
use ir_rules::{Element, End, skip_each, word};
use ir_words::{Class, Cursor};
use std::alloc::Global;

/// Skips metadata attached to a declaration.
#[tactic(auto, using(ir_attributes::proofs::AttributeLaws::attachment_law))]
pub fn skip_metadata<'t>(rest: Cursor<'t>) -> Result<Cursor<'t>, End>
    ensures { GivesExactly (λ rest. (tt, rest)) result ((dropped attachment).read rest.entry) }
{
    skip_each(&AttachmentReader, rest)
}

/// Skips an attribute of a declaration.
#[tactic(auto, unfolding(crate::specs::Prototypes::declared_end_forms))]
fn skip_declared_end<'t>(alloc: Global, rest: Cursor<'t>) -> Result<Cursor<'t>, End>
    ensures { Gives (λ rest. (tt, rest)) result (declared_ends.read rest.entry) }
{
    if begins_attribute(rest.first()) {
        let (_, rest) = read_attribute(alloc, rest)?;
        return Ok(rest);
    }
    match rest.first() {
        Class::UnnamedAddr => Ok(rest.skip()),
        _ => Ok(word(rest, Class::LocalUnnamedAddr)?),
    }
}

/// Whether a token of a class is a word on the address.
fn is_address_word(class: Class) -> bool
    ensures { result ≡ has (Classes.UnnamedAddr ∷ Classes.LocalUnnamedAddr ∷ []) class }
{
    matches!(class, Class::UnnamedAddr | Class::LocalUnnamedAddr)
}

/// Whether a token of a class begins an attribute of a declaration.
fn begins_declared_end(class: Class) -> bool
    ensures { result ≡ has declared_end_firsts class }
{
    begins_attribute(class) | is_address_word(class)
}

/// The reader of an attribute of a declaration.
#[derive(Drop)]
struct DeclaredEndReader {
    alloc: Global,
}

impl Element for DeclaredEndReader {
    type Tree = ();

    ghost rule = { λ _. declared_ends };

    ghost takes_memory = { Unit {0} };

    fn begins(&self, class: Class) -> bool {
        begins_declared_end(class)
    }

    fn read<'t>(&self, rest: Cursor<'t>) -> Result<((), Cursor<'t>), End> {
        Ok(((), skip_declared_end(self.alloc, rest)?))
    }
}

/// Skips the attributes of a declaration.
#[tactic(auto, using(crate::proofs::PrototypeLaws::declared_ends_law))]
pub fn skip_declared_ends<'t>(alloc: Global, rest: Cursor<'t>) -> Result<Cursor<'t>, End>
    ensures { Gives (λ rest. (tt, rest)) result ((dropped declared_ends).read rest.entry) }
{
    skip_each(&DeclaredEndReader { alloc }, rest)
}

/// Skips an attribute of a definition, or metadata.
#[tactic(auto, unfolding(crate::specs::Prototypes::defined_end_forms))]
fn skip_defined_end<'t>(alloc: Global, rest: Cursor<'t>) -> Result<Cursor<'t>, End>
    ensures { Gives (λ rest. (tt, rest)) result (defined_ends.read rest.entry) }
{
    match rest.first() {
        Class::Meta => Ok(read_attachment(rest)?),
        _ => skip_declared_end(alloc, rest),
    }
}

/// Whether a token of a class is a metadata name.
fn is_metadata_name(class: Class) -> bool
    ensures { result ≡ has (Classes.Meta ∷ []) class }
{
    class == Class::Meta
}

/// Whether a token of a class begins an attribute of a definition, or metadata.
fn begins_defined_end(class: Class) -> bool
    ensures { result ≡ has (Classes.Meta ∷ declared_end_firsts) class }
{
    is_metadata_name(class) | begins_declared_end(class)
}

/// The reader of an attribute of a definition, or of metadata.
#[derive(Drop)]
struct DefinedEndReader {
    alloc: Global,
}

impl Element for DefinedEndReader {
    type Tree = ();

    ghost rule = { λ _. defined_ends };

    ghost takes_memory = { Unit {0} };

    fn begins(&self, class: Class) -> bool {
        begins_defined_end(class)
    }

    fn read<'t>(&self, rest: Cursor<'t>) -> Result<((), Cursor<'t>), End> {
        Ok(((), skip_defined_end(self.alloc, rest)?))
    }
}

/// Skips the attributes of a definition, and metadata.
#[tactic(auto, using(crate::proofs::PrototypeLaws::defined_ends_law))]
pub fn skip_defined_ends<'t>(alloc: Global, rest: Cursor<'t>) -> Result<Cursor<'t>, End>
    ensures { Gives (λ rest. (tt, rest)) result ((dropped defined_ends).read rest.entry) }
{
    skip_each(&DefinedEndReader { alloc }, rest)
}
