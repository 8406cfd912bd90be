//! What stands before a global's type or a function's result: who sees it, and how (LangRef,
//! "Linkage Types" and "Visibility Styles").
ghost use Rattle.std.specs.Prelude.{◌≡◌, ◌++◌};
ghost use Rattle.ir_globals.specs.Heads.{address_firsts, addresses, later_seen, linkage, local_linkage, mark_firsts, marks, style_firsts, styles, visibility};
ghost use Rattle.ir_rules.specs.Reading.{GivesExactly};
ghost use Rattle.ir_rules.specs.Rules.{has};

use ir_calls::{is_convention, skip_convention};
use ir_rules::{Element, End, Fold, bad, fold_each};
use ir_syntax::{Linkage, Visibility};
use ir_words::{Class, Cursor};

/// Reads `private` or `internal`, or nothing.
///
/// # Errors
///
/// None: without either word it is seen outside.
#[tactic(auto, unfolding(crate::specs::Heads::local_linkage_forms))]
pub(crate) fn read_local_linkage<'t>(rest: Cursor<'t>) -> Result<(Linkage, Cursor<'t>), End>
    ensures { GivesExactly (λ x. x) result (local_linkage.read rest.entry) }
{
    match rest.first() {
        Class::Private | Class::Internal => Ok((Linkage::Internal, rest.skip())),
        _ => Ok((Linkage::External, rest)),
    }
}

/// Reads `private`, `internal` or `external`, or nothing.
///
/// # Errors
///
/// None: without any of the words it is seen outside.
#[tactic(auto, unfolding(crate::specs::Heads::linkage_forms))]
pub fn read_linkage<'t>(rest: Cursor<'t>) -> Result<(Linkage, Cursor<'t>), End>
    ensures { GivesExactly (λ x. x) result (linkage.read rest.entry) }
{
    match rest.first() {
        Class::External => Ok((Linkage::External, rest.skip())),
        _ => read_local_linkage(rest),
    }
}

/// Reads a visibility.
#[tactic(auto, unfolding(crate::specs::Heads::style_forms))]
fn read_style<'t>(rest: Cursor<'t>) -> Result<(Visibility, Cursor<'t>), End>
    ensures { GivesExactly (λ x. x) result (styles.read rest.entry) }
{
    let style = match rest.first() {
        Class::Default => Visibility::Default,
        Class::Hidden => Visibility::Hidden,
        Class::Protected => Visibility::Protected,
        _ => return Err(bad(&rest)),
    };
    Ok((style, rest.skip()))
}

/// Reads a word that says how the address may be used.
#[tactic(auto, unfolding(crate::specs::Heads::address_forms))]
fn read_address_mark<'t>(rest: Cursor<'t>) -> Result<Cursor<'t>, End>
    ensures { GivesExactly (λ rest. (tt, rest)) result (addresses.read rest.entry) }
{
    match rest.first() {
        Class::DsoLocal
        | Class::DsoPreemptable
        | Class::UnnamedAddr
        | Class::LocalUnnamedAddr
        | Class::ExternallyInitialized => Ok(rest.skip()),
        _ => Err(bad(&rest)),
    }
}

/// Reads one word of those that may stand in any number; only a visibility says something.
#[tactic(auto, unfolding(crate::specs::Heads::mark_forms))]
fn read_mark<'t>(rest: Cursor<'t>) -> Result<(Option<Visibility>, Cursor<'t>), End>
    ensures { GivesExactly (λ x. x) result (marks.read rest.entry) }
{
    match rest.first() {
        Class::Default | Class::Hidden | Class::Protected => {
            let (style, rest) = read_style(rest)?;
            Ok((Some(style), rest))
        }
        Class::DsoLocal
        | Class::DsoPreemptable
        | Class::UnnamedAddr
        | Class::LocalUnnamedAddr
        | Class::ExternallyInitialized => Ok((None, read_address_mark(rest)?)),
        _ => Ok((None, skip_convention(rest)?)),
    }
}

/// Whether a token of a class is a visibility, or a word on the address.
fn is_style_or_address(class: Class) -> bool
    ensures { result ≡ has (style_firsts ++ address_firsts) class }
{
    matches!(
        class,
        Class::Default
            | Class::Hidden
            | Class::Protected
            | Class::DsoLocal
            | Class::DsoPreemptable
            | Class::UnnamedAddr
            | Class::LocalUnnamedAddr
            | Class::ExternallyInitialized
    )
}

/// Whether a token of a class is one of those words.
fn is_mark(class: Class) -> bool
    ensures { result ≡ has mark_firsts class }
{
    is_style_or_address(class) | is_convention(class)
}

/// The visibility after one more word: the last one counts.
fn later_seen(before: Visibility, found: Option<Visibility>) -> Visibility
    ensures { result ≡ later_seen before found }
{
    found.unwrap_or(before)
}

/// The reader of one of those words.
#[derive(Drop)]
struct MarkReader;

impl Element for MarkReader {
    type Tree = Option<Visibility>;

    ghost rule = { λ _. marks };

    ghost takes_memory = { ⊥ };

    fn begins(&self, class: Class) -> bool {
        is_mark(class)
    }

    fn read<'t>(&self, rest: Cursor<'t>) -> Result<(Option<Visibility>, Cursor<'t>), End> {
        read_mark(rest)
    }
}

impl Fold for MarkReader {
    type All = Visibility;

    ghost next = { later_seen };

    fn next(&self, all: Visibility, tree: Option<Visibility>) -> Visibility {
        later_seen(all, tree)
    }
}

/// Reads those words in any number; of several visibilities the last one counts.
///
/// # Errors
///
/// None: at the first token that is none of the words it ends.
#[tactic(auto, using(crate::proofs::HeadLaws::marks_law), unfolding(crate::specs::Heads::visibility_forms))]
pub fn read_visibility<'t>(rest: Cursor<'t>) -> Result<(Visibility, Cursor<'t>), End>
    ensures { GivesExactly (λ x. x) result (visibility.read rest.entry) }
{
    fold_each(&MarkReader, Visibility::Default, rest)
}
