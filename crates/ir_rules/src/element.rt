//! Parts that stand several times, or may be left out.
ghost use Rattle.std.specs.Prelude.{◌≡◌};
ghost use Rattle.ir_rules.specs.Reading.{GivesUnless};
ghost use Rattle.ir_rules.specs.Rules.{Rule, has, ◌▷◌};
ghost use Rattle.ir_words.specs.declared.class.Class.TheVariants.{Comma};

use crate::end::End;
use crate::token::word;
use ir_words::{Class, Cursor};

/// The reader of a part that may stand several times, or be left out.
pub trait Element {
    /// What is read.
    type Tree: Drop;

    /// Its rule of the grammar.
    ghost rule: { Self → Rule Self.Tree };

    /// Whether memory may run out.
    ghost takes_memory: { Type 0 };

    /// Whether a token of a class begins it.
    fn begins(&self, class: Class) -> bool
        ensures { result ≡ has (rule self.now).firsts class };

    /// Reads it.
    ///
    /// # Errors
    ///
    /// `Bad` at the first token that can't stand there, `NoMemory` if memory runs out.
    fn read<'t>(&self, rest: Cursor<'t>) -> Result<(Self::Tree, Cursor<'t>), End>
        ensures { GivesUnless takes_memory (λ x. x) result ((rule self.now).read rest.entry) };
}

/// The reader of a part that may stand several times, all of which give one tree.
pub trait Fold: Element {
    /// What they give.
    type All: Drop;

    ghost next: { Self.All → Self.Tree → Self.All };

    /// What all give with one more.
    fn next(&self, all: Self::All, tree: Self::Tree) -> Self::All
        ensures { result ≡ next all tree };
}

/// The reader of a part after a comma.
#[derive(Drop)]
pub(crate) struct AfterComma<'e, E> {
    pub(crate) element: &'e E,
}

impl<'e, E: Element> Element for AfterComma<'e, E> {
    type Tree = E::Tree;

    ghost rule = { λ after. Comma ▷ E.rule after.element.now };

    ghost takes_memory = { E.takes_memory };

    fn begins(&self, class: Class) -> bool {
        class == Class::Comma
    }

    fn read<'t>(&self, rest: Cursor<'t>) -> Result<(E::Tree, Cursor<'t>), End> {
        let rest = word(rest, Class::Comma)?;
        self.element.read(rest)
    }
}
