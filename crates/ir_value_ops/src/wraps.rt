//! Words that say that nothing wraps (LangRef, "'add' Instruction").
ghost use Rattle.std.specs.Prelude.{◌≡◌};
ghost use Rattle.ir_value_ops.specs.ValueOps.{with_wrap, wrap, wraps};
ghost use Rattle.ir_rules.specs.Reading.{GivesExactly};

use ir_rules::{Element, End, Fold, bad, fold_each};
use ir_words::{Class, Cursor};

/// Reads one word: true for `nuw`, false for `nsw`.
fn read_wrap<'t>(rest: Cursor<'t>) -> Result<(bool, Cursor<'t>), End>
    ensures { GivesExactly (λ x. x) result (wrap.read rest.entry) }
{
    match rest.first() {
        Class::Nuw => Ok((true, rest.skip())),
        Class::Nsw => Ok((false, rest.skip())),
        _ => Err(bad(&rest)),
    }
}

/// What is known of `nuw` and `nsw` after one more word.
fn with_wrap(wraps: (bool, bool), unsigned: bool) -> (bool, bool)
    ensures { result ≡ with_wrap wraps unsigned }
{
    (wraps.0 | unsigned, wraps.1 | !unsigned)
}

/// The reader of one of these words.
#[derive(Drop)]
struct WrapReader;

impl Element for WrapReader {
    type Tree = bool;

    ghost rule = { λ _. wrap };

    ghost takes_memory = { ⊥ };

    fn begins(&self, class: Class) -> bool {
        matches!(class, Class::Nuw | Class::Nsw)
    }

    fn read<'t>(&self, rest: Cursor<'t>) -> Result<(bool, Cursor<'t>), End> {
        read_wrap(rest)
    }
}

impl Fold for WrapReader {
    type All = (bool, bool);

    ghost next = { with_wrap };

    fn next(&self, all: (bool, bool), tree: bool) -> (bool, bool) {
        with_wrap(all, tree)
    }
}

/// Reads whether `nuw` and whether `nsw` stand here, each in any number.
#[tactic(auto, unfolding(crate::specs::ValueOps::wrap_forms))]
pub(crate) fn read_wraps<'t>(rest: Cursor<'t>) -> Result<((bool, bool), Cursor<'t>), End>
    ensures { GivesExactly (λ x. x) result (wraps.read rest.entry) }
{
    fold_each(&WrapReader, (false, false), rest)
}
