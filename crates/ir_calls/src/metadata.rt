//! Arguments of the intrinsics that only carry metadata (LangRef, "Metadata as Value").
ghost use Rattle.ir_calls.specs.Calls.{metadata_args, metadata_lists, metadata_or_type_firsts, metadata_value};
ghost use Rattle.ir_rules.specs.Reading.{Gives};
ghost use Rattle.ir_rules.specs.Rules.{has};
ghost use Rattle.ir_words.specs.declared.class.Class.TheVariants.{Metadata};
ghost use Rattle.std.specs.Prelude.{◌≡◌, [], ◌∷◌};

use crate::arguments::read_arg;
use ir_attributes::skip_metadata_body;
use ir_rules::{Element, End, skip_commas, word};
use ir_types::begins_type;
use ir_values::read_typed_operand;
use ir_words::{Class, Cursor};
use std::alloc::Global;

/// Reads what stands behind `metadata`.
#[tactic(auto, unfolding(crate::specs::Calls::metadata_forms))]
fn skip_metadata_value<'t>(alloc: Global, rest: Cursor<'t>) -> Result<Cursor<'t>, End>
    ensures { Gives (λ rest. (tt, rest)) result (metadata_value.read rest.entry) }
{
    match rest.first() {
        Class::Meta | Class::Bang => skip_metadata_body(alloc, rest),
        _ => {
            let (value, rest) = read_typed_operand(alloc, rest)?;
            drop(value);
            Ok(rest)
        }
    }
}

/// Reads an argument, which may be metadata.
#[tactic(auto, unfolding(crate::specs::Calls::metadata_arg_forms))]
fn skip_metadata_arg<'t>(alloc: Global, rest: Cursor<'t>) -> Result<Cursor<'t>, End>
    ensures { Gives (λ rest. (tt, rest)) result (metadata_args.read rest.entry) }
{
    match rest.first() {
        Class::Metadata => skip_metadata_value(alloc, rest.skip()),
        _ => {
            let (arg, rest) = read_arg(alloc, rest)?;
            drop(arg);
            Ok(rest)
        }
    }
}

/// Whether a token of a class is `metadata`.
fn is_metadata(class: Class) -> bool
    ensures { result ≡ has (Metadata ∷ []) class }
{
    class == Class::Metadata
}

/// Whether a token of a class is `metadata`, or begins a type.
pub fn begins_metadata_or_type(class: Class) -> bool
    ensures { result ≡ has metadata_or_type_firsts class }
{
    is_metadata(class) | begins_type(class)
}

/// The reader of such an argument.
#[derive(Drop)]
struct MetadataArgReader {
    alloc: Global,
}

impl Element for MetadataArgReader {
    type Tree = ();

    ghost rule = { λ _. metadata_args };

    ghost takes_memory = { Unit {0} };

    fn begins(&self, class: Class) -> bool {
        begins_metadata_or_type(class)
    }

    fn read<'t>(&self, rest: Cursor<'t>) -> Result<((), Cursor<'t>), End> {
        Ok(((), skip_metadata_arg(self.alloc, rest)?))
    }
}

/// Reads such arguments between round brackets.
#[tactic(auto, using(crate::proofs::CallLaws::metadata_args_law), unfolding(crate::specs::Calls::metadata_list_forms))]
pub(crate) fn skip_metadata_list<'t>(alloc: Global, rest: Cursor<'t>) -> Result<Cursor<'t>, End>
    ensures { Gives (λ rest. (tt, rest)) result (metadata_lists.read rest.entry) }
{
    let rest = word(rest, Class::OpenRound)?;
    let rest = skip_commas(&MetadataArgReader { alloc }, rest)?;
    Ok(word(rest, Class::CloseRound)?)
}
