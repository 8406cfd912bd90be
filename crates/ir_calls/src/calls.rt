//! Calls (LangRef, "'call' Instruction").
ghost use Rattle.ir_attributes.specs.Attributes.{attributes};
ghost use Rattle.ir_calls.specs.Calls.{arg_lists, call_firsts, call_of, called_forms, callees, calls, convention, convention_firsts};
ghost use Rattle.ir_values.specs.Values.{global_uses_in};
ghost use Rattle.ir_rules.specs.Leaves.{ending};
ghost use Rattle.ir_rules.specs.Reading.{Gives, GivesExactly};
ghost use Rattle.ir_rules.specs.Rules.{has, seq, ◌▷◌};
ghost use Rattle.ir_words.specs.declared.class.Class.TheVariants as Classes;
ghost use Rattle.ir_words.specs.declared.class.Class.TheVariants.{Call, Intrinsic};
ghost use Rattle.std.specs.Prelude.{◌≡◌, [], ◌∷◌};

use crate::arguments::{read_arg_list, read_parameter_types};
use crate::metadata::skip_metadata_list;
use ir_attributes::read_attributes;
use ir_ident::NameUse;
use ir_rules::{Element, End, skip_each, word};
use ir_syntax::{Args, Op, TyText, TypeTexts};
use ir_types::read_result_type;
use ir_values::{read_dropped_intrinsic, read_function_use, read_metadata_intrinsic};
use ir_words::{Class, Cursor};
use std::alloc::Global;

/// A function that is called with its arguments; none of one whose calls are dropped.
type Callee = Option<(NameUse, Args)>;

/// Reads a function whose calls are kept, and its arguments.
fn read_kept_callee<'t>(
    alloc: Global,
    rest: Cursor<'t>,
) -> Result<((NameUse, Args), Cursor<'t>), End>
    ensures { Gives (λ x. x) result ((seq (global_uses_in (Classes.Global ∷ Intrinsic ∷ [])) arg_lists).read rest.entry) }
{
    let (callee, rest) = read_function_use(alloc, rest)?;
    let (args, rest) = read_arg_list(alloc, rest)?;
    Ok(((callee, args), rest))
}

/// Reads what is called, and its arguments.
#[tactic(auto, unfolding(crate::specs::Calls::callee_forms))]
fn read_callee<'t>(alloc: Global, rest: Cursor<'t>) -> Result<(Callee, Cursor<'t>), End>
    ensures { Gives (λ x. x) result (callees.read rest.entry) }
{
    match rest.first() {
        Class::MetadataIntrinsic => {
            let (intrinsic, rest) = read_metadata_intrinsic(alloc, rest)?;
            drop(intrinsic);
            Ok((None, skip_metadata_list(alloc, rest)?))
        }
        Class::DroppedIntrinsic => {
            let (callee, rest) = read_dropped_intrinsic(alloc, rest)?;
            drop(callee);
            let (args, rest) = read_arg_list(alloc, rest)?;
            drop(args);
            Ok((None, rest))
        }
        _ => {
            let (called, rest) = read_kept_callee(alloc, rest)?;
            Ok((Some(called), rest))
        }
    }
}

/// Reads a calling convention.
///
/// # Errors
///
/// `Bad` at this token if it is none.
pub fn skip_convention<'t>(rest: Cursor<'t>) -> Result<Cursor<'t>, End>
    ensures { GivesExactly (λ rest. (tt, rest)) result (convention.read rest.entry) }
{
    match rest.first() {
        Class::Ccc | Class::Fastcc => Ok(rest.skip()),
        _ => word(rest, Class::Coldcc),
    }
}

/// Whether a token of a class is a calling convention.
pub fn is_convention(class: Class) -> bool
    ensures { result ≡ has convention_firsts class }
{
    matches!(class, Class::Ccc | Class::Fastcc | Class::Coldcc)
}

/// The reader of a calling convention.
#[derive(Drop)]
struct ConventionReader;

impl Element for ConventionReader {
    type Tree = ();

    ghost rule = { λ _. convention };

    ghost takes_memory = { ⊥ };

    fn begins(&self, class: Class) -> bool {
        is_convention(class)
    }

    fn read<'t>(&self, rest: Cursor<'t>) -> Result<((), Cursor<'t>), End> {
        Ok(((), skip_convention(rest)?))
    }
}

/// The call of a function; none where calls of it are dropped.
fn call_of(ty: Option<TyText>, params: Option<TypeTexts>, callee: Callee) -> Option<Op>
    ensures { result ≡ call_of (ty, (params, callee)) }
{
    match callee {
        None => None,
        Some((callee, args)) => Some(Op::Call {
            result: ty,
            params,
            callee,
            args,
        }),
    }
}

/// Reads what is called, its arguments, and the attributes of the call.
fn read_attributed_callee<'t>(alloc: Global, rest: Cursor<'t>) -> Result<(Callee, Cursor<'t>), End>
    ensures { Gives (λ x. x) result ((ending callees attributes).read rest.entry) }
{
    let (callee, rest) = read_callee(alloc, rest)?;
    let (_of_call, rest) = read_attributes(alloc, rest)?;
    Ok((callee, rest))
}

/// Reads what stands behind `call`.
#[tactic(auto, using(crate::proofs::CallLaws::convention_law), unfolding(crate::specs::Calls::called_forms))]
fn read_called<'t>(alloc: Global, rest: Cursor<'t>) -> Result<(Option<Op>, Cursor<'t>), End>
    ensures { Gives (λ x. x) result (called_forms.read rest.entry) }
{
    let rest = skip_each(&ConventionReader, rest)?;
    let (_of_result, rest) = read_attributes(alloc, rest)?;
    let (ty, rest) = read_result_type(alloc, rest)?;
    let (params, rest) = read_parameter_types(alloc, rest)?;
    let (callee, rest) = read_attributed_callee(alloc, rest)?;
    Ok((call_of(ty, params, callee), rest))
}

/// Reads `call` and what stands behind it.
fn read_plain_call<'t>(alloc: Global, rest: Cursor<'t>) -> Result<(Option<Op>, Cursor<'t>), End>
    ensures { Gives (λ x. x) result ((Call ▷ called_forms).read rest.entry) }
{
    let rest = word(rest, Class::Call)?;
    read_called(alloc, rest)
}

/// Whether a token of a class begins a call.
pub fn begins_call(class: Class) -> bool
    ensures { result ≡ has call_firsts class }
{
    matches!(class, Class::Tail | Class::Notail | Class::Call)
}

/// Reads a call; none of an intrinsic that means nothing here.
///
/// # Errors
///
/// `Bad` at the first token that can't stand there, `NoMemory` if memory runs out.
#[tactic(auto, unfolding(crate::specs::Calls::call_forms))]
pub fn read_call<'t>(alloc: Global, rest: Cursor<'t>) -> Result<(Option<Op>, Cursor<'t>), End>
    ensures { Gives (λ x. x) result (calls.read rest.entry) }
{
    match rest.first() {
        Class::Tail | Class::Notail => read_plain_call(alloc, rest.skip()),
        _ => read_plain_call(alloc, rest),
    }
}
