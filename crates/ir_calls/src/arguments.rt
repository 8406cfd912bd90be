//! Arguments of calls, and types of parameters (LangRef, "'call' Instruction").
ghost use Rattle.ir_calls.specs.Calls.{arg_lists, args, parameter_types};
ghost use Rattle.ir_types.specs.Types.{types};
ghost use Rattle.ir_rules.specs.Reading.{Gives};
ghost use Rattle.ir_rules.specs.Rules.{commas, option};

use ir_attributes::read_attributes;
use ir_rules::{Element, End, read_commas, word};
use ir_syntax::{Arg, Args, TyText, TypeTexts};
use ir_types::{begins_type, read_type};
use ir_values::read_operand;
use ir_words::{Class, Cursor};
use std::alloc::Global;

/// Reads an argument.
#[tactic(auto, unfolding(crate::specs::Calls::arg_forms))]
pub(crate) fn read_arg<'t>(alloc: Global, rest: Cursor<'t>) -> Result<(Arg, Cursor<'t>), End>
    ensures { Gives (λ x. x) result (args.read rest.entry) }
{
    let (ty, rest) = read_type(alloc, rest, 64)?;
    let (align, rest) = read_attributes(alloc, rest)?;
    let (value, rest) = read_operand(alloc, rest)?;
    Ok((Arg { ty, align, value }, rest))
}

/// The reader of an argument.
#[derive(Drop)]
struct ArgReader {
    alloc: Global,
}

impl Element for ArgReader {
    type Tree = Arg;

    ghost rule = { λ _. args };

    ghost takes_memory = { Unit {0} };

    fn begins(&self, class: Class) -> bool {
        begins_type(class)
    }

    fn read<'t>(&self, rest: Cursor<'t>) -> Result<(Arg, Cursor<'t>), End> {
        read_arg(self.alloc, rest)
    }
}

/// Reads arguments separated by commas, or none.
#[tactic(auto, using(crate::proofs::CallLaws::args_law))]
fn read_args<'t>(alloc: Global, rest: Cursor<'t>) -> Result<(Args, Cursor<'t>), End>
    ensures { Gives (λ x. x) result ((commas args).read rest.entry) }
{
    let (list, rest) = read_commas(alloc, &ArgReader { alloc }, rest)?;
    Ok((Args::from_vec(list), rest))
}

/// Reads arguments between round brackets.
#[tactic(auto, unfolding(crate::specs::Calls::arg_list_forms))]
pub(crate) fn read_arg_list<'t>(alloc: Global, rest: Cursor<'t>) -> Result<(Args, Cursor<'t>), End>
    ensures { Gives (λ x. x) result (arg_lists.read rest.entry) }
{
    let rest = word(rest, Class::OpenRound)?;
    let (args, rest) = read_args(alloc, rest)?;
    let rest = word(rest, Class::CloseRound)?;
    Ok((args, rest))
}

/// The reader of a type.
#[derive(Drop)]
struct TypeReader {
    alloc: Global,
}

impl Element for TypeReader {
    type Tree = TyText;

    ghost rule = { λ _. types 64 };

    ghost takes_memory = { Unit {0} };

    fn begins(&self, class: Class) -> bool {
        begins_type(class)
    }

    fn read<'t>(&self, rest: Cursor<'t>) -> Result<(TyText, Cursor<'t>), End> {
        read_type(self.alloc, rest, 64)
    }
}

/// Reads types separated by commas, or none.
#[tactic(auto, using(crate::proofs::CallLaws::parameter_type_law))]
fn read_types<'t>(alloc: Global, rest: Cursor<'t>) -> Result<(TypeTexts, Cursor<'t>), End>
    ensures { Gives (λ x. x) result ((commas (types 64)).read rest.entry) }
{
    let (list, rest) = read_commas(alloc, &TypeReader { alloc }, rest)?;
    Ok((TypeTexts::from_vec(list), rest))
}

/// Reads types between round brackets.
fn read_type_list<'t>(alloc: Global, rest: Cursor<'t>) -> Result<(TypeTexts, Cursor<'t>), End>
    ensures { Gives (λ x. x) result (parameter_types.read rest.entry) }
{
    let rest = word(rest, Class::OpenRound)?;
    let (types, rest) = read_types(alloc, rest)?;
    let rest = word(rest, Class::CloseRound)?;
    Ok((types, rest))
}

/// Reads the types of parameters between round brackets, where such stand.
///
/// # Errors
///
/// `Bad` at the first token that can't stand there, `NoMemory` if memory runs out.
pub fn read_parameter_types<'t>(
    alloc: Global,
    rest: Cursor<'t>,
) -> Result<(Option<TypeTexts>, Cursor<'t>), End>
    ensures { Gives (λ x. x) result ((option parameter_types).read rest.entry) }
{
    match rest.first() {
        Class::OpenRound => {
            let (types, rest) = read_type_list(alloc, rest)?;
            Ok((Some(types), rest))
        }
        _ => Ok((None, rest)),
    }
}
