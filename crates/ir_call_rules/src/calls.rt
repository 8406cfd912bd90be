//! The types that a call agrees with (LangRef, "'call' Instruction").
ghost use Rattle.std.specs.Prelude.{◌≡◌, option_copied};
ghost use Rattle.ir_ident.specs.NameMaps.{value_of};
ghost use Rattle.ir_call_rules.specs.Calls.{are_aligned, callee_fits, has_type, same_results, values_fit, written_fit};
ghost use Rattle.ir_call_rules.specs.Ops.{callee_of};

use crate::args::are_of_types;
use ir_aliases::AliasEnds;
use ir_ident::{Name, NameMap};
use ir_op_rules::{are_same, is_access_aligned};
use ir_scope::{Scalar, scalar_of, value_fits};
use ir_syntax::{Arg, Function, TyText, TypeTexts};

/// Whether both are `void`, or one type of values.
fn same_results(a: &Option<TyText>, b: &Option<TyText>) -> bool
    ensures { result ≡ same_results a.now b.now }
{
    match (a, b) {
        (Some(a), Some(b)) => are_same(scalar_of(a), scalar_of(b)),
        (None, None) => true,
        (Some(_), None) | (None, Some(_)) => false,
    }
}

/// Whether a function has a call's type.
fn has_type(function: &Function, returned: &Option<TyText>, args: &[Arg]) -> bool
    ensures { result ≡ has_type returned.now args.now function.now }
{
    same_results(&function.result, returned) & are_of_types(function.params.as_slice(), args)
}

/// The function that a callee stands for.
fn callee_of<'a>(ends: &AliasEnds<'a>, callee: &Name) -> Option<&'a Function>
    ensures { option_copied result ≡ callee_of ends.now callee.now }
{
    let place = ends.called_function(callee)?;
    ends.module().functions.as_slice().get(place)
}

/// Whether a name stands for a function that has a call's type.
pub(crate) fn callee_fits(
    ends: &AliasEnds<'_>,
    callee: &Name,
    returned: &Option<TyText>,
    args: &[Arg],
) -> bool
    ensures { result ≡ callee_fits returned.now args.now (callee_of ends.now callee.now) }
{
    match callee_of(ends, callee) {
        Some(function) => has_type(function, returned, args),
        None => false,
    }
}

/// Whether the types of parameters are those of the arguments, if they are written.
pub(crate) fn written_fit(written: &Option<TypeTexts>, args: &[Arg]) -> bool
    ensures { result ≡ written_fit written.now args.now }
{
    match written {
        Some(types) => are_of_types(types.as_slice(), args),
        None => true,
    }
}

/// Whether each argument is of its type.
pub(crate) fn values_fit(locals: &NameMap<'_, Scalar>, args: &[Arg]) -> bool
    ensures { result ≡ values_fit (value_of locals.now) args.now }
{
    args.iter()
        .all(|arg| value_fits(locals, &arg.ty, &arg.value))
}

/// Whether each alignment that is written is one of an access.
pub(crate) fn are_aligned(args: &[Arg]) -> bool
    ensures { result ≡ are_aligned args.now }
{
    args.iter().all(|arg| is_access_aligned(arg.align))
}
