//! The rules that a call keeps (LangRef, "'call' Instruction" and "Intrinsic Functions").
ghost use Rattle.std.specs.Prelude.{◌≡◌};
ghost use Rattle.ir_call_rules.specs.Intrinsics.{intrinsic_of};
ghost use Rattle.ir_call_rules.specs.Ops.{call_fits, callee_of, instr_fits, intrinsic_fits, is_void_call, op_fits, result_fits};
ghost use Rattle.ir_ident.specs.NameMaps.{value_of};
ghost use Rattle.ir_ident.specs.Names.{name_bytes};

use crate::calls::{are_aligned, callee_fits, values_fit, written_fit};
use crate::immediates::immediates_fit;
use crate::intrinsic::Intrinsic;
use crate::scope::Scope;
use crate::signatures::has_signature;
use crate::spelling::intrinsic_of;
use ir_ident::Name;
use ir_syntax::{Arg, Instr, Op, TyText, TypeTexts};

/// Whether a call agrees with the function that it calls, and its arguments with their types.
fn call_fits(
    scope: &Scope<'_>,
    returned: &Option<TyText>,
    params: &Option<TypeTexts>,
    callee: &Name,
    args: &[Arg],
) -> bool
    ensures { result ≡ call_fits (value_of scope.now.locals.now) returned.now params.now args.now
        (callee_of scope.now.ends.now callee.now) }
{
    callee_fits(scope.ends, callee, returned, args)
        & (written_fit(params, args) & (values_fit(scope.locals, args) & are_aligned(args)))
}

/// The intrinsic of a name, if it is one's.
fn named_intrinsic(name: &Name) -> Option<Intrinsic>
    ensures { result ≡ intrinsic_of (name_bytes name.now) }
{
    match name {
        Name::Named(identifier) => intrinsic_of(identifier.as_bytes()),
        Name::Unnamed(_) | Name::Implicit => None,
    }
}

/// Whether the call of an intrinsic has its type, and constants that it takes.
fn intrinsic_fits(returned: &Option<TyText>, args: &[Arg], intrinsic: Option<Intrinsic>) -> bool
    ensures { result ≡ intrinsic_fits returned.now args.now intrinsic }
{
    match intrinsic {
        Some(intrinsic) => has_signature(returned, args, intrinsic)
            & immediates_fit(args, intrinsic),
        None => true,
    }
}

fn op_fits(scope: &Scope<'_>, op: &Op) -> bool
    ensures { result ≡ op_fits (value_of scope.now.locals.now) (callee_of scope.now.ends.now) op.now }
{
    match op {
        Op::Call {
            result,
            params,
            callee,
            args,
        } => {
            call_fits(scope, result, params, &callee.name, args.as_slice())
                & intrinsic_fits(result, args.as_slice(), named_intrinsic(&callee.name))
        }
        _ => true,
    }
}

fn is_void_call(op: &Op) -> bool
    ensures { result ≡ is_void_call op.now }
{
    matches!(op, Op::Call { result: None, .. })
}

/// Whether an instruction has no result where it is a call of `void`.
fn result_fits(instr: &Instr) -> bool
    ensures { result ≡ result_fits instr.now }
{
    !(is_void_call(&instr.op) & instr.result.is_some())
}

/// Whether an instruction keeps the rules on calls, if it is one.
pub(crate) fn instr_fits(scope: &Scope<'_>, instr: &Instr) -> bool
    ensures { result ≡ instr_fits (value_of scope.now.locals.now) (callee_of scope.now.ends.now) instr.now }
{
    result_fits(instr) & op_fits(scope, &instr.op)
}
