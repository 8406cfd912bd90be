//! The types of intrinsics (LangRef, "Intrinsic Functions").
ghost use Rattle.std.specs.Prelude.{◌≡◌, Some, map};
ghost use Rattle.ir_call_rules.specs.Calls.{are_of_types};
ghost use Rattle.ir_call_rules.specs.Signatures.{has_result, has_signature, integer_params, params_of, result_of};

use crate::args::are_of_types;
use crate::intrinsic::Intrinsic;
use cg_num::IntegerFunction;
use ir_op_rules::are_same;
use ir_scope::{Scalar, scalar_of};
use ir_syntax::{Arg, TyText};

/// Whether the arguments are of the types that a function of integers of this many bits takes.
fn integers_match(function: IntegerFunction, bits: u8, args: &[Arg]) -> bool
    ensures { result ≡ are_of_types (map Some (integer_params function bits)) args.now }
{
    let integer = Scalar::Int(bits);
    match function {
        IntegerFunction::Ctpop | IntegerFunction::Bswap => are_of_types(&[integer], args),
        IntegerFunction::Ctlz | IntegerFunction::Cttz | IntegerFunction::Abs => are_of_types(
            &[integer, Scalar::Int(1)],
            args,
        ),
        IntegerFunction::Fshl | IntegerFunction::Fshr => are_of_types(
            &[integer, integer, integer],
            args,
        ),
        IntegerFunction::Smax
        | IntegerFunction::Smin
        | IntegerFunction::Umax
        | IntegerFunction::Umin => are_of_types(&[integer, integer], args),
    }
}

/// Whether the arguments are of the types that an intrinsic takes.
fn params_match(intrinsic: Intrinsic, args: &[Arg]) -> bool
    ensures { result ≡ are_of_types (map Some (params_of intrinsic)) args.now }
{
    let (length, flag) = (Scalar::Int(64), Scalar::Int(1));
    match intrinsic {
        Intrinsic::Integer(function, bits) => integers_match(function, bits, args),
        Intrinsic::Trap => args.is_empty(),
        Intrinsic::Memcpy | Intrinsic::Memmove => are_of_types(
            &[Scalar::Ptr, Scalar::Ptr, length, flag],
            args,
        ),
        Intrinsic::Memset => are_of_types(&[Scalar::Ptr, Scalar::Int(8), length, flag], args),
    }
}

/// The type of what an intrinsic gives; none for `void`.
fn result_of(intrinsic: Intrinsic) -> Option<Scalar>
    ensures { result ≡ result_of intrinsic }
{
    match intrinsic {
        Intrinsic::Integer(_, bits) => Some(Scalar::Int(bits)),
        Intrinsic::Trap | Intrinsic::Memcpy | Intrinsic::Memmove | Intrinsic::Memset => None,
    }
}

/// Whether a result is of a type, or `void`.
fn has_result(returned: &Option<TyText>, scalar: Option<Scalar>) -> bool
    ensures { result ≡ has_result returned.now scalar }
{
    match (returned, scalar) {
        (Some(ty), Some(scalar)) => are_same(scalar_of(ty), Some(scalar)),
        (None, None) => true,
        (Some(_), None) | (None, Some(_)) => false,
    }
}

/// Whether a call has an intrinsic's type.
pub(crate) fn has_signature(returned: &Option<TyText>, args: &[Arg], intrinsic: Intrinsic) -> bool
    ensures { result ≡ has_signature returned.now args.now intrinsic }
{
    has_result(returned, result_of(intrinsic)) & params_match(intrinsic, args)
}
