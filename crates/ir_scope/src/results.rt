//! The types of the results of instructions (LangRef, "Instruction Reference").
ghost use Rattle.std.specs.Prelude.{◌≡◌};
ghost use Rattle.ir_scope.specs.Scalars.{op_scalar};

use crate::scalar::{Scalar, maybe_scalar, scalar_of};
use ir_syntax::Op;

/// The type of an operation's result; none of a `store`, of a call of `void`, and where it is no type of a value.
pub fn op_scalar(op: &Op) -> Option<Scalar>
    ensures { result ≡ op_scalar op.now }
{
    match op {
        Op::Icmp { .. } => Some(Scalar::Int(1)),
        Op::Gep { .. } | Op::Alloca { .. } => Some(Scalar::Ptr),
        Op::Store { .. } => None,
        Op::Call { result, .. } => maybe_scalar(result),
        Op::Wrapping { ty, .. }
        | Op::Exact { ty, .. }
        | Op::Bitwise { ty, .. }
        | Op::Select { then_ty: ty, .. }
        | Op::Cast { to: ty, .. }
        | Op::Freeze { ty, .. }
        | Op::Load { ty, .. } => scalar_of(ty),
    }
}
