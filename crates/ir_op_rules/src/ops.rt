//! Types and alignments that instructions state (LangRef, "Instruction Reference").
ghost use Rattle.std.specs.Prelude.{◌≡◌};
ghost use Rattle.ir_ident.specs.NameMaps.{value_of};
ghost use Rattle.ir_op_rules.specs.OpLines.{instr_fits, is_store, op_fits, result_fits};

use crate::arithmetic::{binary_fits, choice_fits, pair_fits};
use crate::casts::cast_fits;
use crate::memory::{alloca_fits, gep_fits, load_fits, store_fits};
use crate::values::condition_fits;
use ir_ident::NameMap;
use ir_scope::{Scalar, value_fits};
use ir_syntax::{Instr, Op};

/// Whether an operation has the types and alignments that it states. A call has rules of its own.
fn op_fits(locals: &NameMap<'_, Scalar>, op: &Op) -> bool
    ensures { result ≡ op_fits (value_of locals.now) op.now }
{
    match op {
        Op::Wrapping {
            ty,
            left,
            right,
            ..
        }
        | Op::Exact {
            ty,
            left,
            right,
            ..
        }
        | Op::Bitwise {
            ty,
            left,
            right,
            ..
        } => binary_fits(locals, ty, left, right),
        Op::Icmp {
            ty,
            left,
            right,
            ..
        } => pair_fits(locals, ty, left, right),
        Op::Select {
            condition_ty,
            condition,
            then_ty,
            then_value,
            else_ty,
            else_value,
        } => {
            condition_fits(locals, condition_ty, condition)
                & choice_fits(locals, then_ty, then_value, else_ty, else_value)
        }
        Op::Cast {
            op,
            from,
            value,
            to,
        } => cast_fits(locals, *op, from, value, to),
        Op::Freeze { ty, value } => value_fits(locals, ty, value),
        Op::Gep {
            base_ty,
            base,
            indices,
            ..
        } => gep_fits(locals, base_ty, base, indices.as_slice()),
        Op::Load {
            ty,
            address_ty,
            address,
            align,
        } => load_fits(locals, ty, address_ty, address, *align),
        Op::Store {
            ty,
            value,
            address_ty,
            address,
            align,
        } => store_fits(locals, ty, value, address_ty, address, *align),
        Op::Alloca { count, align, .. } => alloca_fits(count, *align),
        Op::Call { .. } => true,
    }
}

fn is_store(op: &Op) -> bool
    ensures { result ≡ is_store op.now }
{
    matches!(op, Op::Store { .. })
}

/// Whether an instruction has no result where it is a `store`.
fn result_fits(instr: &Instr) -> bool
    ensures { result ≡ result_fits instr.now }
{
    !(is_store(&instr.op) & instr.result.is_some())
}

/// Whether an instruction has the types and alignments that it states.
pub(crate) fn instr_fits(locals: &NameMap<'_, Scalar>, instr: &Instr) -> bool
    ensures { result ≡ instr_fits (value_of locals.now) instr.now }
{
    result_fits(instr) & op_fits(locals, &instr.op)
}
