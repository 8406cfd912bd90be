//! Instructions prepared for running, by their kinds (LangRef, "Instruction Reference").
ghost use Rattle.std.specs.Prelude.{◌≡◌, IfOk, List};
ghost use Rattle.ir_code.specs.Kinds.{IsArithmetic, IsFixed, IsPlain};
ghost use Rattle.ir_code.specs.Meant.{computed};
ghost use Rattle.ir_code.specs.Prepared.{IsOperation, Resolves};
ghost use Rattle.ir_loaded.specs.Pairs.{loaded};
ghost use Rattle.ir_sem.specs.Instructions.{op_action};
ghost use Rattle.ir_sem.specs.declared.value.Value.{Value};
ghost use Rattle.ir_mem.specs.declared.block.Block.{Block};
ghost use Rattle.ir_slots.specs.Slots.{locals_in, slot_names};

use crate::accesses::{load, reserve, store};
use crate::calls::call;
use crate::code::Code;
use crate::computation::Computation;
use crate::operands::input;
use crate::operation::Operation;
use crate::values::{binary, cast, compare, element};
use cg_num::Flags;
use ir_loaded::LoadedModule;
use ir_slots::SlotMap;
use ir_syntax::Op;
use std::alloc::{AllocError, Global};

/// An operation that promises nothing.
const NO_FLAGS: Flags = Flags {
    nuw: false,
    nsw: false,
    exact: false,
};

/// What an instruction does, prepared for running in a function with these slots.
///
/// # Errors
///
/// [`AllocError`].
pub fn code_of<'a>(
    alloc: Global,
    l: &LoadedModule<'a>,
    slots: &SlotMap<'a>,
    op: &'a Op,
) -> Result<Code, AllocError>
    ensures { IfOk result (Resolves (loaded l.now) (slot_names slots.now) op.now) }
{
    match op {
        Op::Call { callee, args, .. } => call(alloc, l, slots, &callee.name, args.as_slice()),
        Op::Gep {
            ty,
            base_ty,
            base,
            indices,
            ..
        } => {
            let base = input(l, slots, base_ty, base);
            let computation = element(alloc, l, slots, ty, base, indices.as_slice())?;
            Ok(Code::Plain(Operation::Compute(computation)))
        }
        _ => Ok(Code::Plain(plain(l, slots, op))),
    }
}

/// An instruction with a fixed number of operands.
fn plain<'a>(l: &LoadedModule<'a>, slots: &SlotMap<'a>, op: &'a Op) -> Operation
    requires { IsPlain op.now }
    ensures { IsOperation (λ values blocks. op_action (loaded l.now) (locals_in (slot_names slots.now) values) blocks op.now) result }
{
    match op {
        Op::Freeze { ty, value } => Operation::Freeze(input(l, slots, ty, value)),
        Op::Load {
            ty,
            address_ty,
            address,
            align,
        } => load(l, ty, input(l, slots, address_ty, address), *align),
        Op::Store {
            ty,
            value,
            address_ty,
            address,
            align,
        } => store(
            l,
            ty,
            input(l, slots, ty, value),
            input(l, slots, address_ty, address),
            *align,
        ),
        Op::Alloca { ty, count, align } => reserve(l, ty, count, *align),
        _ => Operation::Compute(computation(l, slots, op)),
    }
}

/// An instruction that gives a value by those of a fixed number of operands.
fn computation<'a>(l: &LoadedModule<'a>, slots: &SlotMap<'a>, op: &'a Op) -> Computation
    requires { IsFixed op.now }
    ensures { (values : List Value) (blocks : List Block)
        → op_action (loaded l.now) (locals_in (slot_names slots.now) values) blocks op.now ≡ computed values result }
{
    match op {
        Op::Icmp {
            pred,
            ty,
            left,
            right,
        } => compare(l, slots, *pred, ty, left, right),
        Op::Select {
            condition_ty,
            condition,
            then_ty,
            then_value,
            else_ty,
            else_value,
        } => Computation::Select {
            condition: input(l, slots, condition_ty, condition),
            then_value: input(l, slots, then_ty, then_value),
            else_value: input(l, slots, else_ty, else_value),
        },
        Op::Cast {
            op,
            from,
            value,
            to,
        } => cast(l, slots, *op, from, value, to),
        _ => arithmetic(l, slots, op),
    }
}

/// An operation on two numbers.
fn arithmetic<'a>(l: &LoadedModule<'a>, slots: &SlotMap<'a>, op: &'a Op) -> Computation
    requires { IsArithmetic op.now }
    ensures { (values : List Value) (blocks : List Block)
        → op_action (loaded l.now) (locals_in (slot_names slots.now) values) blocks op.now ≡ computed values result }
{
    match op {
        Op::Wrapping {
            op,
            nuw,
            nsw,
            ty,
            left,
            right,
        } => {
            let flags = Flags {
                nuw: *nuw,
                nsw: *nsw,
                exact: false,
            };
            binary(l, slots, *op, flags, ty, left, right)
        }
        Op::Exact {
            op,
            exact,
            ty,
            left,
            right,
        } => {
            let flags = Flags {
                nuw: false,
                nsw: false,
                exact: *exact,
            };
            binary(l, slots, *op, flags, ty, left, right)
        }
        Op::Bitwise {
            op,
            ty,
            left,
            right,
        } => binary(l, slots, *op, NO_FLAGS, ty, left, right),
        _ => unreachable!(),
    }
}
