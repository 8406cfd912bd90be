//! Operations on values prepared for running (LangRef, "Binary Operations" and "Other Operations").
ghost use Rattle.std.specs.Prelude.{IfOk};
ghost use Rattle.ir_code.specs.Prepared.{IsComputation, value_in};
ghost use Rattle.ir_loaded.specs.Pairs.{loaded};
ghost use Rattle.ir_sem.specs.Actions.{give, given};
ghost use Rattle.ir_sem.specs.Elements.{element_address};
ghost use Rattle.ir_sem.specs.Operands.{bits_of};
ghost use Rattle.ir_sem.specs.Operations.{binary, cast, compared};
ghost use Rattle.ir_slots.specs.Slots.{slot_names};
ghost use Rattle.ir_slots.specs.Sources.{input_value};

use crate::computation::Computation;
use crate::elements::steps;
use crate::operands::{input, pair};
use cg_num::{BinOp, Flags, Pred};
use ir_loaded::LoadedModule;
use ir_slots::{Input, SlotMap, Width};
use ir_syntax::{CastOp, Operand, TyText, TypedOperand};
use std::alloc::{AllocError, Global};

/// An operation on two numbers.
pub(crate) fn binary<'a>(
    l: &LoadedModule<'a>,
    slots: &SlotMap<'a>,
    op: BinOp,
    flags: Flags,
    ty: &TyText,
    left: &'a Operand,
    right: &'a Operand,
) -> Computation
    ensures { IsComputation (λ values. given (binary op flags (bits_of ty.now)
        (value_in (loaded l.now) (slot_names slots.now) values ty.now left.now)
        (value_in (loaded l.now) (slot_names slots.now) values ty.now right.now))) result }
{
    let pair = pair(l, slots, ty, left, right);
    Computation::Binary { op, flags, pair }
}

/// `icmp`.
pub(crate) fn compare<'a>(
    l: &LoadedModule<'a>,
    slots: &SlotMap<'a>,
    pred: Pred,
    ty: &TyText,
    left: &'a Operand,
    right: &'a Operand,
) -> Computation
    ensures { IsComputation (λ values. give (compared pred (bits_of ty.now)
        (value_in (loaded l.now) (slot_names slots.now) values ty.now left.now)
        (value_in (loaded l.now) (slot_names slots.now) values ty.now right.now))) result }
{
    let pair = pair(l, slots, ty, left, right);
    Computation::Compare { pred, pair }
}

/// A conversion.
pub(crate) fn cast<'a>(
    l: &LoadedModule<'a>,
    slots: &SlotMap<'a>,
    op: CastOp,
    from: &TyText,
    operand: &'a Operand,
    to: &TyText,
) -> Computation
    ensures { IsComputation (λ values. give (cast op (bits_of from.now) (bits_of to.now)
        (value_in (loaded l.now) (slot_names slots.now) values from.now operand.now))) result }
{
    Computation::Cast {
        op,
        value: input(l, slots, from, operand),
        to: Width::of(to),
    }
}

/// `getelementptr`.
///
/// # Errors
///
/// [`AllocError`].
pub(crate) fn element<'a>(
    alloc: Global,
    l: &LoadedModule<'a>,
    slots: &SlotMap<'a>,
    ty: &'a TyText,
    base: Input,
    indices: &'a [TypedOperand],
) -> Result<Computation, AllocError>
    ensures { IfOk result (IsComputation (λ values. give (element_address l.now.0.types (value_in (loaded l.now) (slot_names slots.now) values)
        ty.now (input_value values base) indices.now))) }
{
    let steps = steps(alloc, l, slots, ty, indices)?;
    Ok(Computation::Element { base, steps })
}
