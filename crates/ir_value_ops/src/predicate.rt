//! Comparisons, choices and frozen values (LangRef, "'icmp' Instruction", "'select' Instruction" and
//! "'freeze' Instruction").
ghost use Rattle.ir_value_ops.specs.ValueOps.{freezes, icmps, predicates, selects, signed_orders, unsigned_orders};
ghost use Rattle.ir_rules.specs.Reading.{Gives, GivesExactly};

use crate::pair::{read_next_operand, read_pair};
use cg_num::Pred;
use ir_rules::{End, bad, word};
use ir_syntax::Op;
use ir_values::read_typed_operand;
use ir_words::{Class, Cursor};
use std::alloc::Global;

/// Reads an order of signed numbers.
#[tactic(auto, unfolding(crate::specs::ValueOps::signed_order_forms))]
fn read_signed_order<'t>(rest: Cursor<'t>) -> Result<(Pred, Cursor<'t>), End>
    ensures { GivesExactly (λ x. x) result (signed_orders.read rest.entry) }
{
    let pred = match rest.first() {
        Class::Sgt => Pred::Sgt,
        Class::Sge => Pred::Sge,
        Class::Slt => Pred::Slt,
        Class::Sle => Pred::Sle,
        _ => return Err(bad(&rest)),
    };
    Ok((pred, rest.skip()))
}

/// Reads an order of unsigned numbers.
#[tactic(auto, unfolding(crate::specs::ValueOps::unsigned_order_forms))]
fn read_unsigned_order<'t>(rest: Cursor<'t>) -> Result<(Pred, Cursor<'t>), End>
    ensures { GivesExactly (λ x. x) result (unsigned_orders.read rest.entry) }
{
    let pred = match rest.first() {
        Class::Ugt => Pred::Ugt,
        Class::Uge => Pred::Uge,
        Class::Ult => Pred::Ult,
        Class::Ule => Pred::Ule,
        _ => return Err(bad(&rest)),
    };
    Ok((pred, rest.skip()))
}

/// Reads the condition of a comparison.
#[tactic(auto, unfolding(crate::specs::ValueOps::predicate_forms))]
fn read_predicate<'t>(rest: Cursor<'t>) -> Result<(Pred, Cursor<'t>), End>
    ensures { GivesExactly (λ x. x) result (predicates.read rest.entry) }
{
    match rest.first() {
        Class::Eq => Ok((Pred::Eq, rest.skip())),
        Class::Ne => Ok((Pred::Ne, rest.skip())),
        Class::Ugt | Class::Uge | Class::Ult | Class::Ule => read_unsigned_order(rest),
        _ => read_signed_order(rest),
    }
}

/// Reads a comparison.
#[tactic(auto, unfolding(crate::specs::ValueOps::icmp_forms))]
pub(crate) fn read_icmp<'t>(alloc: Global, rest: Cursor<'t>) -> Result<(Op, Cursor<'t>), End>
    ensures { Gives (λ x. x) result (icmps.read rest.entry) }
{
    let rest = word(rest, Class::Icmp)?;
    let (pred, rest) = read_predicate(rest)?;
    let ((ty, (left, right)), rest) = read_pair(alloc, rest)?;
    Ok((
        Op::Icmp {
            pred,
            ty,
            left,
            right,
        },
        rest,
    ))
}

/// Reads a choice between two values.
#[tactic(auto, unfolding(crate::specs::ValueOps::select_forms))]
pub(crate) fn read_select<'t>(alloc: Global, rest: Cursor<'t>) -> Result<(Op, Cursor<'t>), End>
    ensures { Gives (λ x. x) result (selects.read rest.entry) }
{
    let rest = word(rest, Class::Select)?;
    let (condition, rest) = read_typed_operand(alloc, rest)?;
    let (then_value, rest) = read_next_operand(alloc, rest)?;
    let (else_value, rest) = read_next_operand(alloc, rest)?;
    let op = Op::Select {
        condition_ty: condition.ty,
        condition: condition.value,
        then_ty: then_value.ty,
        then_value: then_value.value,
        else_ty: else_value.ty,
        else_value: else_value.value,
    };
    Ok((op, rest))
}

/// Reads a frozen value.
#[tactic(auto, unfolding(crate::specs::ValueOps::freeze_forms))]
pub(crate) fn read_freeze<'t>(alloc: Global, rest: Cursor<'t>) -> Result<(Op, Cursor<'t>), End>
    ensures { Gives (λ x. x) result (freezes.read rest.entry) }
{
    let rest = word(rest, Class::Freeze)?;
    let (operand, rest) = read_typed_operand(alloc, rest)?;
    Ok((
        Op::Freeze {
            ty: operand.ty,
            value: operand.value,
        },
        rest,
    ))
}
