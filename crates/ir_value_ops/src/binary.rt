//! Arithmetic on two operands (LangRef, "Binary Operations" and "Bitwise Binary Operations").
ghost use Rattle.std.specs.Prelude.{◌≡◌};
ghost use Rattle.ir_value_ops.specs.ValueOps.{bitwise, bitwise_firsts, bitwise_ops, exact, exact_firsts, exact_ops, wrapping, wrapping_firsts, wrapping_ops};
ghost use Rattle.ir_rules.specs.Leaves.{flag};
ghost use Rattle.ir_rules.specs.Reading.{Gives, GivesExactly};
ghost use Rattle.ir_rules.specs.Rules.{has};
ghost use Rattle.ir_words.specs.declared.class.Class.TheVariants.{Exact};

use crate::pair::read_pair;
use crate::wraps::read_wraps;
use cg_num::BinOp;
use ir_rules::{End, bad};
use ir_syntax::Op;
use ir_words::{Class, Cursor};
use std::alloc::Global;

/// Whether a token of this class begins an operation that may say how it wraps.
pub(crate) fn begins_wrapping(class: Class) -> bool
    ensures { result ≡ has wrapping_firsts class }
{
    matches!(class, Class::Add | Class::Sub | Class::Mul | Class::Shl)
}

/// Whether a token of this class begins an operation that may say that it is exact.
pub(crate) fn begins_exact(class: Class) -> bool
    ensures { result ≡ has exact_firsts class }
{
    matches!(class, Class::Udiv | Class::Sdiv | Class::Lshr | Class::Ashr)
}

/// Whether a token of this class begins a remainder or an operation bit by bit.
pub(crate) fn begins_bitwise(class: Class) -> bool
    ensures { result ≡ has bitwise_firsts class }
{
    matches!(
        class,
        Class::Urem | Class::Srem | Class::And | Class::Or | Class::Xor
    )
}

/// Reads which of the operations it is that may say how they wrap.
fn read_wrapping_op<'t>(rest: Cursor<'t>) -> Result<(BinOp, Cursor<'t>), End>
    ensures { GivesExactly (λ x. x) result (wrapping_ops.read rest.entry) }
{
    let op = match rest.first() {
        Class::Add => BinOp::Add,
        Class::Sub => BinOp::Sub,
        Class::Mul => BinOp::Mul,
        Class::Shl => BinOp::Shl,
        _ => return Err(bad(&rest)),
    };
    Ok((op, rest.skip()))
}

/// Reads which of the operations it is that may say that they are exact.
fn read_exact_op<'t>(rest: Cursor<'t>) -> Result<(BinOp, Cursor<'t>), End>
    ensures { GivesExactly (λ x. x) result (exact_ops.read rest.entry) }
{
    let op = match rest.first() {
        Class::Udiv => BinOp::Udiv,
        Class::Sdiv => BinOp::Sdiv,
        Class::Lshr => BinOp::Lshr,
        Class::Ashr => BinOp::Ashr,
        _ => return Err(bad(&rest)),
    };
    Ok((op, rest.skip()))
}

/// Reads which of the operations it is that say nothing more.
fn read_bitwise_op<'t>(rest: Cursor<'t>) -> Result<(BinOp, Cursor<'t>), End>
    ensures { GivesExactly (λ x. x) result (bitwise_ops.read rest.entry) }
{
    let op = match rest.first() {
        Class::Urem => BinOp::Urem,
        Class::Srem => BinOp::Srem,
        Class::And => BinOp::And,
        Class::Or => BinOp::Or,
        Class::Xor => BinOp::Xor,
        _ => return Err(bad(&rest)),
    };
    Ok((op, rest.skip()))
}

/// Reads whether `exact` stands here.
fn read_exactness<'t>(rest: Cursor<'t>) -> Result<(bool, Cursor<'t>), End>
    ensures { GivesExactly (λ x. x) result ((flag Exact).read rest.entry) }
{
    match rest.first() {
        Class::Exact => Ok((true, rest.skip())),
        _ => Ok((false, rest)),
    }
}

/// Reads an operation that may say how it wraps.
#[tactic(auto, unfolding(crate::specs::ValueOps::wrapping_forms))]
pub(crate) fn read_wrapping<'t>(alloc: Global, rest: Cursor<'t>) -> Result<(Op, Cursor<'t>), End>
    ensures { Gives (λ x. x) result (wrapping.read rest.entry) }
{
    let (op, rest) = read_wrapping_op(rest)?;
    let ((nuw, nsw), rest) = read_wraps(rest)?;
    let ((ty, (left, right)), rest) = read_pair(alloc, rest)?;
    let op = Op::Wrapping {
        op,
        nuw,
        nsw,
        ty,
        left,
        right,
    };
    Ok((op, rest))
}

/// Reads an operation that may say that it is exact.
#[tactic(auto, unfolding(crate::specs::ValueOps::exact_forms))]
pub(crate) fn read_exact<'t>(alloc: Global, rest: Cursor<'t>) -> Result<(Op, Cursor<'t>), End>
    ensures { Gives (λ x. x) result (exact.read rest.entry) }
{
    let (op, rest) = read_exact_op(rest)?;
    let (exact, rest) = read_exactness(rest)?;
    let ((ty, (left, right)), rest) = read_pair(alloc, rest)?;
    Ok((
        Op::Exact {
            op,
            exact,
            ty,
            left,
            right,
        },
        rest,
    ))
}

/// Reads a remainder or an operation bit by bit.
#[tactic(auto, unfolding(crate::specs::ValueOps::bitwise_forms))]
pub(crate) fn read_bitwise<'t>(alloc: Global, rest: Cursor<'t>) -> Result<(Op, Cursor<'t>), End>
    ensures { Gives (λ x. x) result (bitwise.read rest.entry) }
{
    let (op, rest) = read_bitwise_op(rest)?;
    let ((ty, (left, right)), rest) = read_pair(alloc, rest)?;
    Ok((
        Op::Bitwise {
            op,
            ty,
            left,
            right,
        },
        rest,
    ))
}
