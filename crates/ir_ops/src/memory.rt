//! Operations on memory (LangRef, "Memory Access and Addressing Operations").
ghost use Rattle.ir_ops.specs.Operations.{allocas, geps, loads, stores};
ghost use Rattle.ir_rules.specs.Leaves.{flag};
ghost use Rattle.ir_rules.specs.Reading.{Gives, GivesExactly};
ghost use Rattle.ir_words.specs.declared.class.Class.TheVariants.{Inbounds};

use crate::indices::read_indices;
use crate::tails::{read_align_tail, read_alloca_tail};
use ir_rules::{End, word};
use ir_syntax::{Op, TypedOperands};
use ir_types::read_type;
use ir_value_ops::read_next_operand;
use ir_values::read_typed_operand;
use ir_words::{Class, Cursor};
use std::alloc::Global;

/// Reads whether `inbounds` stands here.
fn read_inbounds<'t>(rest: Cursor<'t>) -> Result<(bool, Cursor<'t>), End>
    ensures { GivesExactly (λ x. x) result ((flag Inbounds).read rest.entry) }
{
    match rest.first() {
        Class::Inbounds => Ok((true, rest.skip())),
        _ => Ok((false, rest)),
    }
}

/// Reads the address of a part.
#[tactic(auto, unfolding(crate::specs::Operations::gep_forms))]
pub(crate) fn read_gep<'t>(alloc: Global, rest: Cursor<'t>) -> Result<(Op, Cursor<'t>), End>
    ensures { Gives (λ x. x) result (geps.read rest.entry) }
{
    let rest = word(rest, Class::Getelementptr)?;
    let (inbounds, rest) = read_inbounds(rest)?;
    let (ty, rest) = read_type(alloc, rest, 64)?;
    let (base, rest) = read_next_operand(alloc, rest)?;
    let (indices, rest) = read_indices(alloc, rest)?;
    let op = Op::Gep {
        inbounds,
        ty,
        base_ty: base.ty,
        base: base.value,
        indices: TypedOperands::from_vec(indices),
    };
    Ok((op, rest))
}

/// Reads a load.
#[tactic(auto, unfolding(crate::specs::Operations::load_forms))]
pub(crate) fn read_load<'t>(alloc: Global, rest: Cursor<'t>) -> Result<(Op, Cursor<'t>), End>
    ensures { Gives (λ x. x) result (loads.read rest.entry) }
{
    let rest = word(rest, Class::Load)?;
    let (ty, rest) = read_type(alloc, rest, 64)?;
    let (address, rest) = read_next_operand(alloc, rest)?;
    let (align, rest) = read_align_tail(rest)?;
    let op = Op::Load {
        ty,
        address_ty: address.ty,
        address: address.value,
        align,
    };
    Ok((op, rest))
}

/// Reads a store.
#[tactic(auto, unfolding(crate::specs::Operations::store_forms))]
pub(crate) fn read_store<'t>(alloc: Global, rest: Cursor<'t>) -> Result<(Op, Cursor<'t>), End>
    ensures { Gives (λ x. x) result (stores.read rest.entry) }
{
    let rest = word(rest, Class::Store)?;
    let (stored, rest) = read_typed_operand(alloc, rest)?;
    let (target, rest) = read_next_operand(alloc, rest)?;
    let (align, rest) = read_align_tail(rest)?;
    let op = Op::Store {
        ty: stored.ty,
        value: stored.value,
        address_ty: target.ty,
        address: target.value,
        align,
    };
    Ok((op, rest))
}

/// Reads an allocation on the stack.
#[tactic(auto, unfolding(crate::specs::Operations::alloca_forms))]
pub(crate) fn read_alloca<'t>(alloc: Global, rest: Cursor<'t>) -> Result<(Op, Cursor<'t>), End>
    ensures { Gives (λ x. x) result (allocas.read rest.entry) }
{
    let rest = word(rest, Class::Alloca)?;
    let (ty, rest) = read_type(alloc, rest, 64)?;
    let ((count, align), rest) = read_alloca_tail(alloc, rest)?;
    Ok((Op::Alloca { ty, count, align }, rest))
}
