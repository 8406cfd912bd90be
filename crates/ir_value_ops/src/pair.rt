//! Two operands of one type, and operands behind a comma.
ghost use Rattle.ir_value_ops.specs.ValueOps.{pairs};
ghost use Rattle.ir_rules.specs.Reading.{Gives};
ghost use Rattle.ir_rules.specs.Rules.{◌▷◌};
ghost use Rattle.ir_values.specs.Values.{operands, typed_operands};
ghost use Rattle.ir_words.specs.declared.class.Class.TheVariants.{Comma};

use ir_rules::{End, word};
use ir_syntax::{Operand, TyText, TypedOperand};
use ir_types::read_type;
use ir_values::{read_operand, read_typed_operand};
use ir_words::{Class, Cursor};
use std::alloc::Global;

/// Reads an operand behind a comma.
fn read_second<'t>(alloc: Global, rest: Cursor<'t>) -> Result<(Operand, Cursor<'t>), End>
    ensures { Gives (λ x. x) result ((Comma ▷ operands).read rest.entry) }
{
    let rest = word(rest, Class::Comma)?;
    read_operand(alloc, rest)
}

/// Reads an operand with its type behind a comma.
pub fn read_next_operand<'t>(
    alloc: Global,
    rest: Cursor<'t>,
) -> Result<(TypedOperand, Cursor<'t>), End>
    ensures { Gives (λ x. x) result ((Comma ▷ typed_operands).read rest.entry) }
{
    let rest = word(rest, Class::Comma)?;
    read_typed_operand(alloc, rest)
}

/// Reads a type and two operands of it, separated by a comma.
#[tactic(auto, unfolding(crate::specs::ValueOps::pair_forms))]
pub(crate) fn read_pair<'t>(
    alloc: Global,
    rest: Cursor<'t>,
) -> Result<((TyText, (Operand, Operand)), Cursor<'t>), End>
    ensures { Gives (λ x. x) result (pairs.read rest.entry) }
{
    let (ty, rest) = read_type(alloc, rest, 64)?;
    let (left, rest) = read_operand(alloc, rest)?;
    let (right, rest) = read_second(alloc, rest)?;
    Ok(((ty, (left, right)), rest))
}
