//! Conversions (LangRef, "Conversion Operations").
ghost use Rattle.std.specs.Prelude.{◌≡◌};
ghost use Rattle.ir_value_ops.specs.ValueOps.{cast_firsts, cast_ops, casts};
ghost use Rattle.ir_rules.specs.Reading.{Gives, GivesExactly};
ghost use Rattle.ir_rules.specs.Rules.{has, ◌▷◌};
ghost use Rattle.ir_types.specs.Types.{types};
ghost use Rattle.ir_words.specs.declared.class.Class.TheVariants.{To};

use ir_rules::{End, bad, word};
use ir_syntax::{CastOp, Op, TyText};
use ir_types::read_type;
use ir_values::read_typed_operand;
use ir_words::{Class, Cursor};
use std::alloc::Global;

/// Whether a token of this class begins a conversion.
pub(crate) fn begins_cast(class: Class) -> bool
    ensures { result ≡ has cast_firsts class }
{
    matches!(
        class,
        Class::Trunc
            | Class::Zext
            | Class::Sext
            | Class::Ptrtoint
            | Class::Inttoptr
            | Class::Bitcast
    )
}

/// Reads which conversion it is.
#[tactic(auto, unfolding(crate::specs::ValueOps::cast_op_forms))]
fn read_cast_op<'t>(rest: Cursor<'t>) -> Result<(CastOp, Cursor<'t>), End>
    ensures { GivesExactly (λ x. x) result (cast_ops.read rest.entry) }
{
    let op = match rest.first() {
        Class::Trunc => CastOp::Trunc,
        Class::Zext => CastOp::Zext,
        Class::Sext => CastOp::Sext,
        Class::Ptrtoint => CastOp::PtrToInt,
        Class::Inttoptr => CastOp::IntToPtr,
        Class::Bitcast => CastOp::BitCast,
        _ => return Err(bad(&rest)),
    };
    Ok((op, rest.skip()))
}

/// Reads `to` and a type.
fn read_new_type<'t>(alloc: Global, rest: Cursor<'t>) -> Result<(TyText, Cursor<'t>), End>
    ensures { Gives (λ x. x) result ((To ▷ types 64).read rest.entry) }
{
    let rest = word(rest, Class::To)?;
    read_type(alloc, rest, 64)
}

/// Reads a conversion.
#[tactic(auto, unfolding(crate::specs::ValueOps::cast_forms))]
pub(crate) fn read_cast<'t>(alloc: Global, rest: Cursor<'t>) -> Result<(Op, Cursor<'t>), End>
    ensures { Gives (λ x. x) result (casts.read rest.entry) }
{
    let (op, rest) = read_cast_op(rest)?;
    let (operand, rest) = read_typed_operand(alloc, rest)?;
    let (to, rest) = read_new_type(alloc, rest)?;
    let op = Op::Cast {
        op,
        from: operand.ty,
        value: operand.value,
        to,
    };
    Ok((op, rest))
}
