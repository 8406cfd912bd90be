//! Types, operands, and what may be left out.
ghost use Rattle.std.specs.Prelude.{◌≡◌, OnOk};
ghost use Rattle.ir_rewrite.specs.Rewritten.{maybe, rewritten_arg, rewritten_literal, rewritten_operand, rewritten_type, rewritten_typed};

use crate::rewrite::{Rewrite, Rewritten};
use ir_syntax::{Arg, Operand, TyText, TypedLiteral, TypedOperand};
use std::alloc::{AllocError, Global};

impl<R: Rewrite> Rewritten<R> for TyText {
    ghost rewritten = { rewritten_type };

    fn rewrite(&mut self, _alloc: Global, by: &R, made: &mut u64) -> Result<(), AllocError> {
        by.ty(made, self)
    }
}

impl<R: Rewrite> Rewritten<R> for Operand {
    ghost rewritten = { rewritten_operand };

    fn rewrite(&mut self, _alloc: Global, by: &R, _made: &mut u64) -> Result<(), AllocError> {
        match self {
            Operand::Gep(gep) => by.gep(gep),
            Operand::Local(_)
            | Operand::Global(_)
            | Operand::Int(_)
            | Operand::True
            | Operand::False
            | Operand::Null
            | Operand::Undef
            | Operand::Poison => Ok(()),
        }
    }
}

impl<R: Rewrite, T: Rewritten<R>> Rewritten<R> for Option<T> {
    ghost rewritten = { maybe T.rewritten };

    fn rewrite(&mut self, alloc: Global, by: &R, made: &mut u64) -> Result<(), AllocError> {
        match self {
            Some(part) => part.rewrite(alloc, by, made),
            None => Ok(()),
        }
    }
}

/// Replaces these in an operand, and in the type in front of it.
pub(crate) fn rewrite_value<R: Rewrite>(
    alloc: Global,
    by: &R,
    made: &mut u64,
    ty: &mut TyText,
    value: &mut Operand,
) -> Result<(), AllocError>
    ensures ty { OnOk result (ty.new ≡ R.ty_of by.now ty.old) }
    ensures value { OnOk result (value.new ≡ rewritten_operand (R.ty_of by.now) (R.gep_of by.now) value.old) }
{
    by.ty(made, ty)?;
    value.rewrite(alloc, by, made)
}

impl<R: Rewrite> Rewritten<R> for TypedLiteral {
    ghost rewritten = { rewritten_literal };

    fn rewrite(&mut self, _alloc: Global, by: &R, made: &mut u64) -> Result<(), AllocError> {
        by.ty(made, &mut self.ty)
    }
}

impl<R: Rewrite> Rewritten<R> for TypedOperand {
    ghost rewritten = { rewritten_typed };

    fn rewrite(&mut self, alloc: Global, by: &R, made: &mut u64) -> Result<(), AllocError> {
        rewrite_value(alloc, by, made, &mut self.ty, &mut self.value)
    }
}

impl<R: Rewrite> Rewritten<R> for Arg {
    ghost rewritten = { rewritten_arg };

    fn rewrite(&mut self, alloc: Global, by: &R, made: &mut u64) -> Result<(), AllocError> {
        rewrite_value(alloc, by, made, &mut self.ty, &mut self.value)
    }
}
