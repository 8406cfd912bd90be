//! Instructions.
ghost use Rattle.std.specs.Prelude.{◌≡◌, OnOk};
ghost use Rattle.ir_rewrite.specs.Rewritten.{each, rewritten_arg, rewritten_instr, rewritten_op, rewritten_operand, rewritten_typed};

use crate::lists::rewritten_list;
use crate::parts::rewrite_value;
use crate::rewrite::{Rewrite, Rewritten};
use ir_syntax::{Args, Instr, Instrs, Op, Operand, TyText, TypedOperands};
use std::alloc::{AllocError, Global};
use std::mem;

/// Replaces these in two operands of one type, and in that type.
fn rewrite_pair<R: Rewrite>(
    alloc: Global,
    by: &R,
    made: &mut u64,
    ty: &mut TyText,
    left: &mut Operand,
    right: &mut Operand,
) -> Result<(), AllocError>
    ensures ty { OnOk result (ty.new ≡ R.ty_of by.now ty.old) }
    ensures left { OnOk result (left.new ≡ rewritten_operand (R.ty_of by.now) (R.gep_of by.now) left.old) }
    ensures right { OnOk result (right.new ≡ rewritten_operand (R.ty_of by.now) (R.gep_of by.now) right.old) }
{
    by.ty(made, ty)?;
    left.rewrite(alloc, by, made)?;
    right.rewrite(alloc, by, made)
}

impl<R: Rewrite> Rewritten<R> for TypedOperands {
    ghost rewritten = { each rewritten_typed };

    fn rewrite(&mut self, alloc: Global, by: &R, made: &mut u64) -> Result<(), AllocError> {
        let operands = mem::replace(self, TypedOperands::from_vec(Vec::new(alloc)));
        let operands = rewritten_list(alloc, by, made, operands.into_vec())?;
        drop(mem::replace(self, TypedOperands::from_vec(operands)));
        Ok(())
    }
}

impl<R: Rewrite> Rewritten<R> for Args {
    ghost rewritten = { each rewritten_arg };

    fn rewrite(&mut self, alloc: Global, by: &R, made: &mut u64) -> Result<(), AllocError> {
        let args = mem::replace(self, Args::from_vec(Vec::new(alloc)));
        let args = rewritten_list(alloc, by, made, args.into_vec())?;
        drop(mem::replace(self, Args::from_vec(args)));
        Ok(())
    }
}

impl<R: Rewrite> Rewritten<R> for Op {
    ghost rewritten = { rewritten_op };

    fn rewrite(&mut self, alloc: Global, by: &R, made: &mut u64) -> Result<(), AllocError> {
        match self {
            Op::Wrapping {
                ty,
                left,
                right,
                ..
            } => rewrite_pair(alloc, by, made, ty, left, right),
            Op::Exact {
                ty,
                left,
                right,
                ..
            } => rewrite_pair(alloc, by, made, ty, left, right),
            Op::Bitwise {
                ty,
                left,
                right,
                ..
            } => rewrite_pair(alloc, by, made, ty, left, right),
            Op::Icmp {
                ty,
                left,
                right,
                ..
            } => rewrite_pair(alloc, by, made, ty, left, right),
            Op::Select {
                condition_ty,
                condition,
                then_ty,
                then_value,
                else_ty,
                else_value,
            } => {
                rewrite_value(alloc, by, made, condition_ty, condition)?;
                rewrite_value(alloc, by, made, then_ty, then_value)?;
                rewrite_value(alloc, by, made, else_ty, else_value)
            }
            Op::Cast {
                from,
                value,
                to,
                ..
            } => {
                rewrite_value(alloc, by, made, from, value)?;
                by.ty(made, to)
            }
            Op::Freeze { ty, value } => rewrite_value(alloc, by, made, ty, value),
            Op::Gep {
                ty,
                base_ty,
                base,
                indices,
                ..
            } => {
                by.ty(made, ty)?;
                rewrite_value(alloc, by, made, base_ty, base)?;
                indices.rewrite(alloc, by, made)
            }
            Op::Load {
                ty,
                address_ty,
                address,
                ..
            } => {
                by.ty(made, ty)?;
                rewrite_value(alloc, by, made, address_ty, address)
            }
            Op::Store {
                ty,
                value,
                address_ty,
                address,
                ..
            } => {
                rewrite_value(alloc, by, made, ty, value)?;
                rewrite_value(alloc, by, made, address_ty, address)
            }
            Op::Alloca { ty, count, .. } => {
                by.ty(made, ty)?;
                count.rewrite(alloc, by, made)
            }
            Op::Call {
                result,
                params,
                args,
                ..
            } => {
                result.rewrite(alloc, by, made)?;
                params.rewrite(alloc, by, made)?;
                args.rewrite(alloc, by, made)
            }
        }
    }
}

impl<R: Rewrite> Rewritten<R> for Instr {
    ghost rewritten = { rewritten_instr };

    fn rewrite(&mut self, alloc: Global, by: &R, made: &mut u64) -> Result<(), AllocError> {
        self.op.rewrite(alloc, by, made)
    }
}

impl<R: Rewrite> Rewritten<R> for Instrs {
    ghost rewritten = { each rewritten_instr };

    fn rewrite(&mut self, alloc: Global, by: &R, made: &mut u64) -> Result<(), AllocError> {
        let instrs = mem::replace(self, Instrs::from_vec(Vec::new(alloc)));
        let instrs = rewritten_list(alloc, by, made, instrs.into_vec())?;
        drop(mem::replace(self, Instrs::from_vec(instrs)));
        Ok(())
    }
}
