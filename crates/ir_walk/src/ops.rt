//! The parts of instructions.
ghost use Rattle.std.specs.Prelude.{◌≡◌, ◌++◌, OnOk};
ghost use Rattle.ir_walk.specs.Parts.{arg_parts, instr_parts, op_parts, operand_part, type_part, typed_parts};

use crate::visitor::{Visitor, show_value};
use crate::walk::{Walk, walk_all};
use ir_syntax::{Arg, Instr, Op, Operand, TyText, TypedOperand};
use std::alloc::AllocError;

impl<'a, V: Visitor<'a>> Walk<'a, V> for TypedOperand {
    ghost parts = { typed_parts };

    fn walk(&'a self, visitor: &mut V) -> Result<(), AllocError> {
        show_value(visitor, &self.ty, &self.value)
    }
}

impl<'a, V: Visitor<'a>> Walk<'a, V> for Arg {
    ghost parts = { arg_parts };

    fn walk(&'a self, visitor: &mut V) -> Result<(), AllocError> {
        show_value(visitor, &self.ty, &self.value)
    }
}

impl<'a, V: Visitor<'a>> Walk<'a, V> for Instr {
    ghost parts = { instr_parts };

    fn walk(&'a self, visitor: &mut V) -> Result<(), AllocError> {
        self.op.walk(visitor)
    }
}

/// Shows two operands of one type.
fn show_pair<'a, V: Visitor<'a>>(
    visitor: &mut V,
    ty: &'a TyText,
    left: &'a Operand,
    right: &'a Operand,
) -> Result<(), AllocError>
    ensures { OnOk result (V.found visitor.new
        ≡ V.found visitor.old ++ (V.of_part (type_part ty.now) ++ (V.of_part (operand_part left.now) ++ V.of_part (operand_part right.now)))) }
{
    visitor.ty(ty)?;
    visitor.operand(left)?;
    visitor.operand(right)
}

impl<'a, V: Visitor<'a>> Walk<'a, V> for Op {
    ghost parts = { op_parts };

    fn walk(&'a self, visitor: &mut V) -> Result<(), AllocError> {
        match self {
            Op::Wrapping {
                ty,
                left,
                right,
                ..
            }
            | Op::Exact {
                ty,
                left,
                right,
                ..
            }
            | Op::Bitwise {
                ty,
                left,
                right,
                ..
            }
            | Op::Icmp {
                ty,
                left,
                right,
                ..
            } => show_pair(visitor, ty, left, right),
            Op::Select {
                condition_ty,
                condition,
                then_ty,
                then_value,
                else_ty,
                else_value,
            } => {
                show_value(visitor, condition_ty, condition)?;
                show_value(visitor, then_ty, then_value)?;
                show_value(visitor, else_ty, else_value)
            }
            Op::Cast {
                from,
                value,
                to,
                ..
            } => {
                show_value(visitor, from, value)?;
                visitor.ty(to)
            }
            Op::Freeze { ty, value } => show_value(visitor, ty, value),
            Op::Gep {
                ty,
                base_ty,
                base,
                indices,
                ..
            } => {
                visitor.ty(ty)?;
                show_value(visitor, base_ty, base)?;
                walk_all(indices.as_slice(), visitor)
            }
            Op::Load {
                ty,
                address_ty,
                address,
                ..
            } => {
                visitor.ty(ty)?;
                show_value(visitor, address_ty, address)
            }
            Op::Store {
                ty,
                value,
                address_ty,
                address,
                ..
            } => {
                show_value(visitor, ty, value)?;
                show_value(visitor, address_ty, address)
            }
            Op::Alloca { ty, count, .. } => {
                visitor.ty(ty)?;
                count.walk(visitor)
            }
            Op::Call {
                result,
                params,
                callee,
                args,
            } => {
                result.walk(visitor)?;
                params.walk(visitor)?;
                visitor.callee(callee)?;
                walk_all(args.as_slice(), visitor)
            }
        }
    }
}
