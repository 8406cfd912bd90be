//! The parts of blocks and functions.
ghost use Rattle.std.specs.Prelude.{◌≡◌, ◌++◌, OnOk};
ghost use Rattle.std.specs.List.{flat_map};
ghost use Rattle.ir_walk.specs.Parts.{block_parts, case_parts, entry_parts, function_parts, param_parts, phi_parts, signature_parts, term_parts};

use crate::visitor::{Visitor, show_value};
use crate::walk::{Walk, walk_all};
use ir_syntax::{Block, Blocks, Case, Function, Param, Phi, PhiEntry, Term};
use std::alloc::AllocError;

impl<'a, V: Visitor<'a>> Walk<'a, V> for PhiEntry {
    ghost parts = { entry_parts };

    fn walk(&'a self, visitor: &mut V) -> Result<(), AllocError> {
        visitor.operand(&self.value)?;
        visitor.label(&self.block)
    }
}

impl<'a, V: Visitor<'a>> Walk<'a, V> for Phi {
    ghost parts = { phi_parts };

    fn walk(&'a self, visitor: &mut V) -> Result<(), AllocError> {
        visitor.ty(&self.ty)?;
        walk_all(self.entries.as_slice(), visitor)
    }
}

impl<'a, V: Visitor<'a>> Walk<'a, V> for Case {
    ghost parts = { case_parts };

    fn walk(&'a self, visitor: &mut V) -> Result<(), AllocError> {
        visitor.ty(&self.ty)?;
        visitor.label(&self.target)
    }
}

impl<'a, V: Visitor<'a>> Walk<'a, V> for Term {
    ghost parts = { term_parts };

    fn walk(&'a self, visitor: &mut V) -> Result<(), AllocError> {
        match self {
            Term::ReturnVoid { .. } | Term::Unreachable { .. } => Ok(()),
            Term::Ret { ty, value, .. } => show_value(visitor, ty, value),
            Term::Br { target, .. } => visitor.label(target),
            Term::CondBr {
                ty,
                condition,
                then_target,
                else_target,
                ..
            } => {
                show_value(visitor, ty, condition)?;
                visitor.label(then_target)?;
                visitor.label(else_target)
            }
            Term::Switch {
                ty,
                value,
                default,
                cases,
                ..
            } => {
                show_value(visitor, ty, value)?;
                visitor.label(default)?;
                walk_all(cases.as_slice(), visitor)
            }
        }
    }
}

impl<'a, V: Visitor<'a>> Walk<'a, V> for Block {
    ghost parts = { block_parts };

    fn walk(&'a self, visitor: &mut V) -> Result<(), AllocError> {
        walk_all(self.phis.as_slice(), visitor)?;
        walk_all(self.instrs.as_slice(), visitor)?;
        self.term.walk(visitor)
    }
}

impl<'a, V: Visitor<'a>> Walk<'a, V> for Blocks {
    ghost parts = { flat_map block_parts };

    fn walk(&'a self, visitor: &mut V) -> Result<(), AllocError> {
        walk_all(self.as_slice(), visitor)
    }
}

impl<'a, V: Visitor<'a>> Walk<'a, V> for Param {
    ghost parts = { param_parts };

    fn walk(&'a self, visitor: &mut V) -> Result<(), AllocError> {
        self.ty.walk(visitor)
    }
}

impl<'a, V: Visitor<'a>> Walk<'a, V> for Function {
    ghost parts = { function_parts };

    fn walk(&'a self, visitor: &mut V) -> Result<(), AllocError> {
        walk_signature(self, visitor)?;
        self.blocks.walk(visitor)
    }
}

/// Shows the parts in front of the blocks of a function to a visitor, in order.
///
/// # Errors
///
/// [`AllocError`].
pub fn walk_signature<'a, V: Visitor<'a>>(
    function: &'a Function,
    visitor: &mut V,
) -> Result<(), AllocError>
    ensures { OnOk result (V.found visitor.new ≡ V.found visitor.old ++ flat_map V.of_part (signature_parts function.now)) }
{
    function.result.walk(visitor)?;
    walk_all(function.params.as_slice(), visitor)
}
