//! The parts of blocks and functions.
ghost use Rattle.std.specs.Prelude.{◌≡◌, OnOk};
ghost use Rattle.ir_rewrite.specs.Rewritten.{each, rewritten_block, rewritten_case, rewritten_entry, rewritten_function, rewritten_param, rewritten_phi, rewritten_term};

use crate::lists::rewritten_list;
use crate::parts::rewrite_value;
use crate::rewrite::{Rewrite, Rewritten};
use ir_syntax::{
    Block, Blocks, Case, Cases, Function, Param, Params, Phi, PhiEntries, PhiEntry, Phis, Term,
};
use std::alloc::{AllocError, Global};
use std::mem;

impl<R: Rewrite> Rewritten<R> for PhiEntry {
    ghost rewritten = { rewritten_entry };

    fn rewrite(&mut self, alloc: Global, by: &R, made: &mut u64) -> Result<(), AllocError> {
        self.value.rewrite(alloc, by, made)
    }
}

impl<R: Rewrite> Rewritten<R> for PhiEntries {
    ghost rewritten = { each rewritten_entry };

    fn rewrite(&mut self, alloc: Global, by: &R, made: &mut u64) -> Result<(), AllocError> {
        let entries = mem::replace(self, PhiEntries::from_vec(Vec::new(alloc)));
        let entries = rewritten_list(alloc, by, made, entries.into_vec())?;
        drop(mem::replace(self, PhiEntries::from_vec(entries)));
        Ok(())
    }
}

impl<R: Rewrite> Rewritten<R> for Phi {
    ghost rewritten = { rewritten_phi };

    fn rewrite(&mut self, alloc: Global, by: &R, made: &mut u64) -> Result<(), AllocError> {
        by.ty(made, &mut self.ty)?;
        self.entries.rewrite(alloc, by, made)
    }
}

impl<R: Rewrite> Rewritten<R> for Phis {
    ghost rewritten = { each rewritten_phi };

    fn rewrite(&mut self, alloc: Global, by: &R, made: &mut u64) -> Result<(), AllocError> {
        let phis = mem::replace(self, Phis::from_vec(Vec::new(alloc)));
        let phis = rewritten_list(alloc, by, made, phis.into_vec())?;
        drop(mem::replace(self, Phis::from_vec(phis)));
        Ok(())
    }
}

impl<R: Rewrite> Rewritten<R> for Case {
    ghost rewritten = { rewritten_case };

    fn rewrite(&mut self, _alloc: Global, by: &R, made: &mut u64) -> Result<(), AllocError> {
        by.ty(made, &mut self.ty)
    }
}

impl<R: Rewrite> Rewritten<R> for Cases {
    ghost rewritten = { each rewritten_case };

    fn rewrite(&mut self, alloc: Global, by: &R, made: &mut u64) -> Result<(), AllocError> {
        let cases = mem::replace(self, Cases::from_vec(Vec::new(alloc)));
        let cases = rewritten_list(alloc, by, made, cases.into_vec())?;
        drop(mem::replace(self, Cases::from_vec(cases)));
        Ok(())
    }
}

impl<R: Rewrite> Rewritten<R> for Term {
    ghost rewritten = { rewritten_term };

    fn rewrite(&mut self, alloc: Global, by: &R, made: &mut u64) -> Result<(), AllocError> {
        match self {
            Term::ReturnVoid { .. } | Term::Br { .. } | Term::Unreachable { .. } => Ok(()),
            Term::Ret { ty, value, .. } => rewrite_value(alloc, by, made, ty, value),
            Term::CondBr { ty, condition, .. } => rewrite_value(alloc, by, made, ty, condition),
            Term::Switch {
                ty,
                value,
                cases,
                ..
            } => {
                rewrite_value(alloc, by, made, ty, value)?;
                cases.rewrite(alloc, by, made)
            }
        }
    }
}

impl<R: Rewrite> Rewritten<R> for Block {
    ghost rewritten = { rewritten_block };

    fn rewrite(&mut self, alloc: Global, by: &R, made: &mut u64) -> Result<(), AllocError> {
        self.phis.rewrite(alloc, by, made)?;
        self.instrs.rewrite(alloc, by, made)?;
        self.term.rewrite(alloc, by, made)
    }
}

impl<R: Rewrite> Rewritten<R> for Blocks {
    ghost rewritten = { each rewritten_block };

    fn rewrite(&mut self, alloc: Global, by: &R, made: &mut u64) -> Result<(), AllocError> {
        let blocks = mem::replace(self, Blocks::from_vec(Vec::new(alloc)));
        let blocks = rewritten_list(alloc, by, made, blocks.into_vec())?;
        drop(mem::replace(self, Blocks::from_vec(blocks)));
        Ok(())
    }
}

impl<R: Rewrite> Rewritten<R> for Param {
    ghost rewritten = { rewritten_param };

    fn rewrite(&mut self, alloc: Global, by: &R, made: &mut u64) -> Result<(), AllocError> {
        self.ty.rewrite(alloc, by, made)
    }
}

impl<R: Rewrite> Rewritten<R> for Params {
    ghost rewritten = { each rewritten_param };

    fn rewrite(&mut self, alloc: Global, by: &R, made: &mut u64) -> Result<(), AllocError> {
        let params = mem::replace(self, Params::from_vec(Vec::new(alloc)));
        let params = rewritten_list(alloc, by, made, params.into_vec())?;
        drop(mem::replace(self, Params::from_vec(params)));
        Ok(())
    }
}

impl<R: Rewrite> Rewritten<R> for Function {
    ghost rewritten = { rewritten_function };

    fn rewrite(&mut self, alloc: Global, by: &R, made: &mut u64) -> Result<(), AllocError> {
        self.result.rewrite(alloc, by, made)?;
        self.params.rewrite(alloc, by, made)?;
        self.blocks.rewrite(alloc, by, made)
    }
}
