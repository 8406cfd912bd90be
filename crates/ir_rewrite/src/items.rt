//! The items of a module, and a whole one.
ghost use Rattle.std.specs.Prelude.{◌≡◌, IfOk, OnOk};
ghost use Rattle.ir_rewrite.specs.Modules.{rewritten_alias, rewritten_base, rewritten_global, rewritten_module};
ghost use Rattle.ir_rewrite.specs.Rewritten.{each, rewritten_function};

use crate::lists::rewritten_list;
use crate::rewrite::{Rewrite, Rewritten};
use ir_syntax::{Alias, AliasBase, Aliases, Functions, Globals, Module};
use std::alloc::{AllocError, Global};
use std::mem;

impl<R: Rewrite> Rewritten<R> for ir_syntax::Global {
    ghost rewritten = { rewritten_global };

    fn rewrite(&mut self, alloc: Global, by: &R, made: &mut u64) -> Result<(), AllocError> {
        by.ty(made, &mut self.ty)?;
        self.init.rewrite(alloc, by, made)
    }
}

impl<R: Rewrite> Rewritten<R> for Globals {
    ghost rewritten = { each rewritten_global };

    fn rewrite(&mut self, alloc: Global, by: &R, made: &mut u64) -> Result<(), AllocError> {
        let globals = mem::replace(self, Globals::from_vec(Vec::new(alloc)));
        let globals = rewritten_list(alloc, by, made, globals.into_vec())?;
        drop(mem::replace(self, Globals::from_vec(globals)));
        Ok(())
    }
}

impl<R: Rewrite> Rewritten<R> for Functions {
    ghost rewritten = { each rewritten_function };

    fn rewrite(&mut self, alloc: Global, by: &R, made: &mut u64) -> Result<(), AllocError> {
        let functions = mem::replace(self, Functions::from_vec(Vec::new(alloc)));
        let functions = rewritten_list(alloc, by, made, functions.into_vec())?;
        drop(mem::replace(self, Functions::from_vec(functions)));
        Ok(())
    }
}

impl<R: Rewrite> Rewritten<R> for AliasBase {
    ghost rewritten = { rewritten_base };

    fn rewrite(&mut self, _alloc: Global, by: &R, _made: &mut u64) -> Result<(), AllocError> {
        match self {
            AliasBase::Global(_) => Ok(()),
            AliasBase::Gep(gep) => by.gep(gep),
        }
    }
}

impl<R: Rewrite> Rewritten<R> for Alias {
    ghost rewritten = { rewritten_alias };

    fn rewrite(&mut self, alloc: Global, by: &R, made: &mut u64) -> Result<(), AllocError> {
        self.result.rewrite(alloc, by, made)?;
        self.params.rewrite(alloc, by, made)?;
        self.base.rewrite(alloc, by, made)
    }
}

impl<R: Rewrite> Rewritten<R> for Aliases {
    ghost rewritten = { each rewritten_alias };

    fn rewrite(&mut self, alloc: Global, by: &R, made: &mut u64) -> Result<(), AllocError> {
        let aliases = mem::replace(self, Aliases::from_vec(Vec::new(alloc)));
        let aliases = rewritten_list(alloc, by, made, aliases.into_vec())?;
        drop(mem::replace(self, Aliases::from_vec(aliases)));
        Ok(())
    }
}

/// This module with each type replaced that it writes, and each operand and base of an alias that is a constant address. The
/// definitions of types stay as they are, and so does all else, in order.
///
/// # Errors
///
/// [`AllocError`].
pub fn rewrite_module<R: Rewrite>(
    alloc: Global,
    by: &R,
    mut m: Module,
) -> Result<Module, AllocError>
    ensures { IfOk result (λ n. n ≡ rewritten_module (R.ty_of by.now) (R.gep_of by.now) m) }
{
    let mut made = 0u64;
    m.globals.rewrite(alloc, by, &mut made)?;
    m.functions.rewrite(alloc, by, &mut made)?;
    m.aliases.rewrite(alloc, by, &mut made)?;
    Ok(m)
}
