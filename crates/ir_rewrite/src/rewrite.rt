//! What types and constant addresses are replaced by.
ghost use Rattle.std.specs.Prelude.{◌≡◌, OnOk};
ghost use Rattle.ir_rewrite.specs.Rewritten.{Rewriting};
ghost use Rattle.ir_syntax.specs.Types.{TextTree};
ghost use Rattle.ir_syntax.specs.declared.operand.GepParts.{GepParts};

use ir_syntax::{ConstantGep, TyText};
use std::alloc::{AllocError, Global};

/// What replaces types and constant addresses.
pub trait Rewrite {
    /// What it puts in place of a type.
    ghost ty_of: { Self → TextTree → TextTree };

    /// What it puts in place of a constant address.
    ghost gep_of: { Self → GepParts → GepParts };

    /// Replaces a type. It may add the places that it makes to those that were made before, and end where they are too many.
    ///
    /// # Errors
    ///
    /// [`AllocError`].
    fn ty(&self, made: &mut u64, ty: &mut TyText) -> Result<(), AllocError>
        ensures { OnOk result (ty.new ≡ ty_of self.now ty.old) };

    /// Replaces a constant address.
    ///
    /// # Errors
    ///
    /// [`AllocError`].
    fn gep(&self, gep: &mut ConstantGep) -> Result<(), AllocError>
        ensures { OnOk result (gep.new ≡ gep_of self.now gep.old) };
}

/// What has types and constant addresses in it.
pub(crate) trait Rewritten<R: Rewrite> {
    /// It with these replaced.
    ghost rewritten: { Rewriting Self };

    /// Replaces these in it, where `made` places were made before.
    ///
    /// # Errors
    ///
    /// [`AllocError`].
    fn rewrite(&mut self, alloc: Global, by: &R, made: &mut u64) -> Result<(), AllocError>
        ensures { OnOk result (self.new ≡ rewritten (R.ty_of by.now) (R.gep_of by.now) self.old) };
}
