//! What a walk shows the parts to.
ghost use Rattle.std.specs.Prelude.{◌≡◌, ◌++◌, List, OnOk};
ghost use Rattle.ir_walk.specs.Parts.{Part, callee_part, label_part, operand_part, type_part};

use ir_ident::NameUse;
use ir_syntax::{Operand, TyText};
use std::alloc::AllocError;

/// What finds something in each part that it is shown, and keeps it in order.
pub trait Visitor<'a> {
    /// What it finds.
    ghost Found: { Type 0 };

    /// What it finds in a part.
    ghost of_part: { Part → List Found };

    /// What it has found.
    ghost found: { Self → List Found };

    /// Shows it a type.
    ///
    /// # Errors
    ///
    /// [`AllocError`].
    fn ty(&mut self, ty: &'a TyText) -> Result<(), AllocError>
        ensures { OnOk result (found self.new ≡ found self.old ++ of_part (type_part ty.now)) };

    /// Shows it an operand.
    ///
    /// # Errors
    ///
    /// [`AllocError`].
    fn operand(&mut self, operand: &'a Operand) -> Result<(), AllocError>
        ensures { OnOk result (found self.new ≡ found self.old ++ of_part (operand_part operand.now)) };

    /// Shows it the function that is called.
    ///
    /// # Errors
    ///
    /// [`AllocError`].
    fn callee(&mut self, callee: &'a NameUse) -> Result<(), AllocError>
        ensures { OnOk result (found self.new ≡ found self.old ++ of_part (callee_part callee.now)) };

    /// Shows it the label of another block.
    ///
    /// # Errors
    ///
    /// [`AllocError`].
    fn label(&mut self, label: &'a NameUse) -> Result<(), AllocError>
        ensures { OnOk result (found self.new ≡ found self.old ++ of_part (label_part label.now)) };
}

/// Shows a type, and an operand behind it.
pub(crate) fn show_value<'a, V: Visitor<'a>>(
    visitor: &mut V,
    ty: &'a TyText,
    value: &'a Operand,
) -> Result<(), AllocError>
    ensures { OnOk result (V.found visitor.new ≡ V.found visitor.old ++ (V.of_part (type_part ty.now) ++ V.of_part (operand_part value.now))) }
{
    visitor.ty(ty)?;
    visitor.operand(value)
}
