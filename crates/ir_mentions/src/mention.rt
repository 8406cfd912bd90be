//! A type where it is written.
ghost use Rattle.std.specs.Prelude.{◌≡◌, []};
ghost use Rattle.ir_mentions.specs.PartTypes.{part_types};
ghost use Rattle.ir_syntax.specs.Types.{TextTree};

use ir_ident::NameUse;
use ir_syntax::{Operand, TyText};
use ir_walk::Visitor;
use std::alloc::{AllocError, Global};
use std::marker::Model;

/// A type where it is written. Contracts see the type.
#[derive(Drop)]
pub struct Mention<'a> {
    pub(crate) ty: &'a TyText,
}

impl<'a> Model for Mention<'a> {
    ghost use Rattle.ir_syntax.specs.Types.{TextTree};
    ghost use Rattle.ir_syntax.specs.TypeCodes.{tree_code};

    ghost Value = { TextTree };

    ghost coded = { tree_code };

    ghost view = { λ m. m.ty.now };
}

impl<'a> Mention<'a> {
    /// The type.
    pub fn ty(&self) -> &'a TyText
        ensures { result.now ≡ self.now }
    {
        self.ty
    }
}

/// The types that walks found where they are written, in order.
#[derive(Drop)]
pub(crate) struct Mentions<'a> {
    pub(crate) types: Vec<Mention<'a>>,
}

impl<'a> Mentions<'a> {
    /// No types.
    pub(crate) fn new(alloc: Global) -> Mentions<'a>
        ensures { result.types.items ≡ [] }
    {
        Mentions {
            types: Vec::new(alloc),
        }
    }
}

impl<'a> Visitor<'a> for Mentions<'a> {
    ghost Found = { TextTree };

    ghost of_part = { part_types };

    ghost found = { λ m. m.types.items };

    fn ty(&mut self, ty: &'a TyText) -> Result<(), AllocError> {
        self.types.push(Mention { ty })?;
        Ok(())
    }

    fn operand(&mut self, _operand: &'a Operand) -> Result<(), AllocError> {
        Ok(())
    }

    fn callee(&mut self, _callee: &'a NameUse) -> Result<(), AllocError> {
        Ok(())
    }

    fn label(&mut self, _label: &'a NameUse) -> Result<(), AllocError> {
        Ok(())
    }
}
