//! The types that a part of a function writes, those in its constant addresses too.
ghost use Rattle.std.specs.Prelude.{◌≡◌, ◌++◌, ◌∷◌, [], map, OnOk};
ghost use Rattle.ir_op_rules.specs.Sizes.{operand_types, types_in_part};
ghost use Rattle.ir_syntax.specs.Types.{TextTree};

use ir_ident::NameUse;
use ir_syntax::{GepParts, Operand, TyText, TypedLiteral};
use ir_walk::Visitor;
use std::alloc::{AllocError, Global};
use std::marker::Model;

/// A type where it is written. Contracts see the type.
#[derive(Drop)]
pub(crate) struct Written<'a> {
    pub(crate) ty: &'a TyText,
}

impl<'a> Model for Written<'a> {
    ghost use Rattle.ir_syntax.specs.Types.{TextTree};
    ghost use Rattle.ir_syntax.specs.TypeCodes.{tree_code};

    ghost Value = { TextTree };

    ghost coded = { tree_code };

    ghost view = { λ w. w.ty.now };
}

/// The types that walks found where they are written, in order.
#[derive(Drop)]
pub(crate) struct WrittenTypes<'a> {
    pub(crate) types: Vec<Written<'a>>,
}

impl<'a> WrittenTypes<'a> {
    /// No types.
    pub(crate) fn new(alloc: Global) -> WrittenTypes<'a>
        ensures { result.types.items ≡ [] }
    {
        WrittenTypes {
            types: Vec::new(alloc),
        }
    }

    /// Drops all types, and keeps their memory.
    pub(crate) fn clear(&mut self)
        ensures { self.new.types.items ≡ [] }
    {
        self.types.clear();
    }
}

impl<'a> Visitor<'a> for WrittenTypes<'a> {
    ghost Found = { TextTree };

    ghost of_part = { types_in_part };

    ghost found = { λ w. w.types.items };

    fn ty(&mut self, ty: &'a TyText) -> Result<(), AllocError> {
        self.types.push(Written { ty })?;
        Ok(())
    }

    fn operand(&mut self, operand: &'a Operand) -> Result<(), AllocError> {
        push_operand_types(&mut self.types, operand)
    }

    fn callee(&mut self, _callee: &'a NameUse) -> Result<(), AllocError> {
        Ok(())
    }

    fn label(&mut self, _label: &'a NameUse) -> Result<(), AllocError> {
        Ok(())
    }
}

/// Adds the types that an operand writes: those of a constant address.
fn push_operand_types<'a>(
    types: &mut Vec<Written<'a>>,
    operand: &'a Operand,
) -> Result<(), AllocError>
    ensures { OnOk result (types.new.items ≡ types.old.items ++ operand_types operand.now) }
{
    match operand {
        Operand::Gep(gep) => push_gep_types(types, gep.parts()),
        Operand::Local(_)
        | Operand::Global(_)
        | Operand::Int(_)
        | Operand::True
        | Operand::False
        | Operand::Null
        | Operand::Undef
        | Operand::Poison => Ok(()),
    }
}

fn push_gep_types<'a>(types: &mut Vec<Written<'a>>, gep: &'a GepParts) -> Result<(), AllocError>
    ensures { OnOk result (types.new.items ≡ types.old.items ++ gep.now.ty ∷ map (λ i. i.ty) gep.now.indices) }
{
    types.push(Written { ty: &gep.ty })?;
    push_index_types(types, gep.indices.as_slice())
}

fn push_index_types<'a>(
    types: &mut Vec<Written<'a>>,
    indices: &'a [TypedLiteral],
) -> Result<(), AllocError>
    ensures { OnOk result (types.new.items ≡ types.old.items ++ map (λ i. i.ty) indices.now) }
{
    for index in indices {
        types.push(Written { ty: &index.ty })?;
    }
    Ok(())
}
