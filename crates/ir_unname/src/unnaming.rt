//! What types and constant addresses are replaced by, where no type has a name.
ghost use Rattle.std.specs.Prelude.{◌≡◌, ◌∷◌, [], false, IfOk};
ghost use Rattle.ir_syntax.specs.Types.{int};
ghost use Rattle.ir_unname.specs.Plain.{is_scalar};
ghost use Rattle.ir_unname.specs.Unnamed.{byte_offset, without_names};

use crate::plain::text_of;
use ir_geps::gep_offset;
use ir_rewrite::Rewrite;
use ir_sizes::NamedTypes;
use ir_syntax::{ConstantGep, Literal, TyText, TypeTree, TypedLiteral, TypedLiterals};
use std::alloc::{AllocError, Global};
use std::mem;

/// The named types of a module, by which names are replaced.
pub(crate) struct Unnaming<'a> {
    pub(crate) alloc: Global,
    pub(crate) types: NamedTypes<'a>,
}

impl<'a> Drop for Unnaming<'a> {
    fn drop(self) {
        let Unnaming { alloc: _, types } = self;
        drop(types);
    }
}

impl<'a> Rewrite for Unnaming<'a> {
    ghost ty_of = { λ u. without_names u.types };

    ghost gep_of = { λ u. byte_offset u.types };

    #[tactic(auto, using(crate::proofs::ScalarLemmas::scalar_stays))]
    fn ty(&self, made: &mut u64, ty: &mut TyText) -> Result<(), AllocError> {
        if is_scalar(ty) {
            return Ok(());
        }
        if let Some(plain) = self.types.replaced(self.alloc, ty)? {
            let text = text_of(self.alloc, made, &plain)?;
            drop(mem::replace(ty, text));
        }
        Ok(())
    }

    fn gep(&self, gep: &mut ConstantGep) -> Result<(), AllocError> {
        if let Some(offset) = gep_offset(&self.types, gep.parts()) {
            let indices = one_index(self.alloc, offset)?;
            gep.set_path(TyText::int(8), indices);
        }
        Ok(())
    }
}

/// Whether a type is an integer or a pointer: in these there are no names.
fn is_scalar(ty: &TyText) -> bool
    ensures { result ≡ is_scalar ty.now }
{
    matches!(ty.tree(), TypeTree::Int { .. } | TypeTree::Ptr)
}

/// So many bytes as the only index.
fn one_index(alloc: Global, offset: u64) -> Result<TypedLiterals, AllocError>
    ensures { IfOk result (λ indices. indices ≡ record { ty = int 64; value = record { negative = false; magnitude = offset } } ∷ []) }
{
    let index = TypedLiteral {
        ty: TyText::int(64),
        value: Literal {
            negative: false,
            magnitude: u128::from(offset),
        },
    };
    Ok(TypedLiterals::from_vec(vec![in alloc; index]?))
}
