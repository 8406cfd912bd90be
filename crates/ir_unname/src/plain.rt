//! Types without names as the text writes them.
ghost use Rattle.std.specs.Prelude.{◌≡◌, IfOk};
ghost use Rattle.ir_syntax.specs.Types.{trees_from};
ghost use Rattle.ir_unname.specs.Plain.{text_of, texts_of};
ghost use Rattle.ty_core.specs.Tree.{tree_of, trees_of};

use ir_syntax::{TyText, TypeTexts};
use std::alloc::{AllocError, Global};
use ty_core::{Ty, TyList};

/// The most places that the types of a module may be given.
const PLACE_LIMIT: u64 = 67_108_864;

/// One place more, unless there are too many: then as where memory runs out.
fn one_more(made: u64) -> Result<u64, AllocError> {
    if made < PLACE_LIMIT {
        Ok(made + 1)
    } else {
        Err(AllocError)
    }
}

/// The text of a type. Its places are added to those that were made before.
///
/// # Errors
///
/// [`AllocError`], also where there are too many places.
#[cycle(writing)]
pub(crate) fn text_of(alloc: Global, made: &mut u64, ty: &Ty) -> Result<TyText, AllocError>
    ensures { IfOk result (λ text. text ≡ text_of (tree_of ty.now)) }
{
    *made = one_more(*made)?;
    match ty {
        Ty::Int { bits } => Ok(TyText::int(*bits)),
        Ty::Ptr => Ok(TyText::ptr()),
        Ty::Array { len, elem } => {
            let elem = text_of(alloc, made, elem)?;
            TyText::array(alloc, *len, elem)
        }
        Ty::Struct { packed, fields } => {
            let fields = texts_of(alloc, made, fields)?;
            TyText::structure(alloc, *packed, fields)
        }
    }
}

/// The texts of the types of fields. Each field has a place of its own beside those of its type.
///
/// # Errors
///
/// [`AllocError`], also where there are too many places.
#[cycle(writing)]
fn texts_of(alloc: Global, made: &mut u64, fields: &TyList) -> Result<TypeTexts, AllocError>
    ensures { IfOk result (λ texts. trees_from texts ≡ texts_of (trees_of fields.now)) }
{
    let mut texts = Vec::new(alloc);
    let mut rest = fields;
    while let TyList::More(head, tail) = rest {
        *made = one_more(*made)?;
        let text = text_of(alloc, made, head)?;
        texts.push(text)?;
        rest = tail;
    }
    Ok(TypeTexts::from_vec(texts))
}
