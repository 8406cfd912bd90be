//! The lists of a module.
ghost use Rattle.std.specs.Prelude.{◌≡◌, IfOk, OnOk};
ghost use Rattle.ir_rewrite.specs.Rewritten.{each, rewritten_type};

use crate::rewrite::{Rewrite, Rewritten};
use ir_syntax::TypeTexts;
use std::alloc::{AllocError, Global};
use std::mem;

/// Replaces types and constant addresses in each of these.
fn rewrite_each<R: Rewrite, T: Rewritten<R>>(
    alloc: Global,
    by: &R,
    made: &mut u64,
    items: &mut [T],
) -> Result<(), AllocError>
    ensures { OnOk result (items.new ≡ each T.rewritten (R.ty_of by.now) (R.gep_of by.now) items.old) }
{
    for item in items.iter_mut() {
        item.rewrite(alloc, by, made)?;
    }
    Ok(())
}

/// The items of a list with types and constant addresses in them replaced.
pub(crate) fn rewritten_list<R: Rewrite, T: Rewritten<R> + Drop>(
    alloc: Global,
    by: &R,
    made: &mut u64,
    mut items: Vec<T>,
) -> Result<Vec<T>, AllocError>
    ensures { IfOk result (λ new. new.items ≡ each T.rewritten (R.ty_of by.now) (R.gep_of by.now) items.items) }
{
    rewrite_each(alloc, by, made, items.as_mut_slice())?;
    Ok(items)
}

impl<R: Rewrite> Rewritten<R> for TypeTexts {
    ghost rewritten = { each rewritten_type };

    fn rewrite(&mut self, alloc: Global, by: &R, made: &mut u64) -> Result<(), AllocError> {
        let types = mem::replace(self, TypeTexts::from_vec(Vec::new(alloc)));
        let types = rewritten_list(alloc, by, made, types.into_vec())?;
        drop(mem::replace(self, TypeTexts::from_vec(types)));
        Ok(())
    }
}
