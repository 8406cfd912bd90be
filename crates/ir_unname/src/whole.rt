//! A whole module without names of types.
ghost use Rattle.std.specs.Prelude.{◌≡◌, IfOk};
ghost use Rattle.ir_rewrite.specs.Modules.{rewritten_module};
ghost use Rattle.ir_unname.specs.Unnamed.{byte_offset, unnamed, without_names};

use crate::unnaming::Unnaming;
use ir_rewrite::rewrite_module;
use ir_sizes::NamedTypes;
use ir_syntax::{Module, TypeDef, TypeDefs};
use std::alloc::{AllocError, Global};
use std::mem;

/// This module without names of types: each type that has a size is written with what the names in it stand for, and each
/// constant address as a number of bytes behind its base. No type is defined any more, and all else is as it was, and in
/// order (LangRef, "Structure Type" and "'getelementptr' Instruction").
///
/// # Errors
///
/// [`AllocError`], also where the types that stand for names have more than 67,108,864 places together.
pub fn without_type_names(alloc: Global, mut m: Module) -> Result<Module, AllocError>
    ensures { IfOk result (λ n. n ≡ unnamed m) }
{
    let defs = mem::replace(&mut m.types, TypeDefs::from_vec(Vec::new(alloc)));
    unnamed_by(alloc, defs.as_slice(), m)
}

/// A module with the names in its types replaced by what they stand for in these definitions.
fn unnamed_by(alloc: Global, defs: &[TypeDef], m: Module) -> Result<Module, AllocError>
    ensures { IfOk result (λ n. n ≡ rewritten_module (without_names defs.now) (byte_offset defs.now) m) }
{
    match NamedTypes::new(alloc, defs) {
        Ok(types) => {
            let by = Unnaming { alloc, types };
            rewrite_module(alloc, &by, m)
        }
        Err(end) => {
            drop(m);
            Err(end)
        }
    }
}
