//! The module of items in order.
ghost use Rattle.std.specs.Prelude.{◌≡◌, List, IfOk};
ghost use Rattle.ir_entities.specs.declared.entity.Entity.{Entity};
ghost use Rattle.ir_numbers.specs.Modules.{module_of};
ghost use Rattle.ir_numbers.specs.Numbered.{numbered_entities};

use crate::parts::Parts;
use ir_entities::Entities;
use ir_syntax::Module;
use std::alloc::{AllocError, Global};

/// The items of a module keep their order among items of all kinds: no other items, with their places and numbers, make
/// the same module.
pub fn items_keep_their_order()
    ensures { (es others : List Entity) → module_of (numbered_entities es) ≡ module_of (numbered_entities others) →
        numbered_entities es ≡ numbered_entities others }
{}

/// The module of these items.
///
/// # Errors
///
/// [`AllocError`].
pub fn module_from(alloc: Global, entities: Entities) -> Result<Module, AllocError>
    ensures { IfOk result (λ m. m ≡ module_of entities) }
{
    let mut parts = Parts::new(alloc);
    let mut rest = entities.into_vec().into_iter();
    while let Some(entity) = rest.next() {
        parts.push(entity)?;
    }
    Ok(parts.into_module())
}
