//! The items that global names stand for.
ghost use Rattle.std.specs.Prelude.{◌≡◌, ℕ, IfOk, OnOk, option_map};
ghost use Rattle.ir_ident.specs.NameMaps.{or_else, value_of};
ghost use Rattle.ir_ident.specs.Places.{place_by};
ghost use Rattle.ir_ident.specs.declared.name.Name.{Name};
ghost use Rattle.ir_scope.specs.Globals.{global_item};
ghost use Rattle.ir_scope.specs.declared.item.GlobalItem.{GlobalItem};
ghost use Rattle.ir_scope.specs.declared.item.GlobalItem.TheVariants as items;

use crate::item::GlobalItem;
use ir_ident::{Name, NameMap};
use ir_syntax::{Alias, Function, Module};
use std::alloc::{AllocError, Global};

/// The items of a module by their names. Where several have one name it is a variable's, or else a function's, and of these
/// the first one's.
///
/// # Errors
///
/// [`AllocError`].
pub fn global_items(alloc: Global, m: &Module) -> Result<NameMap<'_, GlobalItem>, AllocError>
    ensures { IfOk result (λ items. (name : Name) → value_of items name ≡ global_item m.now name) }
{
    let mut found = NameMap::new(alloc);
    add_all(&mut found, m.globals.as_slice())?;
    add_all(&mut found, m.functions.as_slice())?;
    add_all(&mut found, m.aliases.as_slice())?;
    Ok(found)
}

/// An item of a kind that has global names.
trait Item {
    /// Its name.
    ghost name_of: { Self → Name };

    /// An item of this kind by its place.
    ghost item_at: { ℕ → GlobalItem };

    /// Its name.
    fn name(&self) -> &Name
        ensures { result.now ≡ name_of self.now };

    /// An item of this kind by its place.
    fn at(place: usize) -> GlobalItem
        ensures { result ≡ item_at place };
}

impl Item for ir_syntax::Global {
    ghost name_of = { λ g. g.name };

    ghost item_at = { items.Variable };

    fn name(&self) -> &Name {
        &self.name
    }

    fn at(place: usize) -> GlobalItem {
        GlobalItem::Variable(place)
    }
}

impl Item for Function {
    ghost name_of = { λ f. f.name };

    ghost item_at = { items.Function };

    fn name(&self) -> &Name {
        &self.name
    }

    fn at(place: usize) -> GlobalItem {
        GlobalItem::Function(place)
    }
}

impl Item for Alias {
    ghost name_of = { λ a. a.name };

    ghost item_at = { items.Alias };

    fn name(&self) -> &Name {
        &self.name
    }

    fn at(place: usize) -> GlobalItem {
        GlobalItem::Alias(place)
    }
}

/// Adds items of one kind behind those that were found.
fn add_all<'a, T: Item>(
    found: &mut NameMap<'a, GlobalItem>,
    list: &'a [T],
) -> Result<(), AllocError>
    ensures { OnOk result ((name : Name) → value_of found.new name
        ≡ or_else (value_of found.old name) (option_map T.item_at (place_by T.name_of list.now name))) }
{
    for (place, item) in list.iter().enumerate() {
        found.add(item.name(), T::at(place))?;
    }
    Ok(())
}
