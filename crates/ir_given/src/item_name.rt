//! The names of the items of a module, each kind in the order of the text.
ghost use Rattle.std.specs.Prelude.{◌≡◌, ◌++◌, IfOk, OnOk, map};
ghost use Rattle.ir_ident.specs.declared.name.Name.{Name};
ghost use Rattle.ir_given.specs.Given.{names_with};

use ir_ident::Name;
use ir_syntax::{Alias, Function, Global as Variable, Module};
use std::alloc::{AllocError, Global};
use std::marker::Model;

/// The name of an item. Contracts see the name itself.
#[derive(Drop)]
pub(crate) struct ItemName<'m> {
    pub(crate) name: &'m Name,
}

impl<'m> Model for ItemName<'m> {
    ghost use Rattle.ir_given.specs.Codes.{coded_name};
    ghost use Rattle.ir_ident.specs.declared.name.Name.{Name};

    ghost Value = { Name };

    ghost coded = { coded_name };

    ghost view = { λ i. i.name.now };
}

/// An item that has a name.
trait Named {
    /// Its name.
    ghost name_of: { Self → Name };

    /// Its name.
    fn name(&self) -> &Name
        ensures { result.now ≡ name_of self.now };
}

impl Named for Function {
    ghost name_of = { λ f. f.name };

    fn name(&self) -> &Name {
        &self.name
    }
}

impl Named for Variable {
    ghost name_of = { λ g. g.name };

    fn name(&self) -> &Name {
        &self.name
    }
}

impl Named for Alias {
    ghost name_of = { λ a. a.name };

    fn name(&self) -> &Name {
        &self.name
    }
}

/// The names of the functions, of the variables and of these aliases of a module.
pub(crate) fn names_with<'m>(
    alloc: Global,
    m: &'m Module,
    aliases: &'m [Alias],
) -> Result<Vec<ItemName<'m>>, AllocError>
    ensures { IfOk result (λ names. names.items ≡ names_with m.now aliases.now) }
{
    let mut names = Vec::new(alloc);
    push_names(&mut names, m.functions.as_slice())?;
    push_names(&mut names, m.globals.as_slice())?;
    push_names(&mut names, aliases)?;
    Ok(names)
}

/// Adds the names of these items at the end.
fn push_names<'m, T: Named>(names: &mut Vec<ItemName<'m>>, items: &'m [T]) -> Result<(), AllocError>
    ensures { OnOk result (names.new.items ≡ names.old.items ++ map T.name_of items.now) }
{
    for item in items {
        names.push(ItemName { name: item.name() })?;
    }
    Ok(())
}
