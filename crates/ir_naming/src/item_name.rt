//! Items by their names.
ghost use Rattle.std.specs.Prelude.{◌≡◌};

use ir_ident::Name;
use std::marker::Model;

/// An item that has a global name. Contracts see the name itself.
#[derive(Drop)]
pub struct ItemName<'a> {
    /// Its place among all items of the module, counted from 0.
    pub place: u32,
    /// The line of its first token.
    pub line: u32,
    /// Whether it is defined, and not declared alone.
    pub defined: bool,
    /// Its name.
    pub name: &'a Name,
}

impl<'a> Model for ItemName<'a> {
    ghost use Rattle.ir_naming.specs.Items.{NamedItem, item_code};

    ghost Value = { NamedItem };

    ghost coded = { item_code };

    ghost view = { λ i. record { place = i.place; line = i.line; defined = i.defined; name = i.name.now } };
}

impl<'a> ItemName<'a> {
    /// The same item.
    pub(crate) fn copy(&self) -> ItemName<'a>
        ensures { result ≡ self.now }
    {
        ItemName {
            place: self.place,
            line: self.line,
            defined: self.defined,
            name: self.name,
        }
    }
}
