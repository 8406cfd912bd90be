//! What stands at the top of a module.
ghost use Rattle.std.specs.Prelude.{◌≡◌};

use ir_syntax::{Alias, Function, Global, TypeDef};
use std::marker::Model;

/// An item at the top of a module that is kept (LangRef, "Module Structure").
#[derive(Drop)]
pub enum Entity {
    /// A named type.
    Type(TypeDef),
    /// A global variable, defined or declared.
    Global(Global),
    /// A function, defined or declared.
    Function(Function),
    /// An alias.
    Alias(Alias),
}

/// The items of a module in the order of the text. Contracts see a list.
#[derive(Drop)]
pub struct Entities {
    entities: Vec<Entity>,
}

impl Model for Entities {
    ghost use Rattle.std.specs.Prelude.{List};
    ghost use Rattle.std.specs.Coded.{coded_list};
    ghost use Rattle.ir_entities.specs.declared.entity.Entity.{Entity};
    ghost use Rattle.ir_entities.specs.contracts.entity.Entity as entity;

    ghost Value = { List Entity };

    ghost coded = { coded_list entity.the_row.coded };

    ghost view = { λ e. e.entities.items };
}

impl Entities {
    /// These items, in their order.
    pub fn from_vec(entities: Vec<Entity>) -> Entities
        ensures { result ≡ entities.items }
    {
        Entities { entities }
    }

    /// The items in order.
    pub fn as_slice(&self) -> &[Entity]
        ensures { result.now ≡ self.now }
    {
        self.entities.as_slice()
    }

    /// The items in order, to be taken apart.
    pub fn into_vec(self) -> Vec<Entity>
        ensures { result.items ≡ self }
    {
        self.entities
    }
}
