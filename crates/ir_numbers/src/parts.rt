//! The items of a module by their kinds.
ghost use Rattle.std.specs.Prelude.{◌≡◌, ◌++◌, ◌∷◌, [], OnOk};
ghost use Rattle.ir_numbers.specs.Modules.{alias_of, function_of, global_of, type_of};

use ir_entities::Entity;
use ir_syntax::{
    Alias, Aliases, Function, Functions, Global as Variable, Globals, Module, TypeDef, TypeDefs,
};
use std::alloc::{AllocError, Global};

/// What is put together of a module, each kind in the order of the text.
#[derive(Drop)]
pub(crate) struct Parts {
    pub(crate) types: Vec<TypeDef>,
    pub(crate) globals: Vec<Variable>,
    pub(crate) functions: Vec<Function>,
    pub(crate) aliases: Vec<Alias>,
}

impl Parts {
    /// No items.
    pub(crate) fn new(alloc: Global) -> Parts
        ensures types { result.types.items ≡ [] }
        ensures globals { result.globals.items ≡ [] }
        ensures functions { result.functions.items ≡ [] }
        ensures aliases { result.aliases.items ≡ [] }
    {
        Parts {
            types: Vec::new(alloc),
            globals: Vec::new(alloc),
            functions: Vec::new(alloc),
            aliases: Vec::new(alloc),
        }
    }

    /// Adds an item.
    pub(crate) fn push(&mut self, entity: Entity) -> Result<(), AllocError>
        ensures types { OnOk result (self.new.types.items ≡ self.old.types.items ++ type_of entity) }
        ensures globals { OnOk result (self.new.globals.items ≡ self.old.globals.items ++ global_of entity) }
        ensures functions { OnOk result (self.new.functions.items ≡ self.old.functions.items ++ function_of entity) }
        ensures aliases { OnOk result (self.new.aliases.items ≡ self.old.aliases.items ++ alias_of entity) }
    {
        match entity {
            Entity::Type(ty) => add(&mut self.types, ty),
            Entity::Global(global) => add(&mut self.globals, global),
            Entity::Function(function) => add(&mut self.functions, function),
            Entity::Alias(alias) => add(&mut self.aliases, alias),
        }
    }

    /// The module of these items.
    pub(crate) fn into_module(self) -> Module
        ensures types { result.types ≡ self.types.items }
        ensures globals { result.globals ≡ self.globals.items }
        ensures functions { result.functions ≡ self.functions.items }
        ensures aliases { result.aliases ≡ self.aliases.items }
    {
        Module {
            types: TypeDefs::from_vec(self.types),
            globals: Globals::from_vec(self.globals),
            functions: Functions::from_vec(self.functions),
            aliases: Aliases::from_vec(self.aliases),
        }
    }
}

/// Adds an item at the end of a list.
fn add<T: Drop>(items: &mut Vec<T>, item: T) -> Result<(), AllocError>
    ensures { OnOk result (items.new.items ≡ items.old.items ++ item ∷ []) }
{
    items.push(item)?;
    Ok(())
}
