//! Global variables and aliases as the text defines them, before they have names (LangRef, "Global
//! Variables" and "Aliases").
ghost use Rattle.std.specs.Prelude.{◌≡◌};
ghost use Rattle.ir_globals.specs.Variables.{global_entity};

use ir_entities::Entity;
use ir_ident::NameUse;
use ir_syntax::{Alias, AliasBase, Global, Init, Linkage, TyText, TypeTexts, Visibility};

/// What follows the name of a global variable or an alias.
#[derive(Drop)]
pub(crate) enum Defined {
    /// A variable: whether it is constant, its type, its initialiser, and its alignment in bytes.
    Variable(bool, TyText, Option<Init>, Option<u64>),
    /// An alias: its type or its result's, its parameters' types, and what it stands for.
    SecondName(Option<TyText>, Option<TypeTexts>, AliasBase),
}

/// What is defined, and who sees it.
#[derive(Drop)]
pub(crate) struct GlobalDefinition {
    /// Who sees it.
    pub(crate) linkage: Linkage,
    /// How it is seen from outside.
    pub(crate) visibility: Visibility,
    /// What it is.
    pub(crate) defined: Defined,
}

/// The item of this name.
pub(crate) fn entity_of(name: NameUse, definition: GlobalDefinition) -> Entity
    ensures { result ≡ global_entity name definition }
{
    let NameUse { line, name } = name;
    let GlobalDefinition {
        linkage,
        visibility,
        defined,
    } = definition;
    match defined {
        Defined::Variable(constant, ty, init, align) => Entity::Global(Global {
            line,
            place: 0,
            name,
            linkage,
            visibility,
            constant,
            ty,
            init,
            align,
        }),
        Defined::SecondName(result, params, base) => Entity::Alias(Alias {
            line,
            place: 0,
            name,
            linkage,
            visibility,
            result,
            params,
            base,
        }),
    }
}
