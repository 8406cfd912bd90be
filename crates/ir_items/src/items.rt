//! The items at the top of a module (LangRef, "Module Structure").
ghost use Rattle.std.specs.Prelude.{◌≡◌, Some};
ghost use Rattle.ir_rules.specs.Reading.{Gives};
ghost use Rattle.ir_rules.specs.Rules.{has};
ghost use Rattle.ir_items.specs.Entities.{entities, entity_firsts, item_entities, item_firsts, modules, no_entity, type_defs};

use ir_attributes::{begins_ignored, skip_ignored};
use ir_entities::Entity;
use ir_functions::{read_declaration, read_definition};
use ir_globals::read_global_entity;
use ir_ident::NameUse;
use ir_rules::{End, push_found, word};
use ir_syntax::TypeDef;
use ir_types::{read_local_use, read_struct};
use ir_words::{Class, Cursor};
use std::alloc::Global;

/// Reads the definition of a type's name.
#[tactic(auto, unfolding(crate::specs::Entities::type_def_forms))]
fn read_type_def<'t>(alloc: Global, rest: Cursor<'t>) -> Result<(Entity, Cursor<'t>), End>
    ensures { Gives (λ x. (Some x.0, x.1)) result (type_defs.read rest.entry) }
{
    let (place, rest) = read_local_use(alloc, rest)?;
    let rest = word(rest, Class::Equal)?;
    let rest = word(rest, Class::TypeWord)?;
    let (body, rest) = read_struct(alloc, rest, 63)?;
    let NameUse { line, name } = place;
    let def = TypeDef {
        line,
        place: 0,
        name,
        body,
    };
    Ok((Entity::Type(def), rest))
}

/// Reads an item of the module.
fn read_item<'t>(alloc: Global, rest: Cursor<'t>) -> Result<(Option<Entity>, Cursor<'t>), End>
    ensures { Gives (λ x. x) result (item_entities.read rest.entry) }
{
    match rest.first() {
        Class::Local => {
            let (entity, rest) = read_type_def(alloc, rest)?;
            Ok((Some(entity), rest))
        }
        Class::Declare => {
            let (entity, rest) = read_declaration(alloc, rest)?;
            Ok((Some(entity), rest))
        }
        Class::Define => {
            let (entity, rest) = read_definition(alloc, rest)?;
            Ok((Some(entity), rest))
        }
        _ => read_global_entity(alloc, rest),
    }
}

/// Reads an item that means nothing here.
fn read_ignored<'t>(alloc: Global, rest: Cursor<'t>) -> Result<(Option<Entity>, Cursor<'t>), End>
    ensures { Gives (λ x. x) result (no_entity.read rest.entry) }
{
    let rest = skip_ignored(alloc, rest)?;
    Ok((None, rest))
}

/// Reads an item; none where it means nothing here.
///
/// # Errors
///
/// `Bad` at the first token that can't stand there, `NoMemory` if memory runs out.
#[tactic(auto, unfolding(crate::specs::Entities::entity_forms))]
pub(crate) fn read_entity<'t>(
    alloc: Global,
    rest: Cursor<'t>,
) -> Result<(Option<Entity>, Cursor<'t>), End>
    ensures { Gives (λ x. x) result (entities.read rest.entry) }
{
    if begins_ignored(rest.first()) {
        return read_ignored(alloc, rest);
    }
    read_item(alloc, rest)
}

/// Whether a token of a class begins an item of the module.
fn begins_item(class: Class) -> bool
    ensures { result ≡ has item_firsts class }
{
    matches!(
        class,
        Class::Local
            | Class::Declare
            | Class::Define
            | Class::Global
            | Class::MetadataIntrinsic
            | Class::DroppedIntrinsic
            | Class::Intrinsic
    )
}

/// Whether a token of a class begins an item, or one that means nothing here.
pub(crate) fn begins_entity(class: Class) -> bool
    ensures { result ≡ has entity_firsts class }
{
    begins_ignored(class) | begins_item(class)
}

/// Reads the items of a module, as long as one begins.
///
/// # Errors
///
/// `Bad` at the first token that can't stand there, `NoMemory` if memory runs out.
#[tactic(auto, unfolding(crate::specs::Entities::module_forms))]
pub fn read_items<'t>(alloc: Global, rest: Cursor<'t>) -> Result<(Vec<Entity>, Cursor<'t>), End>
    ensures { Gives (λ x. (x.0.items, x.1)) result (modules.read rest.entry) }
{
    let mut rest = rest;
    let mut list = Vec::new(alloc);
    while begins_entity(rest.first()) {
        let (found, after) = read_entity(alloc, rest)?;
        push_found(&mut list, found)?;
        rest = after;
    }
    Ok((list, rest))
}
