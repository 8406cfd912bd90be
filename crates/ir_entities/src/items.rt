//! Where the names of a module are defined.
ghost use Rattle.std.specs.Prelude.{◌≡◌, ◌++◌, IfOk, OnOk};
ghost use Rattle.std.specs.List.{flat_map};
ghost use Rattle.ir_entities.specs.Items.{entity_items, entity_sites, local_sites};
ghost use Rattle.ir_entities.specs.Sites.{Site};

use crate::entity::Entity;
use crate::site::{NameKind, Site, Sites, push_site};
use ir_ident::Name;
use ir_walk::{LocalVisitor, walk_locals};
use std::alloc::{AllocError, Global};

/// Adds where the names of these entities are defined, in order: types, globals, functions and aliases.
///
/// # Errors
///
/// [`AllocError`].
pub fn push_top_level<'a>(
    sites: &mut Vec<Site<'a>>,
    entities: &'a [Entity],
) -> Result<(), AllocError>
    ensures { OnOk result (sites.new.items ≡ sites.old.items ++ flat_map entity_sites entities.now) }
{
    for entity in entities {
        push_item(sites, entity)?;
    }
    Ok(())
}

fn push_item<'a>(sites: &mut Vec<Site<'a>>, entity: &'a Entity) -> Result<(), AllocError>
    ensures { OnOk result (sites.new.items ≡ sites.old.items ++ entity_sites entity.now) }
{
    match entity {
        Entity::Type(ty) => push_site(sites, NameKind::NamedType, ty.line, &ty.name),
        Entity::Global(global) => push_site(sites, NameKind::Global, global.line, &global.name),
        Entity::Function(function) => {
            push_site(sites, NameKind::Global, function.name_line, &function.name)
        }
        Entity::Alias(alias) => push_site(sites, NameKind::Global, alias.line, &alias.name),
    }
}

impl<'a> LocalVisitor<'a> for Sites<'a> {
    ghost Found = { Site };

    ghost of_local = { local_sites };

    ghost found = { λ s. s.sites.items };

    fn value(&mut self, _line: u32, name_line: u32, name: &'a Name) -> Result<(), AllocError> {
        push_site(&mut self.sites, NameKind::Value, name_line, name)
    }

    fn label(&mut self, line: u32, name: &'a Name) -> Result<(), AllocError> {
        push_site(&mut self.sites, NameKind::Block, line, name)
    }
}

/// Where the names in a function are defined, in order: parameters, blocks and results. No other entity has any.
///
/// # Errors
///
/// [`AllocError`].
pub fn locals_of<'a>(alloc: Global, entity: &'a Entity) -> Result<Vec<Site<'a>>, AllocError>
    ensures { IfOk result (λ sites. sites.items ≡ entity_items entity.now) }
{
    let mut locals = Sites::new(alloc);
    if let Entity::Function(function) = entity {
        walk_locals(function, &mut locals)?;
    }
    Ok(locals.sites)
}
