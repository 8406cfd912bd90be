//! The names that an entity uses.
ghost use Rattle.std.specs.Prelude.{◌≡◌, ◌++◌, IfOk, OnOk};
ghost use Rattle.ir_entities.specs.EntityUses.{alias_uses, base_uses, entity_uses, part_uses};
ghost use Rattle.ir_entities.specs.OperandUses.{init_uses};
ghost use Rattle.ir_entities.specs.Sites.{Site};
ghost use Rattle.ir_entities.specs.Uses.{maybe_uses};

mod operands;
mod types;

use crate::entity::Entity;
use crate::site::{NameKind, Site, Sites, push_use};
use ir_ident::NameUse;
use ir_syntax::{Alias, AliasBase, Init, Operand, TyText};
use ir_walk::{Visitor, Walk};
use operands::{push_gep, push_init, push_operand};
use std::alloc::{AllocError, Global};
use types::push_type;

impl<'a> Visitor<'a> for Sites<'a> {
    ghost Found = { Site };

    ghost of_part = { part_uses };

    ghost found = { λ s. s.sites.items };

    fn ty(&mut self, ty: &'a TyText) -> Result<(), AllocError> {
        push_type(&mut self.sites, ty)
    }

    fn operand(&mut self, operand: &'a Operand) -> Result<(), AllocError> {
        push_operand(&mut self.sites, operand)
    }

    fn callee(&mut self, callee: &'a NameUse) -> Result<(), AllocError> {
        push_use(&mut self.sites, NameKind::Global, callee)
    }

    fn label(&mut self, label: &'a NameUse) -> Result<(), AllocError> {
        push_use(&mut self.sites, NameKind::Block, label)
    }
}

/// The names that an entity uses, in order.
///
/// # Errors
///
/// [`AllocError`].
pub fn uses_of<'a>(alloc: Global, entity: &'a Entity) -> Result<Vec<Site<'a>>, AllocError>
    ensures { IfOk result (λ sites. sites.items ≡ entity_uses entity.now) }
{
    let mut uses = Sites::new(alloc);
    push_uses(&mut uses, entity)?;
    Ok(uses.sites)
}

fn push_uses<'a>(uses: &mut Sites<'a>, entity: &'a Entity) -> Result<(), AllocError>
    ensures { OnOk result (uses.new.sites.items ≡ uses.old.sites.items ++ entity_uses entity.now) }
{
    match entity {
        Entity::Type(ty) => push_type(&mut uses.sites, &ty.body),
        Entity::Global(global) => {
            push_type(&mut uses.sites, &global.ty)?;
            push_maybe_init(&mut uses.sites, &global.init)
        }
        Entity::Function(function) => function.walk(uses),
        Entity::Alias(alias) => push_alias(uses, alias),
    }
}

fn push_maybe_init<'a>(sites: &mut Vec<Site<'a>>, init: &'a Option<Init>) -> Result<(), AllocError>
    ensures { OnOk result (sites.new.items ≡ sites.old.items ++ maybe_uses init_uses init.now) }
{
    match init {
        Some(init) => push_init(sites, init),
        None => Ok(()),
    }
}

fn push_alias<'a>(uses: &mut Sites<'a>, alias: &'a Alias) -> Result<(), AllocError>
    ensures { OnOk result (uses.new.sites.items ≡ uses.old.sites.items ++ alias_uses alias.now) }
{
    alias.result.walk(uses)?;
    alias.params.walk(uses)?;
    push_base(&mut uses.sites, &alias.base)
}

fn push_base<'a>(sites: &mut Vec<Site<'a>>, base: &'a AliasBase) -> Result<(), AllocError>
    ensures { OnOk result (sites.new.items ≡ sites.old.items ++ base_uses base.now) }
{
    match base {
        AliasBase::Global(name) => push_use(sites, NameKind::Global, name),
        AliasBase::Gep(gep) => push_gep(sites, gep),
    }
}
