//! The operands of instructions, terminators and initialisers.
ghost use Rattle.std.specs.Prelude.{◌≡◌, ◌++◌, [], IfOk, OnOk};
ghost use Rattle.std.specs.List.{flat_map};
ghost use Rattle.ir_geps.specs.Operands.{element_operands, init_operands, maybe_init_operands, part_operands};
ghost use Rattle.ir_syntax.specs.Inits.{init_of, inits_in};
ghost use Rattle.ir_syntax.specs.declared.operand.Operand.{Operand};

use ir_ident::NameUse;
use ir_syntax::{Init, InitTree, InitTreeList, Operand, TyText};
use ir_walk::{Visitor, Walk};
use std::alloc::{AllocError, Global};
use std::marker::Model;

/// An operand where it stands. Contracts see the operand.
#[derive(Drop)]
pub(crate) struct Site<'a> {
    pub(crate) operand: &'a Operand,
}

impl<'a> Model for Site<'a> {
    ghost use Rattle.ir_syntax.specs.declared.operand.Operand.{Operand};
    ghost use Rattle.ir_geps.specs.OperandCodes.{coded_operand};

    ghost Value = { Operand };

    ghost coded = { coded_operand };

    ghost view = { λ s. s.operand.now };
}

/// The operands that a walk found, in order.
#[derive(Drop)]
pub(crate) struct Sites<'a> {
    pub(crate) sites: Vec<Site<'a>>,
}

impl<'a> Sites<'a> {
    /// No operands.
    pub(crate) fn new(alloc: Global) -> Sites<'a>
        ensures { result.sites.items ≡ [] }
    {
        Sites {
            sites: Vec::new(alloc),
        }
    }

    /// Drops all operands, and keeps their memory.
    pub(crate) fn clear(&mut self)
        ensures { self.new.sites.items ≡ [] }
    {
        self.sites.clear();
    }
}

impl<'a> Visitor<'a> for Sites<'a> {
    ghost Found = { Operand };

    ghost of_part = { part_operands };

    ghost found = { λ s. s.sites.items };

    fn ty(&mut self, _ty: &'a TyText) -> Result<(), AllocError> {
        Ok(())
    }

    fn operand(&mut self, operand: &'a Operand) -> Result<(), AllocError> {
        self.sites.push(Site { operand })?;
        Ok(())
    }

    fn callee(&mut self, _callee: &'a NameUse) -> Result<(), AllocError> {
        Ok(())
    }

    fn label(&mut self, _label: &'a NameUse) -> Result<(), AllocError> {
        Ok(())
    }
}

/// The operands of an initialiser, if there is one, in order.
pub(crate) fn sites_in_init<'a>(
    alloc: Global,
    init: &'a Option<Init>,
) -> Result<Sites<'a>, AllocError>
    ensures { IfOk result (λ sites. sites.sites.items ≡ maybe_init_operands init.now) }
{
    let mut sites = Sites::new(alloc);
    if let Some(init) = init {
        push_tree(&mut sites, init.tree())?;
    }
    Ok(sites)
}

#[cycle(inits)]
fn push_tree<'a>(sites: &mut Sites<'a>, tree: &'a InitTree) -> Result<(), AllocError>
    ensures { OnOk result (sites.new.sites.items ≡ sites.old.sites.items ++ init_operands (init_of tree.now)) }
{
    match tree {
        InitTree::Value(operand) => sites.operand(operand),
        InitTree::Zero | InitTree::Bytes(_) => Ok(()),
        InitTree::Array(parts) | InitTree::Struct(parts) | InitTree::Packed(parts) => {
            push_parts(sites, parts)
        }
    }
}

#[cycle(inits)]
fn push_parts<'a>(sites: &mut Sites<'a>, parts: &'a InitTreeList) -> Result<(), AllocError>
    ensures { OnOk result (sites.new.sites.items ≡ sites.old.sites.items ++ element_operands (inits_in parts.now)) }
{
    let mut rest = parts;
    while let InitTreeList::More(node) = rest {
        push_tree(sites, &node.init)?;
        rest = &node.tail;
    }
    Ok(())
}
