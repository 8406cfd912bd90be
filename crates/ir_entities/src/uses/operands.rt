//! The names that operands and initialisers use.
ghost use Rattle.std.specs.Prelude.{◌≡◌, ◌++◌, OnOk};
ghost use Rattle.std.specs.List.{flat_map};
ghost use Rattle.ir_entities.specs.OperandUses.{gep_uses, init_uses, literal_uses, operand_uses, element_uses};
ghost use Rattle.ir_syntax.specs.Inits.{init_of, inits_in};

use crate::site::{NameKind, Site, push_use};
use crate::uses::types::push_type;
use ir_syntax::{ConstantGep, Init, InitTree, InitTreeList, Operand, TypedLiteral};
use std::alloc::AllocError;

fn push_literals<'a>(
    sites: &mut Vec<Site<'a>>,
    literals: &'a [TypedLiteral],
) -> Result<(), AllocError>
    ensures { OnOk result (sites.new.items ≡ sites.old.items ++ flat_map literal_uses literals.now) }
{
    for literal in literals {
        push_type(sites, &literal.ty)?;
    }
    Ok(())
}

/// Adds the names that a constant address uses.
pub(crate) fn push_gep<'a>(
    sites: &mut Vec<Site<'a>>,
    gep: &'a ConstantGep,
) -> Result<(), AllocError>
    ensures { OnOk result (sites.new.items ≡ sites.old.items ++ gep_uses gep.now) }
{
    let parts = gep.parts();
    push_type(sites, &parts.ty)?;
    push_use(sites, NameKind::Global, &parts.base)?;
    push_literals(sites, parts.indices.as_slice())
}

/// Adds the names that an operand uses.
pub(crate) fn push_operand<'a>(
    sites: &mut Vec<Site<'a>>,
    operand: &'a Operand,
) -> Result<(), AllocError>
    ensures { OnOk result (sites.new.items ≡ sites.old.items ++ operand_uses operand.now) }
{
    match operand {
        Operand::Local(name) => push_use(sites, NameKind::Value, name),
        Operand::Global(name) => push_use(sites, NameKind::Global, name),
        Operand::Gep(gep) => push_gep(sites, gep),
        Operand::Int(_)
        | Operand::True
        | Operand::False
        | Operand::Null
        | Operand::Undef
        | Operand::Poison => Ok(()),
    }
}

/// Adds the names that an initialiser uses.
pub(crate) fn push_init<'a>(sites: &mut Vec<Site<'a>>, init: &'a Init) -> Result<(), AllocError>
    ensures { OnOk result (sites.new.items ≡ sites.old.items ++ init_uses init.now) }
{
    push_tree(sites, init.tree())
}

#[cycle(inits)]
fn push_tree<'a>(sites: &mut Vec<Site<'a>>, tree: &'a InitTree) -> Result<(), AllocError>
    ensures { OnOk result (sites.new.items ≡ sites.old.items ++ init_uses (init_of tree.now)) }
{
    match tree {
        InitTree::Value(operand) => push_operand(sites, operand),
        InitTree::Zero | InitTree::Bytes(_) => Ok(()),
        InitTree::Array(parts) | InitTree::Struct(parts) | InitTree::Packed(parts) => {
            push_parts(sites, parts)
        }
    }
}

#[cycle(inits)]
fn push_parts<'a>(sites: &mut Vec<Site<'a>>, parts: &'a InitTreeList) -> Result<(), AllocError>
    ensures { OnOk result (sites.new.items ≡ sites.old.items ++ element_uses (inits_in parts.now)) }
{
    let mut rest = parts;
    while let InitTreeList::More(node) = rest {
        push_type(sites, &node.ty)?;
        push_tree(sites, &node.init)?;
        rest = &node.tail;
    }
    Ok(())
}
