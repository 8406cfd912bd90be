//! One step along a chain of aliases.
ghost use Rattle.std.specs.Prelude.{◌≡◌, ℕ, Bool, IfOk, map};
ghost use Rattle.ir_aliases.specs.Ends.{base_name, base_offset, base_position, ended_if, function_defined, item_position, moved, moved_by, variable_defined};
ghost use Rattle.ir_ident.specs.NameMaps.{value_of};
ghost use Rattle.ir_ident.specs.declared.name.Name.{Name};
ghost use Rattle.ir_scope.specs.Globals.{global_item};
ghost use Rattle.ir_syntax.specs.declared.module.Module.{Module};

use crate::position::{End, Position};
use ir_geps::gep_offset;
use ir_ident::{Name, NameMap};
use ir_scope::GlobalItem;
use ir_sizes::NamedTypes;
use ir_syntax::{AliasBase, Module};

pub(crate) fn base_name(base: &AliasBase) -> &Name
    ensures { result.now ≡ base_name base.now }
{
    match base {
        AliasBase::Global(used) => &used.name,
        AliasBase::Gep(gep) => &gep.parts().base.name,
    }
}

pub(crate) fn base_offset<'a>(types: &NamedTypes<'a>, base: &'a AliasBase) -> Option<u64>
    ensures { (m : Module) → m.types ≡ types.now → result ≡ base_offset m base.now }
{
    match base {
        AliasBase::Global(_) => Some(0),
        AliasBase::Gep(gep) => gep_offset(types, gep.parts()),
    }
}

/// An end in an item, if it is defined.
fn ended_if(defined: Option<bool>, item: GlobalItem) -> Position
    ensures { result ≡ ended_if defined item }
{
    match defined {
        Some(true) => Position::Ended(Some(End { item, offset: 0 })),
        _ => Position::Ended(None),
    }
}

fn variable_defined(m: &Module, place: usize) -> Option<bool>
    ensures { result ≡ variable_defined m.now place }
{
    let global = m.globals.as_slice().get(place)?;
    Some(global.init.is_some())
}

fn function_defined(m: &Module, place: usize) -> Option<bool>
    ensures { result ≡ function_defined m.now place }
{
    let function = m.functions.as_slice().get(place)?;
    Some(function.blocks.is_some())
}

/// Where a chain stands that begins at an item.
pub(crate) fn item_position(m: &Module, item: Option<GlobalItem>) -> Position
    ensures { result ≡ item_position m.now item }
{
    match item {
        None => Position::Ended(None),
        Some(GlobalItem::Variable(place)) => {
            ended_if(variable_defined(m, place), GlobalItem::Variable(place))
        }
        Some(GlobalItem::Function(place)) => {
            ended_if(function_defined(m, place), GlobalItem::Function(place))
        }
        Some(GlobalItem::Alias(place)) => Position::At(place, 0),
    }
}

/// A position moved by an offset.
pub(crate) fn moved(offset: u64, position: Position) -> Position
    ensures { result ≡ moved offset position }
{
    match position {
        Position::Ended(None) => Position::Ended(None),
        Position::Ended(Some(end)) => Position::Ended(Some(End {
            item: end.item,
            offset: offset.wrapping_add(end.offset),
        })),
        Position::At(place, from) => Position::At(place, offset.wrapping_add(from)),
    }
}

pub(crate) fn moved_by(offset: Option<u64>, position: Position) -> Position
    ensures { result ≡ moved_by offset position }
{
    match offset {
        Some(offset) => moved(offset, position),
        None => Position::Ended(None),
    }
}
