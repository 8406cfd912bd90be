//! The ends of chains of aliases, found by the aliases' names.
ghost use Rattle.std.specs.Prelude.{◌≡◌, IfOk};
ghost use Rattle.ir_aliases.specs.Ends.{alias_end, end_of};
ghost use Rattle.ir_scope.specs.Globals.{global_item};

use crate::position::{End, Position};
use crate::steps::item_position;
use crate::tables::{ends_table, further_by};
use ir_ident::{Name, NameMap};
use ir_scope::{GlobalItem, global_items};
use ir_syntax::Module;
use std::alloc::{AllocError, Global};
use std::marker::Model;

/// Where the chains of a module's aliases end. Contracts see the module.
pub struct AliasEnds<'a> {
    m: &'a Module,
    items: NameMap<'a, GlobalItem>,
    table: Vec<Position>,
}

impl<'a> Drop for AliasEnds<'a> {
    fn drop(self) {
        let AliasEnds { m: _, items, table } = self;
        drop(items);
        drop(table);
    }
}

impl<'a> Model for AliasEnds<'a> {
    ghost use Rattle.std.specs.Prelude.{◌≡◌};
    ghost use Rattle.ir_aliases.specs.Tables.{FindsEnds};
    ghost use Rattle.ir_ident.specs.NameMaps.{value_of};
    ghost use Rattle.ir_ident.specs.declared.name.Name.{Name};
    ghost use Rattle.ir_scope.specs.Globals.{global_item};
    ghost use Rattle.ir_syntax.specs.declared.module.Module.{Module};
    ghost use Rattle.ir_syntax.specs.contracts.module.Module as modules;

    ghost Value = { Module };

    ghost coded = { modules.the_row.coded };

    ghost view = { λ e. e.m.now };

    ghost invariant = { λ e. ((name : Name) → value_of e.items name ≡ global_item e.m.now name) × FindsEnds e.m.now e.table.items };
}

impl<'a> AliasEnds<'a> {
    /// The ends of all chains of a module.
    ///
    /// # Errors
    ///
    /// [`AllocError`].
    pub fn new(alloc: Global, m: &'a Module) -> Result<AliasEnds<'a>, AllocError>
        ensures { IfOk result (λ ends. ends ≡ m.now) }
    {
        let items = global_items(alloc, m)?;
        let table = ends_table(alloc, m, &items)?;
        Ok(AliasEnds { m, items, table })
    }

    /// The definition in which the chain of an alias ends; none where it ends in a declaration, in no item, in an offset
    /// that there isn't, or nowhere.
    pub fn end(&self, name: &Name) -> Option<End>
        ensures { result ≡ alias_end self.now name.now }
    {
        let begin = item_position(self.m, self.item(name));
        end_of(further_by(self.table.as_slice(), begin))
    }

    /// The module.
    pub fn module(&self) -> &'a Module
        ensures { result.now ≡ self.now }
    {
        self.m
    }

    /// What a name stands for.
    pub(crate) fn item(&self, name: &Name) -> Option<GlobalItem>
        ensures { result ≡ global_item self.now name.now }
    {
        self.items.get(name)
    }
}

fn end_of(position: Position) -> Option<End>
    ensures { result ≡ end_of position }
{
    match position {
        Position::Ended(end) => end,
        Position::At(..) => None,
    }
}
