//! A module with the addresses of its variables.
ghost use Rattle.std.specs.Prelude.{◌≡◌, ◌<◌, ◌≤◌, IfOk};
ghost use Rattle.ir_loaded.specs.Pairs.{loaded};
ghost use Rattle.ir_sem.specs.Accesses.{align_or};
ghost use Rattle.ir_sem.specs.Addresses.{address_of, end_address, item_address};
ghost use Rattle.ir_sem.specs.Globals.{layout};
ghost use Rattle.ir_syntax.specs.Types.{tree_of};
ghost use Rattle.ty_core.specs.Size.{IsAlign, size_limit};

use crate::addresses::addresses_of;
use ir_aliases::{AliasEnds, End};
use ir_ident::Name;
use ir_scope::GlobalItem;
use ir_sizes::NamedTypes;
use ir_syntax::{Module, TyText, TypeTree};
use std::alloc::{AllocError, Global};
use std::marker::Model;
use ty_core::Layout;

/// A module, and the addresses of the variables that it defines, in its order. Contracts see the two.
pub struct LoadedModule<'a> {
    ends: AliasEnds<'a>,
    types: NamedTypes<'a>,
    given: &'a [u64],
    addresses: Vec<u64>,
}

impl<'a> Drop for LoadedModule<'a> {
    fn drop(self) {
        let LoadedModule {
            ends,
            types,
            given: _,
            addresses,
        } = self;
        drop(ends);
        drop(types);
        drop(addresses);
    }
}

impl<'a> Model for LoadedModule<'a> {
    ghost use Rattle.std.specs.Prelude.{◌≡◌, ℕ, List};
    ghost use Rattle.std.specs.Coded.{coded_list, coded×, coded_ℕ};
    ghost use Rattle.ir_sem.specs.Addresses.{addresses_of};
    ghost use Rattle.ir_syntax.specs.declared.module.Module.{Module};
    ghost use Rattle.ir_syntax.specs.contracts.module.Module as modules;

    ghost Value = { Module × List ℕ };

    ghost coded = { coded× modules.the_row.coded (coded_list coded_ℕ) };

    ghost view = { λ l. (l.ends, l.given.now) };

    ghost invariant = { λ l. (l.types ≡ l.ends.types) × (l.addresses.items ≡ addresses_of l.ends.globals l.given.now) };
}

impl<'a> LoadedModule<'a> {
    /// A module, with these addresses for the variables that it defines.
    ///
    /// # Errors
    ///
    /// [`AllocError`].
    pub fn new(
        alloc: Global,
        m: &'a Module,
        given: &'a [u64],
    ) -> Result<LoadedModule<'a>, AllocError>
        ensures { IfOk result (λ l. l ≡ (m.now, given.now)) }
    {
        let ends = AliasEnds::new(alloc, m)?;
        let types = NamedTypes::new(alloc, m.types.as_slice())?;
        let addresses = addresses_of(alloc, m.globals.as_slice(), given)?;
        Ok(LoadedModule {
            ends,
            types,
            given,
            addresses,
        })
    }

    /// The module.
    pub fn module(&self) -> &'a Module
        ensures { result.now ≡ self.now.0 }
    {
        self.ends.module()
    }

    /// The addresses of the variables that it defines.
    pub fn given(&self) -> &'a [u64]
        ensures { result.now ≡ self.now.1 }
    {
        self.given
    }

    /// Its types.
    pub fn types(&self) -> &NamedTypes<'a>
        ensures { result.now ≡ self.now.0.types }
    {
        &self.types
    }

    /// Where its aliases lead.
    pub fn ends(&self) -> &AliasEnds<'a>
        ensures { result.now ≡ self.now.0 }
    {
        &self.ends
    }

    /// The address of a variable, or of that in which the chain of an alias ends, and behind it the chain's offsets.
    pub fn address(&self, name: &Name) -> u64
        ensures { result ≡ address_of (loaded self.now) name.now }
    {
        match self.ends.end(name) {
            Some(end) => self.item_address(end.item).wrapping_add(end.offset),
            None => 0,
        }
    }

    /// The address of a variable; a function has none.
    fn item_address(&self, item: GlobalItem) -> u64
        ensures { result ≡ item_address (loaded self.now) item }
    {
        match item {
            GlobalItem::Variable(place) => self.addresses.get(place).copied().unwrap_or(0),
            GlobalItem::Function(_) | GlobalItem::Alias(_) => 0,
        }
    }

    /// The layout of a type; a type without a size is empty.
    pub fn layout(&self, ty: &TypeTree) -> Layout
        ensures value { result ≡ layout (loaded self.now) (tree_of ty.now) }
        ensures small { result.size ≤ size_limit }
        ensures aligned { IsAlign result.align }
    {
        match self.types.layout(ty) {
            Some(layout) => layout,
            None => Layout { size: 0, align: 1 },
        }
    }

    /// The alignment in bytes that is written, or else that of the type; none is 0.
    pub fn align_or(&self, ty: &TyText, align: Option<u64>) -> u64
        ensures value { result ≡ align_or (loaded self.now).text.types ty.now align }
        ensures some { 0 < result }
    {
        match align {
            Some(align) => align.max(1),
            None => match self.types.layout(ty.tree()) {
                Some(layout) => layout.align,
                None => 1,
            },
        }
    }
}
