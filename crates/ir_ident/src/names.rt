//! Values by names, and sets of names (LangRef, "Identifiers").
ghost use Rattle.std.specs.Prelude.{◌≡◌, ◌||◌, None, Some, false, IfOk, OnErr, OnOk, if◌then◌else◌};
ghost use Rattle.ir_ident.specs.declared.name.Name.{Name};
ghost use Rattle.ir_ident.specs.NameMaps.{has_name, or_else, value_of};
ghost use Rattle.ir_ident.specs.Names.{same_name};

use crate::name::Name;
use crate::name_key::{NameKey, add_key};
use crate::number_map::NumberMap;
use indexmap::IndexMap;
use std::alloc::{AllocError, Global};

/// A value for each of these names, those that the text writes and numbers.
pub struct NameMap<'a, V> {
    named: IndexMap<NameKey<'a>, V>,
    unnamed: NumberMap<'a, V>,
}

impl<'a, V: Drop> Drop for NameMap<'a, V> {
    fn drop(self) {
        let NameMap { named, unnamed } = self;
        drop(named);
        drop(unnamed);
    }
}

impl<'a, V: Copy + Drop> NameMap<'a, V> {
    /// No names.
    #[tactic(auto, unfolding(crate::specs::NameMaps::value_of))]
    pub fn new(alloc: Global) -> NameMap<'a, V>
        ensures { (name : Name) → value_of result name ≡ None }
    {
        NameMap {
            named: IndexMap::new(alloc),
            unnamed: NumberMap::new(alloc),
        }
    }

    /// No names, with room for so many that the text writes. Numbers take room as they come.
    ///
    /// # Errors
    ///
    /// [`AllocError`].
    #[tactic(auto, unfolding(crate::specs::NameMaps::value_of))]
    pub fn with_room(alloc: Global, room: usize) -> Result<NameMap<'a, V>, AllocError>
        ensures { IfOk result (λ names. (name : Name) → value_of names name ≡ None) }
    {
        Ok(NameMap {
            named: IndexMap::with_capacity(alloc, room)?,
            unnamed: NumberMap::new(alloc),
        })
    }

    /// Adds a name's value. A name that has one keeps it.
    #[tactic(auto, unfolding(crate::specs::NameMaps::value_of))]
    pub fn add(&mut self, name: &'a Name, value: V) -> Result<(), AllocError>
        ensures ok { OnOk result ((other : Name) → value_of self.new other ≡ or_else (value_of self.old other) (if same_name other name.now then Some value else None)) }
        ensures err { OnErr result ((other : Name) → value_of self.new other ≡ value_of self.old other) }
    {
        match name {
            Name::Named(identifier) => add_key(&mut self.named, identifier.as_bytes(), value),
            Name::Unnamed(number) => self.unnamed.add(number, value),
            Name::Implicit => Ok(()),
        }
    }

    /// The value of a name.
    #[tactic(auto, unfolding(crate::specs::NameMaps::value_of))]
    pub fn get(&self, name: &Name) -> Option<V>
        ensures { result ≡ value_of self.now name.now }
    {
        match name {
            Name::Named(identifier) => {
                let bytes = identifier.as_bytes();
                self.named.get(&NameKey { bytes }).copied()
            }
            Name::Unnamed(number) => self.unnamed.get(number),
            Name::Implicit => None,
        }
    }
}

/// Names, those that the text writes and numbers.
#[derive(Drop)]
pub struct NameSet<'a> {
    names: NameMap<'a, ()>,
}

impl<'a> NameSet<'a> {
    /// No names.
    pub fn new(alloc: Global) -> NameSet<'a>
        ensures { (name : Name) → has_name result name ≡ false }
    {
        NameSet {
            names: NameMap::new(alloc),
        }
    }

    /// No names, with room for so many that the text writes. Numbers take room as they come.
    ///
    /// # Errors
    ///
    /// [`AllocError`].
    pub fn with_room(alloc: Global, room: usize) -> Result<NameSet<'a>, AllocError>
        ensures { IfOk result (λ names. (name : Name) → has_name names name ≡ false) }
    {
        Ok(NameSet {
            names: NameMap::with_room(alloc, room)?,
        })
    }

    /// Adds a name.
    pub fn insert(&mut self, name: &'a Name) -> Result<(), AllocError>
        ensures ok { OnOk result ((other : Name) → has_name self.new other ≡ (has_name self.old other || same_name other name.now)) }
        ensures err { OnErr result ((other : Name) → has_name self.new other ≡ has_name self.old other) }
    {
        self.names.add(name, ())
    }

    /// Whether a name is one of these.
    pub fn has(&self, name: &Name) -> bool
        ensures { result ≡ has_name self.now name.now }
    {
        self.names.get(name).is_some()
    }
}
