//! Values by numbers of unnamed items.
ghost use Rattle.std.specs.Prelude.{◌≡◌, ℕ, None, Some, nat_eq, OnErr, OnOk, if◌then◌else◌};
ghost use Rattle.ir_ident.specs.NameMaps.{number_value, or_else, small_value};

use crate::name_key::{NameKey, add_first, add_key};
use crate::number::{ItemNumber, Written};
use indexmap::IndexMap;
use std::alloc::{AllocError, Global};

/// A value for each of these numbers.
#[derive(Drop)]
pub(crate) struct NumberMap<'a, V> {
    /// Those below 2^64.
    small: IndexMap<u64, V>,
    /// All others, by their digits.
    large: IndexMap<NameKey<'a>, V>,
}

impl<'a, V: Copy + Drop> NumberMap<'a, V> {
    /// No numbers.
    #[tactic(auto, unfolding(crate::specs::NameMaps::number_value))]
    pub(crate) fn new(alloc: Global) -> NumberMap<'a, V>
        ensures { (n : ℕ) → number_value result n ≡ None }
    {
        NumberMap {
            small: IndexMap::new(alloc),
            large: IndexMap::new(alloc),
        }
    }

    /// Adds a number's value. A number that has one keeps it.
    pub(crate) fn add(&mut self, number: &'a ItemNumber, value: V) -> Result<(), AllocError>
        ensures ok { OnOk result ((n : ℕ) → number_value self.new n ≡ or_else (number_value self.old n) (if nat_eq n number.now then Some value else None)) }
        ensures err { OnErr result ((n : ℕ) → number_value self.new n ≡ number_value self.old n) }
    {
        match number.written() {
            Written::Small(number) => add_small(&mut self.small, number, value)?,
            Written::Large(bytes) => add_key(&mut self.large, bytes, value)?,
        }
        Ok(())
    }

    /// The value of a number.
    #[tactic(auto, unfolding(crate::specs::NameMaps::number_value))]
    pub(crate) fn get(&self, number: &ItemNumber) -> Option<V>
        ensures { result ≡ number_value self.now number.now }
    {
        match number.written() {
            Written::Small(number) => self.small.get(&number).copied(),
            Written::Large(bytes) => self.large.get(&NameKey { bytes }).copied(),
        }
    }
}

#[tactic(auto, using(crate::proofs::NameLemmas::number_added))]
fn add_small<V: Copy + Drop>(
    numbers: &mut IndexMap<u64, V>,
    number: u64,
    value: V,
) -> Result<(), AllocError>
    ensures ok { OnOk result ((n : ℕ) → small_value numbers.new n ≡ or_else (small_value numbers.old n) (if nat_eq n number then Some value else None)) }
    ensures err { OnErr result ((n : ℕ) → small_value numbers.new n ≡ small_value numbers.old n) }
{
    add_first(numbers, number, value)
}
