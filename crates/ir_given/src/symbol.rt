//! Symbols of aliases.
ghost use Rattle.std.specs.Prelude.{◌≡◌, ◌≤◌, Some, IfOk, IsNone, IsSomeAnd, IsTrue, ◌↔◌, length, option_map, slice_get};
ghost use Rattle.ir_given.specs.Given.{alias_rank, alias_symbol, given_names, is_unnamed, symbol_of};

use crate::given::{given_names, unnamed_count};
use crate::item_name::names_with;
use ir_ident::Name;
use ir_syntax::{Bytes, Module};
use std::alloc::{AllocError, Global};

/// The name of the alias at a place among the aliases of a module, as the assembly has it: its own, or the one that it gets;
/// none where there is no such alias. A call looks at all items where the alias has no name.
///
/// # Errors
///
/// [`AllocError`].
pub fn alias_symbol(alloc: Global, m: &Module, place: usize) -> Result<Option<Bytes>, AllocError>
    ensures symbol { IfOk result (λ symbol. symbol ≡ alias_symbol m.now place) }
    ensures none { IfOk result (λ symbol. IsNone symbol ↔ (length m.now.aliases ≤ place)) }
{
    match m.aliases.as_slice().get(place) {
        Some(alias) => Ok(Some(symbol_of(alloc, m, place, &alias.name)?)),
        None => Ok(None),
    }
}

/// The name of the alias at a place, which has this one in the text.
fn symbol_of(alloc: Global, m: &Module, place: usize, name: &Name) -> Result<Bytes, AllocError>
    requires { option_map (λ a. a.name) (slice_get m.now.aliases place) ≡ Some name.now }
    ensures { IfOk result (λ symbol. Some symbol ≡ symbol_of m.now (alias_rank m.now place) name.now) }
{
    match name {
        Name::Named(own) => Ok(Bytes::from_vec(own.as_bytes().to_vec(alloc)?)),
        Name::Unnamed(_) | Name::Implicit => given_at(alloc, m, place),
    }
}

/// The name that the alias at a place gets, which has none in the text.
fn given_at(alloc: Global, m: &Module, place: usize) -> Result<Bytes, AllocError>
    requires { IsSomeAnd (slice_get m.now.aliases place) (λ a. IsTrue (is_unnamed a.name)) }
    ensures { IfOk result (λ name. Some name ≡ slice_get (given_names m.now) (alias_rank m.now place)) }
{
    let rank = alias_rank(alloc, m, place)?;
    let mut given = given_names(alloc, m)?;
    Ok(given.swap_remove(rank))
}

/// How many unnamed items there are before the alias at a place.
fn alias_rank(alloc: Global, m: &Module, place: usize) -> Result<usize, AllocError>
    requires { place ≤ length m.now.aliases }
    ensures { IfOk result (λ rank. rank ≡ alias_rank m.now place) }
{
    let names = names_with(alloc, m, &m.aliases.as_slice()[..place])?;
    Ok(unnamed_count(names.as_slice()))
}
