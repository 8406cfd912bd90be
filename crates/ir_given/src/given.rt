//! Names for what has none.
ghost use Rattle.std.specs.Prelude.{◌≡◌, ◌∷◌, ◌++◌, [], All, IfOk, IsTrue, OnOk, bytes_eq, count_by, length, if◌then◌else◌};
ghost use Rattle.std.specs.List.{IsDistinct, list_any};
ghost use Rattle.ir_ident.specs.NameMaps.{has_name};
ghost use Rattle.ir_ident.specs.Names.{same_name};
ghost use Rattle.ir_ident.specs.declared.name.Name.{Name};
ghost use Rattle.ir_ident.specs.declared.name.Name.TheVariants.{Named};
ghost use Rattle.ir_given.specs.Given.{candidate, given_names, given_to, is_free, is_unnamed, names_of};

use crate::item_name::{ItemName, names_with};
use ir_ident::{Identifier, Name, NameSet};
use ir_syntax::{Bytes, Module};
use itoa::Buffer;
use std::alloc::{AllocError, Global};

/// The names that the unnamed functions, variables and aliases of a module get in the assembly: first those of the
/// functions, then those of the variables, then those of the aliases, each in the order of the text.
///
/// # Errors
///
/// [`AllocError`].
pub fn given_names(alloc: Global, m: &Module) -> Result<Vec<Bytes>, AllocError>
    ensures names { IfOk result (λ given. given.items ≡ given_names m.now) }
    // There is one for each unnamed item, no two are the same, and no item has one of them.
    ensures count { IfOk result (λ given. length given.items ≡ count_by is_unnamed (names_of m.now)) }
    ensures differ { IfOk result (λ given. IsDistinct bytes_eq given.items) }
    ensures free { IfOk result (λ given. All (λ name. IsTrue (is_free (names_of m.now) name)) given.items) }
{
    let names = names_with(alloc, m, m.aliases.as_slice())?;
    given_to(alloc, names.as_slice())
}

/// The names that the unnamed ones of these items get.
fn given_to(alloc: Global, names: &[ItemName<'_>]) -> Result<Vec<Bytes>, AllocError>
    ensures { IfOk result (λ given. given.items ≡ given_to names.now) }
{
    let count = unnamed_count(names);
    let mut given = Vec::new(alloc);
    if count == 0 {
        return Ok(given);
    }
    let taken = taken_names(alloc, names)?;
    for number in 0..names.len() {
        if given.len() == count {
            return Ok(given);
        }
        push_if_free(alloc, &taken, number, &mut given)?;
    }
    Ok(given)
}

/// How many of these items have no name of their own.
pub(crate) fn unnamed_count(names: &[ItemName<'_>]) -> usize
    ensures { result ≡ count_by is_unnamed names.now }
{
    names.iter().filter(|item| is_unnamed(item)).count()
}

fn is_unnamed(item: &ItemName<'_>) -> bool
    ensures { result ≡ is_unnamed item.now }
{
    match item.name {
        Name::Named(_) => false,
        Name::Unnamed(_) | Name::Implicit => true,
    }
}

/// A set of these names.
fn taken_names<'m>(alloc: Global, names: &[ItemName<'m>]) -> Result<NameSet<'m>, AllocError>
    ensures { IfOk result (λ taken. (name : Name) → has_name taken name ≡ list_any (same_name name) names.now) }
{
    let mut taken = NameSet::new(alloc);
    for item in names {
        taken.insert(item.name)?;
    }
    Ok(taken)
}

/// Adds the candidate of this number, unless the name is taken.
fn push_if_free(
    alloc: Global,
    taken: &NameSet<'_>,
    number: usize,
    given: &mut Vec<Bytes>,
) -> Result<(), AllocError>
    ensures { OnOk result (given.new.items
        ≡ given.old.items ++ (if has_name taken.now (Named (candidate number)) then [] else candidate number ∷ [])) }
{
    let bytes = candidate(alloc, number)?;
    if !is_taken(alloc, taken, bytes.as_slice())? {
        given.push(Bytes::from_vec(bytes))?;
    }
    Ok(())
}

fn is_taken(alloc: Global, taken: &NameSet<'_>, bytes: &[u8]) -> Result<bool, AllocError>
    ensures { IfOk result (λ is. is ≡ has_name taken.now (Named bytes.now)) }
{
    let name = Name::Named(Identifier::from_slice(alloc, bytes)?);
    Ok(taken.has(&name))
}

/// The candidate of a number.
fn candidate(alloc: Global, number: usize) -> Result<Vec<u8>, AllocError>
    ensures { IfOk result (λ name. name.items ≡ candidate number) }
{
    let mut name = b"__llvmsplit_unnamed".to_vec(alloc)?;
    if number > 0 {
        name.push(b'.')?;
        name.extend_from_slice(Buffer::new().format(number).as_bytes())?;
    }
    Ok(name)
}
