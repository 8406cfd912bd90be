//! Aliases that have no end, or one too far from a definition (LangRef, "Aliases").
ghost use Rattle.std.specs.Prelude.{◌≡◌, IfOk};
ghost use Rattle.std.specs.List.{position};
ghost use Rattle.ir_aliases.specs.Ends.{first_bad_alias, is_bad_alias, is_good_end, is_near};

use crate::ends::AliasEnds;
use crate::position::End;
use ir_ident::Name;
use ir_syntax::{Alias, Module};
use std::alloc::{AllocError, Global};

/// The place of the first alias in a module's list that has no end, or one at an offset, as a signed number, outside
/// -2^29 to 2^29 - 1.
///
/// # Errors
///
/// [`AllocError`].
pub fn first_bad_alias(alloc: Global, m: &Module) -> Result<Option<usize>, AllocError>
    ensures { IfOk result (λ place. place ≡ first_bad_alias m.now) }
{
    let ends = AliasEnds::new(alloc, m)?;
    Ok(first_bad(&ends, m.aliases.as_slice()))
}

fn first_bad(ends: &AliasEnds<'_>, aliases: &[Alias]) -> Option<usize>
    ensures { result ≡ position (λ a. is_bad_alias ends.now a.name) aliases.now }
{
    aliases
        .iter()
        .position(|alias| is_bad_alias(ends, &alias.name))
}

fn is_bad_alias(ends: &AliasEnds<'_>, name: &Name) -> bool
    ensures { result ≡ is_bad_alias ends.now name.now }
{
    !is_good_end(ends.end(name))
}

fn is_good_end(end: Option<End>) -> bool
    ensures { result ≡ is_good_end end }
{
    match end {
        Some(end) => is_near(end.offset),
        None => false,
    }
}

/// Whether an offset, as a signed number, is from -2^29 to 2^29 - 1.
fn is_near(offset: u64) -> bool
    ensures { result ≡ is_near offset }
{
    let signed = offset.cast_signed();
    -0x2000_0000 <= signed && signed < 0x2000_0000
}
