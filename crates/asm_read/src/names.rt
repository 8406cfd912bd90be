//! Sets of names.
ghost use Rattle.std.specs.Prelude.{◌≡◌, ◌||◌, ℕ, List, OnOk};
ghost use Rattle.std.specs.Str.{bytes_eq};
ghost use Rattle.asm_read.specs.Checks.{has};

use std::alloc::AllocError;
use std::collections::HashSet;

/// Whether the name is among the names.
pub fn has_name(names: &HashSet<&[u8]>, name: &[u8]) -> bool
    ensures { result ≡ has names.now name.now }
{
    names.contains(name)
}

/// Adds a name.
pub fn add_name<'a>(names: &mut HashSet<&'a [u8]>, name: &'a [u8]) -> Result<(), AllocError>
    ensures { OnOk result ((q : List ℕ) → has names.new q ≡ (bytes_eq name.now q || has names.old q)) }
{
    match names.insert(name) {
        Ok(_) => Ok(()),
        Err(_) => Err(AllocError),
    }
}
