//! Items of which some are kept.
ghost use Rattle.std.specs.Prelude.{◌≡◌, ◌++◌, ◌∷◌, [], OnOk, Option, filter_map};

use std::alloc::AllocError;

/// Appends an item to a list, if there is one.
///
/// # Errors
///
/// [`AllocError`].
pub fn push_found<T: Drop>(list: &mut Vec<T>, found: Option<T>) -> Result<(), AllocError>
    ensures { OnOk result (list.new.items ≡ list.old.items ++ filter_map (λ found. found) (found ∷ [])) }
{
    if let Some(item) = found {
        list.push(item)?;
    }
    Ok(())
}
