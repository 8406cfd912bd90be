//! Names of globals where they are used (LangRef, "Identifiers").
ghost use Rattle.ir_values.specs.Values.{global_uses, global_uses_in};
ghost use Rattle.ir_rules.specs.Reading.{Gives};
ghost use Rattle.std.specs.Prelude.{[], ◌∷◌};
ghost use Rattle.ir_words.specs.declared.class.Class.TheVariants as Classes;

use ir_ident::NameUse;
use ir_rules::{End, bad};
use ir_types::use_here;
use ir_words::{Class, Cursor};
use std::alloc::Global;

/// Reads the name of a global or of an intrinsic.
pub fn read_global_use<'t>(alloc: Global, rest: Cursor<'t>) -> Result<(NameUse, Cursor<'t>), End>
    ensures { Gives (λ x. x) result (global_uses.read rest.entry) }
{
    match rest.first() {
        Class::Global | Class::MetadataIntrinsic | Class::DroppedIntrinsic | Class::Intrinsic => {
            Ok(use_here(alloc, rest)?)
        }
        _ => Err(bad(&rest)),
    }
}

/// Reads the name of an intrinsic that only carries metadata.
pub fn read_metadata_intrinsic<'t>(
    alloc: Global,
    rest: Cursor<'t>,
) -> Result<(NameUse, Cursor<'t>), End>
    ensures { Gives (λ x. x) result ((global_uses_in (Classes.MetadataIntrinsic ∷ [])).read rest.entry) }
{
    match rest.first() {
        Class::MetadataIntrinsic => Ok(use_here(alloc, rest)?),
        _ => Err(bad(&rest)),
    }
}

/// Reads the name of an intrinsic that does nothing.
pub fn read_dropped_intrinsic<'t>(
    alloc: Global,
    rest: Cursor<'t>,
) -> Result<(NameUse, Cursor<'t>), End>
    ensures { Gives (λ x. x) result ((global_uses_in (Classes.DroppedIntrinsic ∷ [])).read rest.entry) }
{
    match rest.first() {
        Class::DroppedIntrinsic => Ok(use_here(alloc, rest)?),
        _ => Err(bad(&rest)),
    }
}

/// Reads the name of a function or of an intrinsic that is compiled.
pub fn read_function_use<'t>(alloc: Global, rest: Cursor<'t>) -> Result<(NameUse, Cursor<'t>), End>
    ensures { Gives (λ x. x) result ((global_uses_in (Classes.Global ∷ Classes.Intrinsic ∷ [])).read rest.entry) }
{
    match rest.first() {
        Class::Global | Class::Intrinsic => Ok(use_here(alloc, rest)?),
        _ => Err(bad(&rest)),
    }
}

/// Reads the name of a global or of an intrinsic that does more than carry metadata.
///
/// # Errors
///
/// `Bad` at this token if it is none.
pub fn read_declared_use<'t>(alloc: Global, rest: Cursor<'t>) -> Result<(NameUse, Cursor<'t>), End>
    ensures { Gives (λ x. x) result ((global_uses_in (Classes.Global ∷ Classes.DroppedIntrinsic ∷ Classes.Intrinsic ∷ [])).read rest.entry) }
{
    match rest.first() {
        Class::Global | Class::DroppedIntrinsic | Class::Intrinsic => Ok(use_here(alloc, rest)?),
        _ => Err(bad(&rest)),
    }
}
