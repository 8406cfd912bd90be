//! Symbols of functions.
ghost use Rattle.std.specs.Prelude.{◌≡◌};
ghost use Rattle.ir_ident.specs.Names.{name_bytes};

use ir_ident::Name;

/// The bytes of a name; an unnamed item has none of its own.
pub fn bytes_of(name: &Name) -> &[u8]
    ensures { result.now ≡ name_bytes name.now }
{
    match name {
        Name::Named(identifier) => identifier.as_bytes(),
        Name::Unnamed(_) | Name::Implicit => &[],
    }
}
