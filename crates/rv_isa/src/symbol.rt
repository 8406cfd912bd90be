//! Names of symbols.
ghost use Rattle.std.specs.Prelude.{◌≡◌};

use std::marker::Model;

/// The bytes of a symbol's name, without quotes or escapes. Contracts see a list.
#[derive(Debug, Drop)]
pub struct SymName {
    bytes: Vec<u8>,
}

impl Model for SymName {
    ghost use Rattle.std.specs.Prelude.{List, ℕ};

    ghost Value = { List ℕ };

    ghost view = { λ n. n.bytes.items };
}

impl SymName {
    /// The name of these bytes.
    pub fn from_vec(bytes: Vec<u8>) -> SymName
        ensures { result ≡ bytes.items }
    {
        SymName { bytes }
    }

    /// The name's bytes.
    pub fn as_bytes(&self) -> &[u8]
        ensures { result.now ≡ self.now }
    {
        self.bytes.as_slice()
    }
}
