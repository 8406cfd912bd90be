//! Alignments.
ghost use Rattle.std.specs.Prelude.{◌≡◌, ◌<◌};

use std::marker::Model;

/// An alignment in bytes, not 0. Contracts see the number.
#[derive(Clone, Copy)]
pub struct Align {
    bytes: u64,
}

impl Model for Align {
    ghost use Rattle.std.specs.Prelude.{ℕ, ◌<◌};

    ghost Value = { ℕ };

    ghost view = { λ a. a.bytes };

    ghost invariant = { λ a. 0 < a.bytes };

    ghost inverse = { λ bytes. record { bytes = bytes } };
}

impl Align {
    /// So many bytes, not 0.
    pub fn from_bytes(bytes: u64) -> Align
        requires { 0 < bytes }
        ensures { result ≡ bytes }
    {
        Align { bytes }
    }

    /// How many bytes it is.
    pub fn bytes(self) -> u64
        ensures value { result ≡ self }
        ensures some { 0 < result }
    {
        self.bytes
    }
}
