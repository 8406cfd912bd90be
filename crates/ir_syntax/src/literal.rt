//! Integer literals (LangRef, "Simple Constants").
ghost use Rattle.std.specs.Prelude.{◌≡◌, ◌≤◌};
ghost use Rattle.ir_syntax.specs.Literals.{wrapped};

/// An integer literal: a sign and a magnitude. Its value is read modulo 2 to its type's width.
#[derive(Clone, Copy, PartialEq, Eq)]
pub struct Literal {
    /// Whether a minus stands before the digits.
    pub negative: bool,
    /// The number of the digits, at most 2^128 - 1, or 2^127 after a minus.
    pub magnitude: u128,
}

impl Literal {
    /// The literal as a number of this many bits, at most 64: its value modulo 2 to them.
    pub fn wrapped(self, bits: u8) -> u128
        requires { bits ≤ 64 }
        ensures { result ≡ wrapped bits self }
    {
        let modulus = 1u128 << bits;
        let low = self.magnitude % modulus;
        if self.negative {
            (modulus - low) % modulus
        } else {
            low
        }
    }
}
