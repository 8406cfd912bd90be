//! Widths of values (LangRef, "Integer Type" and "Pointer Type").
ghost use Rattle.std.specs.Prelude.{◌≡◌};
ghost use Rattle.ir_eval.specs.Within.{IsValueWidth, IsWithin};
ghost use Rattle.ir_sem.specs.Operands.{bits_of, narrowed};

use ir_loaded::{bits_of, narrowed};
use ir_sem::Value;
use ir_syntax::TyText;
use std::marker::Model;

/// The number of bits of a value, 1 to 64. Contracts see the number.
#[derive(Clone, Copy)]
pub struct Width {
    bits: u8,
}

impl Model for Width {
    ghost use Rattle.std.specs.Prelude.{ℕ};
    ghost use Rattle.ir_eval.specs.Within.{IsValueWidth};

    ghost Value = { ℕ };

    ghost view = { λ w. w.bits };

    ghost invariant = { λ w. IsValueWidth w.bits };

    ghost inverse = { λ bits. record { bits = bits } };
}

impl Width {
    /// The width of the values of a type.
    pub fn of(ty: &TyText) -> Width
        ensures { result ≡ bits_of ty.now }
    {
        Width { bits: bits_of(ty) }
    }

    /// So many bits, 1 to 64.
    pub fn from_bits(bits: u8) -> Width
        requires { IsValueWidth bits }
        ensures { result ≡ bits }
    {
        Width { bits }
    }

    /// How many bits it is.
    pub fn bits(self) -> u8
        ensures value { result ≡ self }
        ensures width { IsValueWidth result }
    {
        self.bits
    }

    /// The lowest bits of a value, as many as it is wide.
    pub fn narrowed(self, value: Value) -> Value
        ensures value { result ≡ narrowed self value }
        ensures within { IsWithin self result }
    {
        match value {
            Value::Number(number) => narrowed(self.bits, number),
            Value::Poison => Value::Poison,
        }
    }
}
