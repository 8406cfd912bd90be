//! Steps over elements (LangRef, "'getelementptr' Instruction").
ghost use Rattle.std.specs.Prelude.{◌≡◌};
ghost use Rattle.ir_eval.specs.Within.{IsValueWidth, IsWithin};
ghost use Rattle.ir_sem.specs.Elements.{added, scaled};

use crate::sign::sign_extended;
use ir_sem::Value;

/// The sum of two addresses or distances, modulo 2^64.
pub fn added(left: Value, right: Value) -> Value
    ensures { result ≡ added left right }
{
    match (left, right) {
        (Value::Number(a), Value::Number(b)) => Value::Number(a.wrapping_add(b)),
        _ => Value::Poison,
    }
}

/// As many strides as a number of so many bits, 1 to 64, says by its sign.
pub fn scaled(stride: u64, bits: u8, value: Value) -> Value
    requires width { IsValueWidth bits }
    requires within { IsWithin bits value }
    ensures { result ≡ scaled stride bits value }
{
    match value {
        Value::Number(number) => Value::Number(sign_extended(bits, number).wrapping_mul(stride)),
        Value::Poison => Value::Poison,
    }
}
