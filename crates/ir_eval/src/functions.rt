//! Functions of integers (LangRef, "Standard C/C++ Library Intrinsics" and "Bit Manipulation Intrinsics").
ghost use Rattle.std.specs.Prelude.{◌≡◌};
ghost use Rattle.ir_eval.specs.Within.{IsValueWidth, IsWithin};
ghost use Rattle.ir_sem.specs.Actions.{given};
ghost use Rattle.ir_sem.specs.Instructions.{or_break};
ghost use Rattle.ir_sem.specs.Operations.{applied};

use crate::arithmetic::end_value;
use cg_num::{IntegerFunction, apply};
use ir_sem::Value;

/// What a function gives on values of so many bits, 1 to 64. One that takes a flag has it as its second value; what a function does
/// not take is 0.
pub fn applied(
    function: IntegerFunction,
    bits: u8,
    first: Value,
    second: Value,
    third: Value,
) -> Option<Value>
    requires width { IsValueWidth bits }
    requires first { IsWithin bits first }
    requires second { IsWithin bits second }
    ensures { or_break result ≡ given (applied function bits first second third) }
{
    match (first, second, third) {
        (Value::Number(a), Value::Number(b), Value::Number(c)) => end_value(apply(
            function,
            bits,
            u128::from(a),
            u128::from(b),
            u128::from(c),
        )),
        _ => Some(Value::Poison),
    }
}
