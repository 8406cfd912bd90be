//! Selections and casts (LangRef, "'select' Instruction" and "Conversion Operations").
ghost use Rattle.std.specs.Prelude.{◌≡◌, ◌<◌, ◌^◌};
ghost use Rattle.ir_eval.specs.Within.{IsValueWidth, IsWithin};
ghost use Rattle.ir_sem.specs.Operations.{cast, cast_number, selected};

use crate::sign::{sign_extended, wrapped};
use ir_sem::Value;
use ir_syntax::CastOp;

/// The value that a condition chooses; poison of the other does no harm.
pub fn selected(condition: Value, then_value: Value, else_value: Value) -> Value
    ensures { result ≡ selected condition then_value else_value }
{
    match condition {
        Value::Number(0) => else_value,
        Value::Number(_) => then_value,
        Value::Poison => Value::Poison,
    }
}

/// A value of so many bits as one of others, both 1 to 64.
pub fn cast(op: CastOp, from: u8, to: u8, value: Value) -> Value
    requires from { IsValueWidth from }
    requires to { IsValueWidth to }
    requires within { IsWithin from value }
    ensures { result ≡ cast op from to value }
{
    match value {
        Value::Number(number) => Value::Number(cast_number(op, from, to, number)),
        Value::Poison => Value::Poison,
    }
}

fn cast_number(op: CastOp, from: u8, to: u8, number: u64) -> u64
    requires from { IsValueWidth from }
    requires to { IsValueWidth to }
    requires within { number < 2 ^ from }
    ensures { result ≡ cast_number op from to number }
{
    match op {
        CastOp::Sext => wrapped(to, sign_extended(from, number)),
        CastOp::Trunc | CastOp::Zext | CastOp::PtrToInt | CastOp::IntToPtr | CastOp::BitCast => {
            wrapped(to, number)
        }
    }
}
