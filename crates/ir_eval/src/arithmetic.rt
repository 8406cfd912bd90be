//! Operations and comparisons of two values (LangRef, "Binary Operations", "Bitwise Binary Operations" and "'icmp' Instruction").
ghost use Rattle.std.specs.Prelude.{◌≡◌, ◌<◌, ◌≤◌, ◌-◌, ◌^◌};
ghost use Rattle.cg_num.specs.Widths.{widest};
ghost use Rattle.ir_eval.specs.Within.{IsValueWidth, IsWithin};
ghost use Rattle.ir_sem.specs.Actions.{given};
ghost use Rattle.ir_sem.specs.Instructions.{or_break};
ghost use Rattle.ir_sem.specs.declared.value.Value.TheVariants.{Number};
ghost use Rattle.ir_sem.specs.Operations.{binary, compared, divides, divides_signed, is_unsafe, poison_unless, truth};

use cg_num::{BinEnd, BinOp, Flags, Pred, bin, compare};
use ir_sem::Value;

/// What an operation gives on two values of so many bits, 1 to 64; none is undefined behaviour.
pub fn binary(op: BinOp, flags: Flags, bits: u8, left: Value, right: Value) -> Option<Value>
    requires width { IsValueWidth bits }
    requires left { IsWithin bits left }
    requires right { IsWithin bits right }
    ensures { or_break result ≡ given (binary op flags bits left right) }
{
    match (left, right) {
        (Value::Number(a), Value::Number(b)) => numbers(op, flags, bits, a, b),
        (Value::Poison, Value::Number(b)) => poison_unless(is_unsafe(op, bits, b)),
        (_, Value::Poison) => poison_unless(divides(op)),
    }
}

fn numbers(op: BinOp, flags: Flags, bits: u8, a: u64, b: u64) -> Option<Value>
    requires width { IsValueWidth bits }
    requires left { a < 2 ^ bits }
    requires right { b < 2 ^ bits }
    ensures { or_break result ≡ given (binary op flags bits (Number a) (Number b)) }
{
    has_width(op);
    end_value(bin(op, flags, bits, u128::from(a), u128::from(b)))
}

/// Each operation is one on numbers of 64 bits.
fn has_width(op: BinOp)
    ensures { 64 ≤ widest op }
{
    match op {
        BinOp::Mul | BinOp::Udiv | BinOp::Sdiv | BinOp::Urem | BinOp::Srem => {}
        BinOp::Add
        | BinOp::Sub
        | BinOp::Shl
        | BinOp::Lshr
        | BinOp::Ashr
        | BinOp::And
        | BinOp::Or
        | BinOp::Xor => {}
    }
}

/// The value that an operation on integers gives.
pub(crate) fn end_value(end: BinEnd) -> Option<Value>
    ensures { or_break result ≡ given end }
{
    match end {
        BinEnd::Value(number) => Some(Value::Number((number % 0x1_0000_0000_0000_0000) as u64)),
        BinEnd::Poison => Some(Value::Poison),
        BinEnd::Undefined => None,
    }
}

fn poison_unless(undefined: bool) -> Option<Value>
    ensures { or_break result ≡ given (poison_unless undefined) }
{
    if undefined { None } else { Some(Value::Poison) }
}

fn divides_signed(op: BinOp) -> bool
    ensures { result ≡ divides_signed op }
{
    matches!(op, BinOp::Sdiv | BinOp::Srem)
}

fn divides(op: BinOp) -> bool
    ensures { result ≡ divides op }
{
    matches!(op, BinOp::Udiv | BinOp::Urem | BinOp::Sdiv | BinOp::Srem)
}

/// Whether not every number can be divided by this one.
fn is_unsafe(op: BinOp, bits: u8, divisor: u64) -> bool
    requires width { IsValueWidth bits }
    ensures { result ≡ is_unsafe op bits divisor }
{
    divides(op) & (divisor == 0) | divides_signed(op) & (divisor == greatest(bits))
}

/// The greatest number of so many bits, 1 to 64.
fn greatest(bits: u8) -> u64
    requires { IsValueWidth bits }
    ensures { result ≡ 2 ^ bits - 1 }
{
    let half = 1u64 << (bits - 1);
    half - 1 + half
}

/// Whether a condition holds on two values of so many bits, 1 to 64: 1 or 0.
pub fn compared(pred: Pred, bits: u8, left: Value, right: Value) -> Value
    requires width { IsValueWidth bits }
    requires left { IsWithin bits left }
    requires right { IsWithin bits right }
    ensures { result ≡ compared pred bits left right }
{
    match (left, right) {
        (Value::Number(a), Value::Number(b)) => {
            Value::Number(truth(compare(pred, bits, u128::from(a), u128::from(b))))
        }
        _ => Value::Poison,
    }
}

fn truth(holds: bool) -> u64
    ensures { result ≡ truth holds }
{
    u64::from(holds)
}
