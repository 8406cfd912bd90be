//! What operations on two integers give (LangRef, "Binary Operations" and "Bitwise Binary Operations").
ghost use Rattle.std.specs.Prelude.{◌≡◌, ◌<◌, ◌≤◌, ◌^◌};
ghost use Rattle.cg_num.specs.Results.{result_of};
ghost use Rattle.cg_num.specs.Widths.{IsWidth, widest};

use crate::dividing::{sdiv, srem, udiv, urem};
use crate::end::BinEnd;
use crate::flags::Flags;
use crate::op::BinOp;
use crate::right::{ashr, lshr};
use crate::wrapping::{add, mul, shl, sub};

/// What an operation gives on two numbers of so many bits: 1 to 128, for a product, a quotient or a remainder 1 to 64. A
/// flag that the operation does not have means nothing.
pub fn bin(op: BinOp, flags: Flags, bits: u8, a: u128, b: u128) -> BinEnd
    requires width { IsWidth bits }
    requires within { bits ≤ widest op }
    requires left { a < 2 ^ bits }
    requires right { b < 2 ^ bits }
    ensures { result ≡ result_of op flags bits a b }
{
    match op {
        BinOp::Add => add(flags, bits, a, b),
        BinOp::Sub => sub(flags, bits, a, b),
        BinOp::Mul => mul(flags, bits, a, b),
        BinOp::Udiv => udiv(flags, a, b),
        BinOp::Sdiv => sdiv(flags, bits, a, b),
        BinOp::Urem => urem(a, b),
        BinOp::Srem => srem(bits, a, b),
        BinOp::Shl => shl(flags, bits, a, b),
        BinOp::Lshr => lshr(flags, bits, a, b),
        BinOp::Ashr => ashr(flags, bits, a, b),
        BinOp::And => BinEnd::Value(a & b),
        BinOp::Or => BinEnd::Value(a | b),
        BinOp::Xor => BinEnd::Value(a ^ b),
    }
}
