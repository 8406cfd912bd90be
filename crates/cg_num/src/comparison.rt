//! Comparisons of two integers (LangRef, "'icmp' Instruction").
ghost use Rattle.std.specs.Prelude.{◌≡◌, ◌<◌, ◌^◌};
ghost use Rattle.cg_num.specs.Comparisons.{holds};
ghost use Rattle.cg_num.specs.Widths.{IsWidth};

use crate::pred::Pred;
use crate::width::to_signed;

/// Whether a condition holds on two numbers of so many bits, 1 to 128 (LangRef, "'icmp' Instruction").
pub fn compare(pred: Pred, bits: u8, a: u128, b: u128) -> bool
    requires width { IsWidth bits }
    requires left { a < 2 ^ bits }
    requires right { b < 2 ^ bits }
    ensures { result ≡ holds pred bits a b }
{
    match pred {
        Pred::Eq => a == b,
        Pred::Ne => a != b,
        Pred::Ugt => a > b,
        Pred::Uge => a >= b,
        Pred::Ult => a < b,
        Pred::Ule => a <= b,
        Pred::Sgt => to_signed(bits, a) > to_signed(bits, b),
        Pred::Sge => to_signed(bits, a) >= to_signed(bits, b),
        Pred::Slt => to_signed(bits, a) < to_signed(bits, b),
        Pred::Sle => to_signed(bits, a) <= to_signed(bits, b),
    }
}
