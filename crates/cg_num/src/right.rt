//! Shifts to the right (LangRef, "Bitwise Binary Operations").
ghost use Rattle.std.specs.Prelude.{◌≡◌, ◌<◌, ◌/◌, ◌%◌, ◌^◌};
ghost use Rattle.cg_num.specs.Results.{exact, shifting};
ghost use Rattle.cg_num.specs.Signed.{floored, modulo, signed};
ghost use Rattle.cg_num.specs.Widths.{IsWidth};

use crate::dividing::exact;
use crate::end::BinEnd;
use crate::flags::Flags;
use crate::width::{greatest, half};

/// The bits that a shift to the right drops.
fn dropped(a: u128, by: u32) -> u128
    requires { by < 128 }
    ensures { result ≡ a % 2 ^ by }
{
    a % (1 << by)
}

/// A number shifted to the right, with zeros from the left (LangRef, "'lshr' Instruction").
pub(crate) fn lshr(flags: Flags, bits: u8, a: u128, b: u128) -> BinEnd
    requires { IsWidth bits }
    ensures { result ≡ shifting bits b (exact flags (a % 2 ^ b) (a / 2 ^ b)) }
{
    if b < u128::from(bits) {
        let by = b as u32;
        exact(flags, dropped(a, by), a >> by)
    } else {
        BinEnd::Poison
    }
}

/// A number shifted to the right, with its sign from the left (LangRef, "'ashr' Instruction").
pub(crate) fn ashr(flags: Flags, bits: u8, a: u128, b: u128) -> BinEnd
    requires width { IsWidth bits }
    requires left { a < 2 ^ bits }
    ensures { result ≡ shifting bits b (exact flags (a % 2 ^ b) (modulo bits (floored (signed bits a) (2 ^ b)))) }
{
    if b < u128::from(bits) {
        let by = b as u32;
        exact(flags, dropped(a, by), signed_shift(bits, a, by))
    } else {
        BinEnd::Poison
    }
}

#[tactic(auto, using(crate::proofs::ShiftLemmas::negative_shifted))]
fn signed_shift(bits: u8, a: u128, by: u32) -> u128
    requires width { IsWidth bits }
    requires left { a < 2 ^ bits }
    requires within { by < bits }
    ensures { result ≡ modulo bits (floored (signed bits a) (2 ^ by)) }
{
    if a < half(bits) {
        a >> by
    } else {
        greatest(bits) - (greatest(bits) - a >> by)
    }
}
