//! Quotients and remainders (LangRef, "Binary Operations").
ghost use Rattle.std.specs.Prelude.{◌≡◌, ◌<◌, ◌≤◌, ◌^◌, ◌/◌, ◌%◌, int_div, int_rem, unsigned_abs, ◌≢◌};
ghost use Rattle.cg_num.specs.Results.{dividing, dividing_signed, exact};
ghost use Rattle.cg_num.specs.Signed.{fits_signed, modulo, signed};
ghost use Rattle.cg_num.specs.declared.end.BinEnd.TheVariants.{Value};
ghost use Rattle.cg_num.specs.Widths.{IsWidth};

use crate::end::BinEnd;
use crate::flags::Flags;
use crate::sign::{fits_signed, modulo};
use crate::width::to_signed;
use crate::wrapping::unless_broken;

/// A result of which this remainder is lost.
pub(crate) fn exact(flags: Flags, lost: u128, value: u128) -> BinEnd
    ensures { result ≡ exact flags lost value }
{
    unless_broken(flags.exact & (lost != 0), value)
}

/// The quotient of numbers without signs (LangRef, "'udiv' Instruction").
pub(crate) fn udiv(flags: Flags, a: u128, b: u128) -> BinEnd
    ensures { result ≡ dividing b (exact flags (a % b) (a / b)) }
{
    if b == 0 {
        BinEnd::Undefined
    } else {
        exact(flags, a % b, a / b)
    }
}

/// The remainder of numbers without signs (LangRef, "'urem' Instruction").
pub(crate) fn urem(a: u128, b: u128) -> BinEnd
    ensures { result ≡ dividing b (Value (a % b)) }
{
    if b == 0 {
        BinEnd::Undefined
    } else {
        BinEnd::Value(a % b)
    }
}

/// The quotient of numbers with signs, rounded towards zero (LangRef, "'sdiv' Instruction").
pub(crate) fn sdiv(flags: Flags, bits: u8, a: u128, b: u128) -> BinEnd
    requires width { IsWidth bits }
    requires within { bits ≤ 64 }
    requires left { a < 2 ^ bits }
    requires right { b < 2 ^ bits }
    ensures { result ≡ dividing_signed bits a b
        (exact flags (unsigned_abs (int_rem (signed bits a) (signed bits b))) (modulo bits (int_div (signed bits a) (signed bits b)))) }
{
    if b == 0 {
        return BinEnd::Undefined;
    }
    let quotient = signed_quotient(bits, a, b);
    if fits_signed(bits, quotient) {
        let lost = signed_remainder(bits, a, b).unsigned_abs();
        exact(flags, lost, modulo(bits, quotient))
    } else {
        BinEnd::Undefined
    }
}

/// The remainder of numbers with signs, with the sign of the dividend (LangRef, "'srem' Instruction").
pub(crate) fn srem(bits: u8, a: u128, b: u128) -> BinEnd
    requires width { IsWidth bits }
    requires within { bits ≤ 64 }
    requires left { a < 2 ^ bits }
    requires right { b < 2 ^ bits }
    ensures { result ≡ dividing_signed bits a b (Value (modulo bits (int_rem (signed bits a) (signed bits b)))) }
{
    if b == 0 {
        return BinEnd::Undefined;
    }
    if fits_signed(bits, signed_quotient(bits, a, b)) {
        BinEnd::Value(modulo(bits, signed_remainder(bits, a, b)))
    } else {
        BinEnd::Undefined
    }
}

fn signed_quotient(bits: u8, a: u128, b: u128) -> i128
    requires width { IsWidth bits }
    requires within { bits ≤ 64 }
    requires left { a < 2 ^ bits }
    requires right { b < 2 ^ bits }
    requires divides { b ≢ 0 }
    ensures { result ≡ int_div (signed bits a) (signed bits b) }
{
    to_signed(bits, a) / to_signed(bits, b)
}

fn signed_remainder(bits: u8, a: u128, b: u128) -> i128
    requires width { IsWidth bits }
    requires within { bits ≤ 64 }
    requires left { a < 2 ^ bits }
    requires right { b < 2 ^ bits }
    requires divides { b ≢ 0 }
    ensures { result ≡ int_rem (signed bits a) (signed bits b) }
{
    to_signed(bits, a) % to_signed(bits, b)
}
