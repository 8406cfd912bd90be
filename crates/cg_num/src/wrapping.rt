//! Operations whose result wraps: sums, differences, products and shifts to the left (LangRef, "Binary Operations" and
//! "Bitwise Binary Operations").
ghost use Rattle.std.specs.Prelude.{◌≡◌, ◌<◌, ◌≤◌, ◌*◌, ◌%◌, ◌^◌, ◌&&◌, ◌||◌, not, pos, ◌+ℤ◌, ◌-ℤ◌, ◌*ℤ◌};
ghost use Rattle.cg_num.specs.Results.{shifting, unless_broken, wrapping};
ghost use Rattle.cg_num.specs.Signed.{fits_signed, fits_unsigned, modulo, signed};
ghost use Rattle.cg_num.specs.Widths.{IsWidth};

use crate::end::BinEnd;
use crate::flags::Flags;
use crate::sign::fits_signed;
use crate::width::{greatest, half, to_signed, wrap};

/// A number, or poison where a promise is broken.
pub(crate) fn unless_broken(is_broken: bool, value: u128) -> BinEnd
    ensures { result ≡ unless_broken is_broken value }
{
    if is_broken {
        BinEnd::Poison
    } else {
        BinEnd::Value(value)
    }
}

/// The sum of two numbers (LangRef, "'add' Instruction").
pub(crate) fn add(flags: Flags, bits: u8, a: u128, b: u128) -> BinEnd
    requires width { IsWidth bits }
    requires left { a < 2 ^ bits }
    requires right { b < 2 ^ bits }
    ensures { result ≡ wrapping flags bits (pos a +ℤ pos b) (signed bits a +ℤ signed bits b) }
{
    let fits = sum_fits(bits, a, b);
    let fits_signed = signed_sum_fits(bits, a, b);
    unless_broken(
        flags.nuw & !fits | flags.nsw & !fits_signed,
        sum(bits, a, b),
    )
}

/// The sum modulo 2 to the width.
#[tactic(auto, using(crate::proofs::WidthLemmas::less_one_modulus, crate::proofs::WidthLemmas::modulus_within))]
fn sum(bits: u8, a: u128, b: u128) -> u128
    requires width { IsWidth bits }
    requires left { a < 2 ^ bits }
    requires right { b < 2 ^ bits }
    ensures { result ≡ modulo bits (pos a +ℤ pos b) }
{
    if sum_fits(bits, a, b) {
        a + b
    } else {
        a - (greatest(bits) - b) - 1
    }
}

fn sum_fits(bits: u8, a: u128, b: u128) -> bool
    requires width { IsWidth bits }
    requires left { a < 2 ^ bits }
    ensures { result ≡ fits_unsigned bits (pos a +ℤ pos b) }
{
    b <= greatest(bits) - a
}

fn signed_sum_fits(bits: u8, a: u128, b: u128) -> bool
    requires width { IsWidth bits }
    requires left { a < 2 ^ bits }
    requires right { b < 2 ^ bits }
    ensures { result ≡ fits_signed bits (signed bits a +ℤ signed bits b) }
{
    match to_signed(bits, a).checked_add(to_signed(bits, b)) {
        Some(sum) => fits_signed(bits, sum),
        None => false,
    }
}

/// The difference of two numbers (LangRef, "'sub' Instruction").
pub(crate) fn sub(flags: Flags, bits: u8, a: u128, b: u128) -> BinEnd
    requires width { IsWidth bits }
    requires left { a < 2 ^ bits }
    requires right { b < 2 ^ bits }
    ensures { result ≡ wrapping flags bits (pos a -ℤ pos b) (signed bits a -ℤ signed bits b) }
{
    let fits_signed = signed_difference_fits(bits, a, b);
    unless_broken(
        flags.nuw & (a < b) | flags.nsw & !fits_signed,
        difference(bits, a, b),
    )
}

/// The difference modulo 2 to the width.
fn difference(bits: u8, a: u128, b: u128) -> u128
    requires width { IsWidth bits }
    requires left { a < 2 ^ bits }
    requires right { b < 2 ^ bits }
    ensures { result ≡ modulo bits (pos a -ℤ pos b) }
{
    if b <= a {
        a - b
    } else {
        greatest(bits) - (b - a - 1)
    }
}

fn signed_difference_fits(bits: u8, a: u128, b: u128) -> bool
    requires width { IsWidth bits }
    requires left { a < 2 ^ bits }
    requires right { b < 2 ^ bits }
    ensures { result ≡ fits_signed bits (signed bits a -ℤ signed bits b) }
{
    match to_signed(bits, a).checked_sub(to_signed(bits, b)) {
        Some(difference) => fits_signed(bits, difference),
        None => false,
    }
}

/// The product of two numbers (LangRef, "'mul' Instruction").
pub(crate) fn mul(flags: Flags, bits: u8, a: u128, b: u128) -> BinEnd
    requires width { IsWidth bits }
    requires within { bits ≤ 64 }
    requires left { a < 2 ^ bits }
    requires right { b < 2 ^ bits }
    ensures { result ≡ wrapping flags bits (pos a *ℤ pos b) (signed bits a *ℤ signed bits b) }
{
    let product = product(bits, a, b);
    let fits = product <= greatest(bits);
    let fits_signed = signed_product_fits(bits, a, b);
    unless_broken(
        flags.nuw & !fits | flags.nsw & !fits_signed,
        wrap(bits, product),
    )
}

fn product(bits: u8, a: u128, b: u128) -> u128
    requires within { bits ≤ 64 }
    requires left { a < 2 ^ bits }
    requires right { b < 2 ^ bits }
    ensures { result ≡ a * b }
{
    a * b
}

fn signed_product_fits(bits: u8, a: u128, b: u128) -> bool
    requires width { IsWidth bits }
    requires left { a < 2 ^ bits }
    requires right { b < 2 ^ bits }
    ensures { result ≡ fits_signed bits (signed bits a *ℤ signed bits b) }
{
    match to_signed(bits, a).checked_mul(to_signed(bits, b)) {
        Some(product) => fits_signed(bits, product),
        None => false,
    }
}

/// A number shifted to the left (LangRef, "'shl' Instruction").
pub(crate) fn shl(flags: Flags, bits: u8, a: u128, b: u128) -> BinEnd
    requires width { IsWidth bits }
    requires left { a < 2 ^ bits }
    ensures { result ≡ shifting bits b (wrapping flags bits (pos a *ℤ pos (2 ^ b)) (signed bits a *ℤ pos (2 ^ b))) }
{
    if b < u128::from(bits) {
        shl_within(flags, bits, a, b as u32)
    } else {
        BinEnd::Poison
    }
}

fn shl_within(flags: Flags, bits: u8, a: u128, by: u32) -> BinEnd
    requires width { IsWidth bits }
    requires left { a < 2 ^ bits }
    requires within { by < bits }
    ensures { result ≡ wrapping flags bits (pos a *ℤ pos (2 ^ by)) (signed bits a *ℤ pos (2 ^ by)) }
{
    let fits = shl_fits(bits, a, by);
    let fits_signed = shl_fits_signed(bits, a, by);
    unless_broken(
        flags.nuw & !fits | flags.nsw & !fits_signed,
        shifted(bits, a, by),
    )
}

/// A number shifted to the left, modulo 2 to the width.
#[tactic(auto, using(crate::proofs::ShiftLemmas::shifted_twice))]
fn shifted(bits: u8, a: u128, by: u32) -> u128
    requires width { IsWidth bits }
    requires within { by < bits }
    ensures { result ≡ a * 2 ^ by % 2 ^ bits }
{
    wrap(bits, a << by)
}

fn shl_fits(bits: u8, a: u128, by: u32) -> bool
    requires width { IsWidth bits }
    requires within { by < bits }
    ensures { result ≡ fits_unsigned bits (pos a *ℤ pos (2 ^ by)) }
{
    a <= greatest(bits) >> by
}

fn shl_fits_signed(bits: u8, a: u128, by: u32) -> bool
    requires width { IsWidth bits }
    requires left { a < 2 ^ bits }
    requires within { by < bits }
    ensures { result ≡ fits_signed bits (signed bits a *ℤ pos (2 ^ by)) }
{
    let most = half(bits) >> by;
    if a < half(bits) {
        a < most
    } else {
        greatest(bits) - a < most
    }
}
