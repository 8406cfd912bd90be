//! What functions of integers give (LangRef, "Standard C/C++ Library Intrinsics" and "Bit Manipulation Intrinsics").
ghost use Rattle.std.specs.Prelude.{◌≡◌, ◌<◌, ◌≤◌, ◌-◌, ◌/◌, ◌%◌, ◌*◌, ◌+◌, ◌^◌, Bool, max, min, nat_eq, pos, unsigned_abs};
ghost use Rattle.std.specs.Int.Count.{count_leading_zeros, count_trailing_zeros};
ghost use Rattle.cg_num.specs.Functions.{function_of, funnel, signed_max, signed_min, swapped, unless_forbidden};
ghost use Rattle.cg_num.specs.Signed.{modulo, signed};
ghost use Rattle.cg_num.specs.Widths.{IsWidth};

use crate::end::BinEnd;
use crate::function::IntegerFunction;
use crate::width::{greatest, half, to_signed, wrap};
use crate::wrapping::unless_broken;

/// What a function gives on numbers of so many bits, 1 to 128. One that takes a flag has it as its second number, 1 where it is
/// set; what a function does not take means nothing. The amount of a shift is taken modulo the width.
pub fn apply(function: IntegerFunction, bits: u8, a: u128, b: u128, c: u128) -> BinEnd
    requires width { IsWidth bits }
    requires first { a < 2 ^ bits }
    requires second { b < 2 ^ bits }
    ensures { result ≡ function_of function bits a b c }
{
    match function {
        IntegerFunction::Ctpop => BinEnd::Value(u128::from(a.count_ones())),
        IntegerFunction::Bswap => BinEnd::Value(swapped(bits / 8, a)),
        IntegerFunction::Ctlz => unless_forbidden(b, a == 0, leading_zeros(bits, a)),
        IntegerFunction::Cttz => unless_forbidden(b, a == 0, trailing_zeros(bits, a)),
        IntegerFunction::Abs => unless_forbidden(b, a == half(bits), magnitude(bits, a)),
        IntegerFunction::Fshl => BinEnd::Value(funnel_left(bits, a, b, c)),
        IntegerFunction::Fshr => BinEnd::Value(funnel_right(bits, a, b, c)),
        IntegerFunction::Smax => BinEnd::Value(signed_max(bits, a, b)),
        IntegerFunction::Smin => BinEnd::Value(signed_min(bits, a, b)),
        IntegerFunction::Umax => BinEnd::Value(a.max(b)),
        IntegerFunction::Umin => BinEnd::Value(a.min(b)),
    }
}

/// A number, or poison where a flag forbids it.
fn unless_forbidden(flag: u128, is_forbidden: bool, value: u128) -> BinEnd
    ensures { result ≡ unless_forbidden flag is_forbidden value }
{
    unless_broken((flag == 1) & is_forbidden, value)
}

/// So many bytes of a number in the other order.
#[tactic(auto, using(crate::proofs::SwapLemmas::byte_fits, crate::proofs::SwapLemmas::byte_within, crate::proofs::SwapLemmas::moved_byte))]
fn swapped(bytes: u8, a: u128) -> u128
    requires { bytes ≤ 16 }
    ensures { result ≡ swapped bytes a }
{
    let mut rest = a;
    let mut result = 0u128;
    for _ in 0..bytes {
        result = result * 256 + rest % 256;
        rest /= 256;
    }
    result
}

#[tactic(auto, using(crate::proofs::CountLemmas::leading_enough, crate::proofs::CountLemmas::leading_in_word))]
fn leading_zeros(bits: u8, a: u128) -> u128
    requires width { IsWidth bits }
    requires first { a < 2 ^ bits }
    ensures { result ≡ count_leading_zeros bits a }
{
    u128::from(a.leading_zeros()) - (128 - u128::from(bits))
}

#[tactic(auto, using(crate::proofs::CountLemmas::trailing_in_word, crate::proofs::CountLemmas::trailing_of_zero))]
fn trailing_zeros(bits: u8, a: u128) -> u128
    requires width { IsWidth bits }
    requires first { a < 2 ^ bits }
    ensures { result ≡ count_trailing_zeros bits a }
{
    if a == 0 {
        u128::from(bits)
    } else {
        u128::from(a.trailing_zeros())
    }
}

/// A number without its sign; that of the least number is itself.
#[tactic(auto, using(crate::proofs::MagnitudeLemmas::own_remainder, crate::proofs::MagnitudeLemmas::negative_magnitude, crate::proofs::WidthLemmas::two_halves))]
fn magnitude(bits: u8, a: u128) -> u128
    requires width { IsWidth bits }
    requires first { a < 2 ^ bits }
    ensures { result ≡ modulo bits (pos (unsigned_abs (signed bits a))) }
{
    if a < half(bits) {
        a
    } else {
        greatest(bits) - a + 1
    }
}

fn funnel_left(bits: u8, a: u128, b: u128, by: u128) -> u128
    requires width { IsWidth bits }
    requires first { a < 2 ^ bits }
    requires second { b < 2 ^ bits }
    ensures { result ≡ funnel bits a b (bits - by % bits) }
{
    let by = by % u128::from(bits);
    funnel(bits, a, b, bits - by as u8)
}

fn funnel_right(bits: u8, a: u128, b: u128, by: u128) -> u128
    requires width { IsWidth bits }
    requires first { a < 2 ^ bits }
    requires second { b < 2 ^ bits }
    ensures { result ≡ funnel bits a b (by % bits) }
{
    let by = by % u128::from(bits);
    funnel(bits, a, b, by as u8)
}

/// Two numbers as one, without its lowest bits.
#[tactic(auto, using(crate::proofs::FunnelLemmas::funnel_all, crate::proofs::FunnelLemmas::funnel_none, crate::proofs::FunnelLemmas::funnel_parts))]
fn funnel(bits: u8, a: u128, b: u128, dropped: u8) -> u128
    requires width { IsWidth bits }
    requires within { dropped ≤ bits }
    requires first { a < 2 ^ bits }
    requires second { b < 2 ^ bits }
    ensures { result ≡ funnel bits a b dropped }
{
    if dropped == 0 {
        b
    } else if dropped == bits {
        a
    } else {
        joined(bits, a, b, dropped)
    }
}

/// The lowest bits of the first number in front of what is left of the second.
#[tactic(auto, using(crate::proofs::FunnelLemmas::joined_within, crate::proofs::FunnelLemmas::shifted_part))]
fn joined(bits: u8, a: u128, b: u128, dropped: u8) -> u128
    requires width { IsWidth bits }
    requires some { 0 < dropped }
    requires within { dropped < bits }
    requires second { b < 2 ^ bits }
    ensures { result ≡ a % 2 ^ dropped * 2 ^ (bits - dropped) + b / 2 ^ dropped }
{
    let front = wrap(dropped, a) << (bits - dropped);
    front + (b >> dropped)
}

fn signed_max(bits: u8, a: u128, b: u128) -> u128
    requires width { IsWidth bits }
    requires first { a < 2 ^ bits }
    requires second { b < 2 ^ bits }
    ensures { result ≡ signed_max bits a b }
{
    if to_signed(bits, a) < to_signed(bits, b) {
        b
    } else {
        a
    }
}

fn signed_min(bits: u8, a: u128, b: u128) -> u128
    requires width { IsWidth bits }
    requires first { a < 2 ^ bits }
    requires second { b < 2 ^ bits }
    ensures { result ≡ signed_min bits a b }
{
    if to_signed(bits, a) < to_signed(bits, b) {
        a
    } else {
        b
    }
}
