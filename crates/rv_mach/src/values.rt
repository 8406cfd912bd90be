//! What operations on registers give (chapters "RV64I Base Integer Instruction Set" and "'M' Extension for Integer
//! Multiplication and Division").
ghost use Rattle.std.specs.Prelude.{◌≡◌, ◌<◌, ◌+◌, ◌-◌, ◌*◌, ◌^◌, ◌%◌};
ghost use Rattle.rv_mach.specs.Values.{extended, extended_word, difference, difference_w, is_below, left, left_w, right, right_w, right_signed, right_signed_w, shifted, high_signed, high_mixed, high_unsigned, quotient, remainder, quotient_signed, remainder_signed, quotient_w, remainder_w, quotient_signed_w, remainder_signed_w, upper};

/// The number of 64 bits whose low 32 are these, extended by their sign.
pub(crate) fn extended_word(n: u64) -> u64
    ensures { result ≡ extended_word n }
{
    extend_32((n % 0x1_0000_0000) as u32)
}

/// A number of 32 bits, extended by its sign.
pub(crate) fn extend_32(n: u32) -> u64
    ensures { result ≡ extended 32 n }
{
    let wide = u64::from(n);
    if n < 0x8000_0000 {
        wide
    } else {
        wide + 0xffff_ffff_0000_0000
    }
}

/// Whether a number is below another one, with signs.
pub(crate) fn is_below(a: u64, b: u64) -> bool
    ensures { result ≡ is_below a b }
{
    a.cast_signed() < b.cast_signed()
}

/// A number shifted to the right, with its sign from the left.
fn shifted(a: u64, by: u32) -> u64
    requires { by < 64 }
    ensures { result ≡ shifted a by }
{
    if a < 0x8000_0000_0000_0000 {
        a >> by
    } else {
        !(!a >> by)
    }
}

/// A shift to the left.
pub(crate) fn left(a: u64, by: u64) -> u64
    ensures { result ≡ left a by }
{
    a << (by % 64) as u32
}

/// A shift to the right that fills with zeros.
pub(crate) fn right(a: u64, by: u64) -> u64
    ensures { result ≡ right a by }
{
    a >> (by % 64) as u32
}

/// A shift to the right that fills with the sign.
pub(crate) fn right_signed(a: u64, by: u64) -> u64
    ensures { result ≡ right_signed a by }
{
    shifted(a, (by % 64) as u32)
}

/// A shift of 32 bits to the left.
pub(crate) fn left_w(a: u64, by: u64) -> u64
    ensures { result ≡ left_w a by }
{
    extended_word(a << (by % 32) as u32)
}

/// A shift of 32 bits to the right that fills with zeros.
pub(crate) fn right_w(a: u64, by: u64) -> u64
    ensures { result ≡ right_w a by }
{
    extend_32((a % 0x1_0000_0000) as u32 >> (by % 32) as u32)
}

/// A shift of 32 bits to the right that fills with the sign.
pub(crate) fn right_signed_w(a: u64, by: u64) -> u64
    ensures { result ≡ right_signed_w a by }
{
    shifted(extended_word(a), (by % 32) as u32)
}

/// The high 64 bits of a product of numbers without signs.
pub(crate) fn high_unsigned(a: u64, b: u64) -> u64
    ensures { result ≡ high_unsigned a b }
{
    (u128::from(a) * u128::from(b) >> 64) as u64
}

/// The high 64 bits of a product of numbers with signs.
#[tactic(auto, using(crate::proofs::HighLemmas::signed_plain_both, crate::proofs::HighLemmas::signed_first, crate::proofs::HighLemmas::signed_second, crate::proofs::HighLemmas::signed_both))]
pub(crate) fn high_signed(a: u64, b: u64) -> u64
    ensures { result ≡ high_signed a b }
{
    let high = high_unsigned(a, b);
    match (a < 0x8000_0000_0000_0000, b < 0x8000_0000_0000_0000) {
        (true, true) => high,
        (false, true) => high.wrapping_sub(b),
        (true, false) => high.wrapping_sub(a),
        (false, false) => high.wrapping_sub(b).wrapping_sub(a),
    }
}

/// The high 64 bits of a product of a number with a sign and one without.
#[tactic(auto, using(crate::proofs::HighLemmas::mixed_plain, crate::proofs::HighLemmas::mixed_negative))]
pub(crate) fn high_mixed(a: u64, b: u64) -> u64
    ensures { result ≡ high_mixed a b }
{
    let high = high_unsigned(a, b);
    if a < 0x8000_0000_0000_0000 {
        high
    } else {
        high.wrapping_sub(b)
    }
}

/// The quotient of numbers without signs.
pub(crate) fn quotient(a: u64, b: u64) -> u64
    ensures { result ≡ quotient a b }
{
    if b == 0 { u64::MAX } else { a / b }
}

/// The remainder of numbers without signs.
pub(crate) fn remainder(a: u64, b: u64) -> u64
    ensures { result ≡ remainder a b }
{
    if b == 0 { a } else { a % b }
}

/// The quotient of numbers with signs.
pub(crate) fn quotient_signed(a: u64, b: u64) -> u64
    ensures { result ≡ quotient_signed a b }
{
    if b == 0 {
        return u64::MAX;
    }
    if b == u64::MAX {
        return 0_u64.wrapping_sub(a);
    }
    (a.cast_signed() / b.cast_signed()).cast_unsigned()
}

/// The remainder of numbers with signs.
pub(crate) fn remainder_signed(a: u64, b: u64) -> u64
    ensures { result ≡ remainder_signed a b }
{
    if b == 0 {
        return a;
    }
    if b == u64::MAX {
        return 0;
    }
    (a.cast_signed() % b.cast_signed()).cast_unsigned()
}

/// The quotient of numbers of 32 bits without signs.
pub(crate) fn quotient_w(a: u64, b: u64) -> u64
    ensures { result ≡ quotient_w a b }
{
    let (a, b) = ((a % 0x1_0000_0000) as u32, (b % 0x1_0000_0000) as u32);
    if b == 0 { u64::MAX } else { extend_32(a / b) }
}

/// The remainder of numbers of 32 bits without signs.
pub(crate) fn remainder_w(a: u64, b: u64) -> u64
    ensures { result ≡ remainder_w a b }
{
    let (a, b) = ((a % 0x1_0000_0000) as u32, (b % 0x1_0000_0000) as u32);
    if b == 0 {
        extend_32(a)
    } else {
        extend_32(a % b)
    }
}

/// The quotient of numbers of 32 bits with signs.
pub(crate) fn quotient_signed_w(a: u64, b: u64) -> u64
    ensures { result ≡ quotient_signed_w a b }
{
    let (a, b) = ((a % 0x1_0000_0000) as u32, (b % 0x1_0000_0000) as u32);
    if b == 0 {
        return u64::MAX;
    }
    if b == u32::MAX {
        return extend_32(0_u32.wrapping_sub(a));
    }
    extend_32((a.cast_signed() / b.cast_signed()).cast_unsigned())
}

/// The remainder of numbers of 32 bits with signs.
pub(crate) fn remainder_signed_w(a: u64, b: u64) -> u64
    ensures { result ≡ remainder_signed_w a b }
{
    let (a, b) = ((a % 0x1_0000_0000) as u32, (b % 0x1_0000_0000) as u32);
    if b == 0 {
        return extend_32(a);
    }
    if b == u32::MAX {
        return 0;
    }
    extend_32((a.cast_signed() % b.cast_signed()).cast_unsigned())
}

/// What `lui` loads.
pub(crate) fn upper(imm: u64) -> u64
    ensures { result ≡ upper imm }
{
    extended_word(imm.wrapping_mul(0x1000))
}
