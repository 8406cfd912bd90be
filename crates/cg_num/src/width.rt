//! Numbers of some bits (LangRef, "Integer Type").
ghost use Rattle.std.specs.Prelude.{◌≡◌, ◌<◌, ◌≤◌, ◌-◌, ◌%◌, ◌^◌, nat_le, nat_lt};
ghost use Rattle.cg_num.specs.Signed.{signed};
ghost use Rattle.cg_num.specs.Widths.{IsWidth};

/// Half of the modulus of so many bits: the least number whose sign is set.
pub(crate) fn half(bits: u8) -> u128
    requires { IsWidth bits }
    ensures { result ≡ 2 ^ (bits - 1) }
{
    1 << (bits - 1)
}

/// The greatest number of so many bits.
#[tactic(auto, using(crate::proofs::WidthLemmas::half_within, crate::proofs::WidthLemmas::two_halves))]
pub(crate) fn greatest(bits: u8) -> u128
    requires { IsWidth bits }
    ensures { result ≡ 2 ^ bits - 1 }
{
    let half = half(bits);
    half - 1 + half
}

/// A number modulo 2 to so many bits, 1 to 128.
#[tactic(auto, using(std::proofs::lemmas::Nat::and_mask))]
pub fn wrap(bits: u8, a: u128) -> u128
    requires { IsWidth bits }
    ensures { result ≡ a % 2 ^ bits }
{
    a & greatest(bits)
}

/// Whether a number of so many bits, 1 to 128, has its sign set.
pub(crate) fn is_negative(bits: u8, a: u128) -> bool
    requires { IsWidth bits }
    ensures { result ≡ nat_le (2 ^ (bits - 1)) a }
{
    half(bits) <= a
}

/// The integer that a number of so many bits, 1 to 128, writes in two's complement.
#[tactic(auto, using(crate::proofs::WidthLemmas::half_within, crate::proofs::WidthLemmas::two_halves))]
pub fn to_signed(bits: u8, a: u128) -> i128
    requires width { IsWidth bits }
    requires within { a < 2 ^ bits }
    ensures { result ≡ signed bits a }
{
    if a < half(bits) {
        a.cast_signed()
    } else {
        -1 - (greatest(bits) - a).cast_signed()
    }
}
