//! Integers in two's complement (LangRef, "Integer Type").
ghost use Rattle.std.specs.Prelude.{◌≡◌, MatchOption, false};
ghost use Rattle.cg_num.specs.Signed.{fits_signed, modulo};
ghost use Rattle.cg_num.specs.Widths.{IsWidth};

use crate::width::{greatest, half, wrap};

/// Whether so many bits write an integer in two's complement.
#[tactic(auto, using(crate::proofs::WidthLemmas::half_within))]
pub(crate) fn fits_signed(bits: u8, z: i128) -> bool
    requires { IsWidth bits }
    ensures { result ≡ fits_signed bits z }
{
    let magnitude = if z < 0 { -1 - z } else { z };
    magnitude.cast_unsigned() < half(bits)
}

/// An integer modulo 2 to so many bits.
pub(crate) fn modulo(bits: u8, z: i128) -> u128
    requires { IsWidth bits }
    ensures { result ≡ modulo bits z }
{
    if z < 0 {
        greatest(bits) - wrap(bits, (-1 - z).cast_unsigned())
    } else {
        wrap(bits, z.cast_unsigned())
    }
}
