//! Integer literals (LangRef, "Simple Constants").
ghost use Rattle.std.specs.Prelude.{◌≡◌, nat_le};
ghost use Rattle.ir_lex.specs.Literals.{decimal_after, is_in_range};

use crate::length::minus_len;
use crate::slice::rest_of;

/// Whether the number of these digits is at most a limit.
#[tactic(auto, using(crate::proofs::Decimals::decimal_done, crate::proofs::Decimals::decimal_step))]
fn is_at_most(digits: &[u8], limit: u128) -> bool
    ensures { result ≡ nat_le (decimal_after 0 digits.now) limit }
{
    let mut value: u128 = 0;
    for digit in digits {
        let Some(tenfold) = value.checked_mul(10) else {
            return false;
        };
        let Some(next) = tenfold.checked_add(digit.saturating_sub(b'0') as u128) else {
            return false;
        };
        value = next;
    }
    value <= limit
}

/// So many bytes spell no number that is out of range.
const SHORT: usize = 19;

/// Whether a literal lies from -2^127 to 2^128 - 1.
#[tactic(auto, unfolding(crate::specs::Literals::is_in_range, crate::specs::Lengths::minus_len))]
pub fn is_in_range(text: &[u8]) -> bool
    ensures { result ≡ is_in_range text.now }
{
    if text.len() <= SHORT {
        return true;
    }
    let minus = minus_len(text);
    let limit = if minus == 1 { 1 << 127 } else { u128::MAX };
    is_at_most(rest_of(text, minus), limit)
}
