//! Numbers of some bits as numbers of others.
ghost use Rattle.std.specs.Prelude.{◌≡◌, ◌+◌, ◌-◌, ◌*◌, ◌<◌, ◌≤◌, ◌%◌, ◌^◌, nat_lt, if◌then◌else◌};
ghost use Rattle.ir_eval.specs.Within.{IsValueWidth};
ghost use Rattle.ir_geps.specs.Indices.{sign_extended};

use cg_num::wrap;

/// A number modulo 2 to so many bits, 1 to 64.
pub(crate) fn wrapped(bits: u8, number: u64) -> u64
    requires { IsValueWidth bits }
    ensures { result ≡ number % 2 ^ bits }
{
    wrap(bits, u128::from(number)) as u64
}

/// A number of so many bits, 1 to 64, its highest bit repeated up to 64.
pub(crate) fn sign_extended(bits: u8, number: u64) -> u64
    requires width { IsValueWidth bits }
    requires within { number < 2 ^ bits }
    ensures { result ≡ sign_extended bits number }
{
    if bits < 64 {
        repeat_sign(1u64 << bits, number)
    } else {
        number
    }
}

/// A number below `unit`, the highest bit repeated up to 64.
fn repeat_sign(unit: u64, number: u64) -> u64
    requires unit { unit ≤ 2 ^ 63 }
    requires below { number < unit }
    ensures { result ≡ if nat_lt (2 * number) unit then number else number + (2 ^ 64 - unit) }
{
    if 2 * number < unit {
        number
    } else {
        number.wrapping_sub(unit)
    }
}
