//! Numbers of decimal digits (LangRef, "Identifiers" and "Simple Constants").
ghost use Rattle.std.specs.Prelude.{◌≡◌, ◌≤◌, ◌^◌, ◌-◌, true, min, IfOk};
ghost use Rattle.std.specs.List.{list_all};
ghost use Rattle.ir_lex.specs.Characters.{is_digit};
ghost use Rattle.ir_lex.specs.Literals.{decimal_after};

use ir_ident::ItemNumber;
use std::alloc::{AllocError, Global};

/// The number of these decimal digits, or 2^128 - 1 where it is larger.
pub(crate) fn decimal(digits: &[u8]) -> u128
    ensures { result ≡ min (decimal_after 0 digits.now) (2 ^ 128 - 1) }
{
    let mut value: u128 = 0;
    for digit in digits {
        let unit = digit.saturating_sub(b'0') as u128;
        value = value.saturating_mul(10).saturating_add(unit);
    }
    value
}

/// The number of an unnamed item, which these decimal digits write.
#[tactic(auto, using(crate::proofs::Capping::one_digit, crate::proofs::Capping::no_less))]
pub(crate) fn item_number(alloc: Global, digits: &[u8]) -> Result<ItemNumber, AllocError>
    requires { list_all is_digit digits.now ≡ true }
    ensures { IfOk result (λ number. number ≡ decimal_after 0 digits.now) }
{
    let mut number = ItemNumber::from_u64(0);
    for digit in digits {
        number.push_digit(alloc, *digit - b'0')?;
    }
    Ok(number)
}

/// The number of digits that write at most 64.
pub(crate) fn small_number(digits: &[u8]) -> u8
    requires { decimal_after 0 digits.now ≤ 64 }
    ensures { result ≡ decimal_after 0 digits.now }
{
    decimal(digits) as u8
}
