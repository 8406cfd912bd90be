//! Numbers in their one spelling.
ghost use Rattle.std.specs.Prelude.{◌≡◌};
ghost use Rattle.std.specs.Fmt.{signed_decimal};
ghost use Rattle.std.specs.List.{list_all};
ghost use Rattle.rv_isa.specs.Symbol.{is_digit};
ghost use Rattle.rv_isa.specs.Symbol as symbol;
ghost use Rattle.asm_inst.specs.Grammar.{IsBetween};
ghost use Rattle.asm_inst.specs.Readings.{Reads};

use itoa::Buffer;
use std::str::from_utf8;

/// Whether all bytes are digits.
fn are_digits(bytes: &[u8]) -> bool
    ensures { result ≡ list_all is_digit bytes.now }
{
    bytes.iter().all(|byte| byte.is_ascii_digit())
}

/// Whether the bytes are a number in its one spelling: `0`, or digits that do not begin with 0.
pub fn is_number(bytes: &[u8]) -> bool
    ensures { result ≡ symbol.is_number bytes.now }
{
    match bytes {
        [] => false,
        [digit] => digit.is_ascii_digit(),
        [first, rest @ ..] => first.is_ascii_digit() & (*first != b'0') & are_digits(rest),
    }
}

/// The number from `low` to `high` that the bytes spell.
pub fn read_number(bytes: &[u8], low: i32, high: i32) -> Option<i64>
    ensures { Reads (λ imm. IsBetween low high imm × (bytes.now ≡ signed_decimal imm)) result }
{
    let Ok(text) = from_utf8(bytes) else {
        return None;
    };
    let Ok(value) = text.parse::<i64>() else {
        return None;
    };
    let lowest = i64::from(low);
    let highest = i64::from(high);
    if value < lowest || value > highest {
        return None;
    }
    let mut buffer = Buffer::new();
    if buffer.format(value).as_bytes() == bytes {
        Some(value)
    } else {
        None
    }
}
