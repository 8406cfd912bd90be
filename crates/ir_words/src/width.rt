//! Widths of integers (LangRef, "Integer Type").
ghost use Rattle.std.specs.Prelude.{◌≡◌, ◌≤◌, length};
ghost use Rattle.std.specs.List.{list_all};
ghost use Rattle.ir_lex.specs.Characters.{is_digit};
ghost use Rattle.ir_lex.specs.Literals.{decimal_after};
ghost use Rattle.ir_words.specs.Words.{is_digits, is_width};

use ir_lex::byte_at;

/// Whether all bytes are digits.
pub fn are_digits(mut text: &[u8]) -> bool
    ensures { result ≡ list_all is_digit text.entry.now }
{
    while let [byte, rest @ ..] = text {
        if !byte.is_ascii_digit() {
            return false;
        }
        text = rest;
    }
    true
}

/// Whether these are one or more digits.
#[tactic(auto, unfolding(crate::specs::Words::is_digits))]
pub(crate) fn is_digits(text: &[u8]) -> bool
    ensures { result ≡ is_digits text.now }
{
    !text.is_empty() && are_digits(text)
}

/// The number of at most two digits.
#[tactic(auto, using(crate::proofs::Widths::no_digit, crate::proofs::Widths::one_digit, crate::proofs::Widths::two_digits))]
fn value_of(digits: &[u8]) -> u32
    requires { length digits.now ≤ 2 }
    ensures { result ≡ decimal_after 0 digits.now }
{
    let first = byte_at(digits, 0).saturating_sub(b'0') as u32;
    let second = byte_at(digits, 1).saturating_sub(b'0') as u32;
    match digits.len() {
        0 => 0,
        1 => first,
        _ => 10 * first + second,
    }
}

/// Whether these are the digits of a number from 1 to 64, without a leading zero.
#[tactic(auto, unfolding(crate::specs::Words::is_width))]
pub(crate) fn is_width(text: &[u8]) -> bool
    ensures { result ≡ is_width text.now }
{
    is_digits(text) && text.len() <= 2 && byte_at(text, 0) != b'0' && value_of(text) <= 64
}
