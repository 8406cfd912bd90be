//! Escapes in a quoted name (LangRef, "Identifiers").
ghost use Rattle.std.specs.Prelude.{IsTrue, ◌≡◌, ◌<◌, ◌≤◌, length, slice_index, true};
ghost use Rattle.ir_lex.specs.Characters.{is_hexadecimal};
ghost use Rattle.ir_lex.specs.Escapes.{digit_of, escape_byte, escape_len, holds_zero, is_numbered};

use crate::class::Class;
use crate::slice::{byte_at, rest_of};

/// The number of a hexadecimal digit.
fn digit_of(byte: u8) -> u8
    requires { is_hexadecimal byte ≡ true }
    ensures value { result ≡ digit_of byte }
    ensures within { result < 16 }
{
    if byte.is_ascii_digit() {
        byte - 48
    } else if byte >= 97 {
        byte - 87
    } else {
        byte - 55
    }
}

/// Whether a backslash and two hexadecimal digits stand at the start.
#[tactic(auto, unfolding(crate::specs::Escapes::is_numbered))]
fn is_numbered(bytes: &[u8]) -> bool
    ensures value { result ≡ is_numbered bytes.now }
    ensures within { IsTrue result → 2 < length bytes.now }
    ensures first { IsTrue result → is_hexadecimal (slice_index bytes.now 1) ≡ true }
    ensures second { IsTrue result → is_hexadecimal (slice_index bytes.now 2) ≡ true }
{
    byte_at(bytes, 0) == b'\\'
        && Class::Hexadecimal.holds(byte_at(bytes, 1))
        && Class::Hexadecimal.holds(byte_at(bytes, 2))
}

/// How many bytes at the start stand for one.
#[tactic(auto, unfolding(crate::specs::Escapes::escape_len))]
pub fn escape_len(bytes: &[u8]) -> usize
    ensures value { result ≡ escape_len bytes.now }
    ensures some { 0 < result }
    ensures most { result ≤ 3 }
    ensures within { 0 < length bytes.now → result ≤ length bytes.now }
{
    if is_numbered(bytes) {
        3
    } else if byte_at(bytes, 0) == b'\\' && byte_at(bytes, 1) == b'\\' {
        2
    } else {
        1
    }
}

/// The byte that these at the start stand for.
#[tactic(auto, unfolding(crate::specs::Escapes::escape_byte))]
pub fn escape_byte(bytes: &[u8]) -> u8
    ensures { result ≡ escape_byte bytes.now }
{
    if is_numbered(bytes) {
        16 * digit_of(byte_at(bytes, 1)) + digit_of(byte_at(bytes, 2))
    } else {
        byte_at(bytes, 0)
    }
}

/// Whether a name holds byte 0 after its escapes.
#[tactic(auto, unfolding(crate::specs::Escapes::holds_zero, crate::specs::Escapes::unescaped))]
pub(crate) fn holds_zero(text: &[u8]) -> bool
    ensures { result ≡ holds_zero text.now }
{
    let mut at = 0;
    while at < text.len() {
        let rest = rest_of(text, at);
        if escape_byte(rest) == 0 {
            return true;
        }
        at += escape_len(rest);
    }
    false
}
