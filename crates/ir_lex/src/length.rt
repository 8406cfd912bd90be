//! How long the token of each kind is that begins at the start of the bytes.
ghost use Rattle.std.specs.Prelude.{◌≡◌, ◌≤◌, length};
ghost use Rattle.ir_lex.specs.Lengths.{attribute_len, content_len, cstring_len, decimal_len, exponent_len, format_len, hexadecimal_len, int_len, label_len, len_of, marked_len, minus_len, point_len, real_len, sign_len, spelled_len, string_len, word_len};

use crate::class::{Class, run_len};
use crate::kind::Kind;
use crate::slice::{byte_at, rest_of};

/// A word as it stands.
#[tactic(auto, unfolding(crate::specs::Lengths::spelled_len))]
fn spelled_len(word: &[u8], bytes: &[u8]) -> usize
    ensures value { result ≡ spelled_len word.now bytes.now }
    ensures within { result ≤ length bytes.now }
{
    if bytes.starts_with(word) {
        word.len()
    } else {
        0
    }
}

/// `"`, bytes other than `"`, `"`.
#[tactic(auto, unfolding(crate::specs::Lengths::string_len))]
fn string_len(bytes: &[u8]) -> usize
    ensures value { result ≡ string_len bytes.now }
    ensures within { result ≤ length bytes.now }
{
    if byte_at(bytes, 0) != b'"' {
        return 0;
    }
    let inner = run_len(rest_of(bytes, 1), Class::Quoted);
    if byte_at(bytes, 1 + inner) == b'"' {
        2 + inner
    } else {
        0
    }
}

/// Characters of a name, or a string.
#[tactic(auto, unfolding(crate::specs::Lengths::content_len))]
fn content_len(bytes: &[u8]) -> usize
    ensures value { result ≡ content_len bytes.now }
    ensures within { result ≤ length bytes.now }
{
    match string_len(bytes) {
        0 => run_len(bytes, Class::Name),
        len => len,
    }
}

/// Characters of a name or a string, directly followed by `:`.
#[tactic(auto, unfolding(crate::specs::Lengths::label_len))]
pub(crate) fn label_len(bytes: &[u8]) -> usize
    ensures value { result ≡ label_len bytes.now }
    ensures within { result ≤ length bytes.now }
{
    let len = content_len(bytes);
    if byte_at(bytes, len) == b':' && len > 0 {
        len + 1
    } else {
        0
    }
}

/// 1 where the first byte is `-`.
#[tactic(auto, unfolding(crate::specs::Lengths::minus_len))]
pub(crate) fn minus_len(bytes: &[u8]) -> usize
    ensures value { result ≡ minus_len bytes.now }
    ensures within { result ≤ length bytes.now }
{
    if byte_at(bytes, 0) == b'-' { 1 } else { 0 }
}

/// An optional `-` and digits.
#[tactic(auto, unfolding(crate::specs::Lengths::int_len))]
pub(crate) fn int_len(bytes: &[u8]) -> usize
    ensures value { result ≡ int_len bytes.now }
    ensures within { result ≤ length bytes.now }
{
    let minus = minus_len(bytes);
    match run_len(rest_of(bytes, minus), Class::Digit) {
        0 => 0,
        digits => minus + digits,
    }
}

/// `.` and digits.
#[tactic(auto, unfolding(crate::specs::Lengths::point_len))]
fn point_len(bytes: &[u8]) -> usize
    ensures value { result ≡ point_len bytes.now }
    ensures within { result ≤ length bytes.now }
{
    if byte_at(bytes, 0) != b'.' {
        return 0;
    }
    match run_len(rest_of(bytes, 1), Class::Digit) {
        0 => 0,
        digits => 1 + digits,
    }
}

/// 1 where the first byte is `+` or `-`.
#[tactic(auto, unfolding(crate::specs::Lengths::sign_len))]
fn sign_len(bytes: &[u8]) -> usize
    ensures value { result ≡ sign_len bytes.now }
    ensures within { result ≤ length bytes.now }
{
    let first = byte_at(bytes, 0);
    if first == b'+' || first == b'-' { 1 } else { 0 }
}

/// `e` or `E`, an optional sign, and digits.
#[tactic(auto, unfolding(crate::specs::Lengths::exponent_len))]
fn exponent_len(bytes: &[u8]) -> usize
    ensures value { result ≡ exponent_len bytes.now }
    ensures within { result ≤ length bytes.now }
{
    let first = byte_at(bytes, 0);
    if first != b'e' && first != b'E' {
        return 0;
    }
    let before = 1 + sign_len(rest_of(bytes, 1));
    match run_len(rest_of(bytes, before), Class::Digit) {
        0 => 0,
        digits => before + digits,
    }
}

/// An integer of this length, a point with digits, and an optional exponent.
#[tactic(auto, unfolding(crate::specs::Lengths::decimal_len))]
fn decimal_len(bytes: &[u8], whole: usize) -> usize
    requires { whole ≡ int_len bytes.now }
    ensures value { result ≡ decimal_len bytes.now }
    ensures within { result ≤ length bytes.now }
{
    let point = point_len(rest_of(bytes, whole));
    if whole == 0 || point == 0 {
        return 0;
    }
    whole + point + exponent_len(rest_of(bytes, whole + point))
}

/// 1 where the first byte is one of `K`, `L`, `M`, `H` and `R`.
#[tactic(auto, unfolding(crate::specs::Lengths::format_len))]
fn format_len(bytes: &[u8]) -> usize
    ensures value { result ≡ format_len bytes.now }
    ensures within { result ≤ length bytes.now }
{
    match byte_at(bytes, 0) {
        b'K' | b'L' | b'M' | b'H' | b'R' => 1,
        _ => 0,
    }
}

/// `0x`, at most one of `K`, `L`, `M`, `H` and `R`, and hexadecimal digits.
#[tactic(auto, unfolding(crate::specs::Lengths::hexadecimal_len))]
fn hexadecimal_len(bytes: &[u8]) -> usize
    ensures value { result ≡ hexadecimal_len bytes.now }
    ensures within { result ≤ length bytes.now }
{
    if byte_at(bytes, 0) != b'0' || byte_at(bytes, 1) != b'x' {
        return 0;
    }
    let before = 2 + format_len(rest_of(bytes, 2));
    match run_len(rest_of(bytes, before), Class::Hexadecimal) {
        0 => 0,
        digits => before + digits,
    }
}

/// A floating-point literal, where the integer at the start has this length.
#[tactic(auto, unfolding(crate::specs::Lengths::real_len))]
pub(crate) fn real_len(bytes: &[u8], whole: usize) -> usize
    requires { whole ≡ int_len bytes.now }
    ensures value { result ≡ real_len bytes.now }
    ensures within { result ≤ length bytes.now }
{
    match decimal_len(bytes, whole) {
        0 => hexadecimal_len(bytes),
        len => len,
    }
}

/// Characters of a name that begin with neither a digit nor `-`, and aren't `...`.
#[tactic(auto, unfolding(crate::specs::Lengths::word_len))]
fn word_len(bytes: &[u8]) -> usize
    ensures value { result ≡ word_len bytes.now }
    ensures within { result ≤ length bytes.now }
{
    let len = run_len(bytes, Class::Name);
    if matches!(byte_at(bytes, 0), b'0'..=b'9' | b'-') || &bytes[..len] == b"...".as_slice() {
        0
    } else {
        len
    }
}

/// `c` and a string.
#[tactic(auto, unfolding(crate::specs::Lengths::cstring_len))]
fn cstring_len(bytes: &[u8]) -> usize
    ensures value { result ≡ cstring_len bytes.now }
    ensures within { result ≤ length bytes.now }
{
    if byte_at(bytes, 0) != b'c' {
        return 0;
    }
    match string_len(rest_of(bytes, 1)) {
        0 => 0,
        len => 1 + len,
    }
}

/// A mark, and characters of a name or a string.
#[tactic(auto, unfolding(crate::specs::Lengths::marked_len))]
fn marked_len(mark: u8, bytes: &[u8]) -> usize
    ensures value { result ≡ marked_len mark bytes.now }
    ensures within { result ≤ length bytes.now }
{
    if byte_at(bytes, 0) != mark {
        return 0;
    }
    match content_len(rest_of(bytes, 1)) {
        0 => 0,
        len => 1 + len,
    }
}

/// `#` and digits.
#[tactic(auto, unfolding(crate::specs::Lengths::attribute_len))]
fn attribute_len(bytes: &[u8]) -> usize
    ensures value { result ≡ attribute_len bytes.now }
    ensures within { result ≤ length bytes.now }
{
    if byte_at(bytes, 0) != b'#' {
        return 0;
    }
    match run_len(rest_of(bytes, 1), Class::Digit) {
        0 => 0,
        digits => 1 + digits,
    }
}

/// How long the token of a kind is that begins at the start; 0 where none does.
#[tactic(auto, unfolding(crate::specs::Lengths::len_of))]
pub(crate) fn len_of(kind: Kind, bytes: &[u8]) -> usize
    ensures value { result ≡ len_of kind bytes.now }
    ensures within { result ≤ length bytes.now }
{
    match kind {
        Kind::Label => label_len(bytes),
        Kind::Int => int_len(bytes),
        Kind::Real => real_len(bytes, int_len(bytes)),
        Kind::Word => word_len(bytes),
        Kind::Str => string_len(bytes),
        Kind::CStr => cstring_len(bytes),
        Kind::Global => marked_len(b'@', bytes),
        Kind::Local => marked_len(b'%', bytes),
        Kind::Meta => marked_len(b'!', bytes),
        Kind::Attr => attribute_len(bytes),
        Kind::Equal => spelled_len(b"=", bytes),
        Kind::Comma => spelled_len(b",", bytes),
        Kind::Star => spelled_len(b"*", bytes),
        Kind::OpenRound => spelled_len(b"(", bytes),
        Kind::CloseRound => spelled_len(b")", bytes),
        Kind::OpenSquare => spelled_len(b"[", bytes),
        Kind::CloseSquare => spelled_len(b"]", bytes),
        Kind::OpenCurly => spelled_len(b"{", bytes),
        Kind::CloseCurly => spelled_len(b"}", bytes),
        Kind::OpenPacked => spelled_len(b"<{", bytes),
        Kind::ClosePacked => spelled_len(b"}>", bytes),
        Kind::Less => spelled_len(b"<", bytes),
        Kind::Greater => spelled_len(b">", bytes),
        Kind::Bar => spelled_len(b"|", bytes),
        Kind::Bang => spelled_len(b"!", bytes),
        Kind::Ellipsis => spelled_len(b"...", bytes),
    }
}
