//! Names of symbols in their one spelling.
ghost use Rattle.std.specs.Prelude.{◌≡◌, ◌<◌, ◌++◌, ℕ, List, [], ◌∷◌, ◌↔◌, false, IfOk, IsTrue, MatchOption};
ghost use Rattle.std.specs.List.{flat_map, list_all};
ghost use Rattle.rv_isa.specs.Symbol as symbol;
ghost use Rattle.rv_isa.specs.Symbol.{AreBytes, IsLabel, IsSymbol};
ghost use Rattle.asm_inst.specs.Readings.{Reads};
ghost use Rattle.asm_line.specs.Names.{is_printable, octal};

use asm_inst::{after, cut_at, is_number};
use rv_isa::SymName;
use std::alloc::{AllocError, Global};

/// Whether a name that has the byte may stand without quotes.
fn is_symbol_byte(byte: u8) -> bool
    ensures { result ≡ symbol.is_symbol_byte byte }
{
    byte.is_ascii_alphanumeric() || byte == b'_' || byte == b'.' || byte == b'$'
}

/// Whether a name of these bytes may stand without quotes, if it does not begin with a digit.
fn are_symbol_bytes(bytes: &[u8]) -> bool
    ensures { result ≡ list_all symbol.is_symbol_byte bytes.now }
{
    bytes.iter().all(|byte| is_symbol_byte(*byte))
}

/// Whether the bytes may stand as a name without quotes: letters, digits, `_`, `.` and `$`, the first no digit.
pub fn is_bare(bytes: &[u8]) -> bool
    ensures { result ≡ symbol.is_bare bytes.now }
{
    match bytes {
        [first, rest @ ..] => {
            is_symbol_byte(*first) & !first.is_ascii_digit() & are_symbol_bytes(rest)
        }
        [] => false,
    }
}

/// Whether the byte stands as itself between quotes, other than a quote and a backslash.
fn is_printable_byte(byte: u8) -> bool
    ensures { result ≡ is_printable byte }
{
    (b' '..=b'~').contains(&byte)
}

/// The byte that three octal digits spell, and what comes after them. A printable byte is not
/// spelled so.
fn read_octal(bytes: &[u8]) -> Option<(u8, &[u8])>
    ensures { MatchOption result
        ((b : ℕ) (rest : List ℕ) → b < 256 → is_printable b ≡ false → bytes.now ≡ octal b ++ rest → ⊥)
        (λ read. (is_printable read.0 ≡ false) × (bytes.now ≡ octal read.0 ++ read.1.now)) }
{
    let [
        high @ b'0'..=b'3',
        middle @ b'0'..=b'7',
        low @ b'0'..=b'7',
        rest @ ..,
    ] = bytes
    else {
        return None;
    };
    let byte = (*high - b'0') * 64 + (*middle - b'0') * 8 + (*low - b'0');
    if is_printable_byte(byte) {
        None
    } else {
        Some((byte, rest))
    }
}

/// The byte that a backslash and the first bytes spell, and what comes after it.
fn read_escape(bytes: &[u8]) -> Option<(u8, &[u8])>
    ensures { MatchOption result
        ((b : ℕ) (rest : List ℕ) → b < 256 → 92 ∷ bytes.now ≡ symbol.escaped b ++ rest → ⊥)
        (λ read. 92 ∷ bytes.now ≡ symbol.escaped read.0 ++ read.1.now) }
{
    match bytes {
        [b'"', rest @ ..] => Some((b'"', rest)),
        [b'\\', rest @ ..] => Some((b'\\', rest)),
        _ => read_octal(bytes),
    }
}

/// The byte that the first bytes spell, and what comes after it.
fn read_byte(bytes: &[u8]) -> Option<(u8, &[u8])>
    ensures { MatchOption result
        ((b : ℕ) (rest : List ℕ) → b < 256 → bytes.now ≡ symbol.escaped b ++ rest → ⊥)
        (λ read. (read.0 < 256) × (bytes.now ≡ symbol.escaped read.0 ++ read.1.now)) }
{
    match bytes {
        [b'\\', rest @ ..] => read_escape(rest),
        [b'"', ..] => None,
        [byte, rest @ ..] if is_printable_byte(*byte) => Some((*byte, rest)),
        _ => None,
    }
}

/// The name that escapes spell, up to their end.
fn read_escaped(alloc: Global, inner: &[u8]) -> Result<Option<Vec<u8>>, AllocError>
    ensures { IfOk result (λ read. MatchOption read
        ((n : List ℕ) → AreBytes n → inner.now ≡ flat_map symbol.escaped n → ⊥)
        (λ name. AreBytes name.items × (inner.now ≡ flat_map symbol.escaped name.items))) }
{
    let mut name = Vec::new(alloc);
    let mut rest = inner;
    while !rest.is_empty() {
        let Some((byte, after)) = read_byte(rest) else {
            return Ok(None);
        };
        name.push(byte)?;
        rest = after;
    }
    Ok(Some(name))
}

/// What stands between quotes.
fn unquoted(bytes: &[u8]) -> Option<&[u8]>
    ensures { MatchOption result
        ((inner : List ℕ) → bytes.now ≡ 34 ∷ (inner ++ 34 ∷ []) → ⊥)
        (λ inner. bytes.now ≡ 34 ∷ (inner.now ++ 34 ∷ [])) }
{
    match bytes {
        [b'"', inner @ .., b'"'] => Some(inner),
        _ => None,
    }
}

/// The name that the bytes spell.
fn read_name(alloc: Global, bytes: &[u8]) -> Result<Option<Vec<u8>>, AllocError>
    ensures { IfOk result (λ read. MatchOption read
        ((n : List ℕ) → AreBytes n → bytes.now ≡ symbol.spelled n → ⊥)
        (λ name. AreBytes name.items × (bytes.now ≡ symbol.spelled name.items))) }
{
    if is_bare(bytes) {
        return Ok(Some(Vec::from_slice(alloc, bytes)?));
    }
    let Some(inner) = unquoted(bytes) else {
        return Ok(None);
    };
    let Some(name) = read_escaped(alloc, inner)? else {
        return Ok(None);
    };
    if is_bare(name.as_slice()) {
        Ok(None)
    } else {
        Ok(Some(name))
    }
}

/// Whether the name is `.LBBf_b` for two numbers, as the labels within functions are.
pub fn is_label(name: &[u8]) -> bool
    ensures { IsTrue result ↔ IsLabel name.now }
{
    let Some(numbers) = after(name, b".LBB") else {
        return false;
    };
    let Some((function, block)) = cut_at(numbers, b'_') else {
        return false;
    };
    is_number(function) & is_number(block)
}

/// The symbol that the bytes spell.
pub fn read_symbol(alloc: Global, bytes: &[u8]) -> Result<Option<SymName>, AllocError>
    ensures { IfOk result (λ read. Reads (λ n. IsSymbol n × (bytes.now ≡ symbol.spelled n)) read) }
{
    let Some(name) = read_name(alloc, bytes)? else {
        return Ok(None);
    };
    if is_label(name.as_slice()) {
        Ok(None)
    } else {
        Ok(Some(SymName::from_vec(name)))
    }
}
