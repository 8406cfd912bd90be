//! The class of a word (LangRef, "Identifiers").
ghost use Rattle.std.specs.Prelude.{◌≡◌, map};
ghost use Rattle.std.specs.Str.{bytes_eq};
ghost use Rattle.ir_words.specs.Words.{beginning, is_int_type, looked_up, word_class, words};

use crate::class::Class;
use crate::table::{
    IN_A, IN_B, IN_C, IN_D, IN_E, IN_F, IN_G, IN_H, IN_I, IN_L, IN_M, IN_N, IN_O, IN_P, IN_R, IN_S,
    IN_T, IN_U, IN_V, IN_W, IN_X, IN_Z,
};
use crate::width::{is_digits, is_width};
use ir_lex::{byte_at, rest_of};

/// Whether a word is a known one.
#[tactic(auto, using(crate::proofs::Tables::other_length))]
fn is_word(known: &[u8], word: &[u8]) -> bool
    ensures { result ≡ bytes_eq known.now word.now }
{
    known.len() == word.len() && known == word
}

/// The class of a word in a table, or another where the table doesn't have it.
pub(crate) fn looked_up(mut table: &[(&[u8], Class)], word: &[u8], other: Class) -> Class
    ensures { result ≡ looked_up (map (λ k. (k.0.now, k.1)) table.entry.now) word.now other }
{
    while let [entry, rest @ ..] = table {
        if is_word(entry.0, word) {
            return entry.1;
        }
        table = rest;
    }
    other
}

/// The words that begin with a byte, and their classes.
fn beginning(byte: u8) -> &'static [(&'static [u8], Class)]
    ensures { map (λ k. (k.0.now, k.1)) result.now ≡ beginning byte words }
{
    match byte {
        b'a' => IN_A,
        b'b' => IN_B,
        b'c' => IN_C,
        b'd' => IN_D,
        b'e' => IN_E,
        b'f' => IN_F,
        b'g' => IN_G,
        b'h' => IN_H,
        b'i' => IN_I,
        b'l' => IN_L,
        b'm' => IN_M,
        b'n' => IN_N,
        b'o' => IN_O,
        b'p' => IN_P,
        b'r' => IN_R,
        b's' => IN_S,
        b't' => IN_T,
        b'u' => IN_U,
        b'v' => IN_V,
        b'w' => IN_W,
        b'x' => IN_X,
        b'z' => IN_Z,
        _ => &[],
    }
}

/// The class of a word that is no integer type.
fn listed(word: &[u8]) -> Class
    ensures { result ≡ looked_up words word.now Class.Attribute }
{
    looked_up(beginning(byte_at(word, 0)), word, Class::Attribute)
}

/// Whether a word is `i` and one or more digits.
#[tactic(auto, unfolding(crate::specs::Words::is_int_type))]
fn is_int_type(word: &[u8]) -> bool
    ensures { result ≡ is_int_type word.now }
{
    byte_at(word, 0) == b'i' && is_digits(rest_of(word, 1))
}

/// The class of a word.
#[tactic(auto, unfolding(crate::specs::Words::word_class))]
pub(crate) fn word_class(word: &[u8]) -> Class
    ensures { result ≡ word_class word.now }
{
    if is_int_type(word) {
        if is_width(rest_of(word, 1)) {
            Class::IntType
        } else {
            Class::Unsupported
        }
    } else if byte_at(word, 0) == b'$' {
        Class::Unsupported
    } else {
        listed(word)
    }
}
