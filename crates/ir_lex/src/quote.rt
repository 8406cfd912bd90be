//! Tokens in quotes.
ghost use Rattle.std.specs.Prelude.{◌≡◌};
ghost use Rattle.ir_lex.specs.Quotes.{is_quoted};

use crate::slice::byte_at;

/// Whether the token with these bytes is written in quotes, with at most one byte before them. Only
/// such a token may hold a line feed, a backslash or byte 0.
pub(crate) fn is_quoted(text: &[u8]) -> bool
    ensures { result ≡ is_quoted text.now }
{
    byte_at(text, 0) == b'"' || byte_at(text, 1) == b'"'
}
