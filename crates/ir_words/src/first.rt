//! The first of the tokens of a text.
ghost use Rattle.std.specs.Prelude.{◌≡◌, ◌+◌, ◌≤◌, drop, length, take};
ghost use Rattle.ir_words.specs.Classes.{first, head_line, head_text};
ghost use Rattle.ir_words.specs.Lexemes.{lexemes};
ghost use Rattle.ir_words.specs.Spans.{LieIn};

use crate::class::Class;
use crate::lexeme::class_in;
use ir_lex::Token;

/// The bytes of a token.
fn text_of<'t>(text: &'t [u8], token: Token) -> &'t [u8]
    requires { token.start + token.len ≤ length text.now }
    ensures { result.now ≡ take token.len (drop token.start text.now) }
{
    let start = token.start as usize;
    &text[start..start + token.len as usize]
}

/// The class of the first token.
pub(crate) fn first_class(text: &[u8], tokens: &[Token]) -> Class
    requires { LieIn text.now tokens.now }
    ensures { result ≡ first (lexemes text.now tokens.now) }
{
    match tokens {
        [] => Class::End,
        [token, ..] => class_in(token.kind, text_of(text, *token)),
    }
}

/// The bytes of the first token.
pub(crate) fn first_text<'t>(text: &'t [u8], tokens: &[Token]) -> &'t [u8]
    requires { LieIn text.now tokens.now }
    ensures { result.now ≡ head_text (lexemes text.now tokens.now) }
{
    match tokens {
        [] => &[],
        [token, ..] => text_of(text, *token),
    }
}

/// The line of the first token, or 0 where there is none.
pub(crate) fn first_line(text: &[u8], tokens: &[Token]) -> u32
    ensures { result ≡ head_line (lexemes text.now tokens.now) }
{
    match tokens {
        [] => 0,
        [token, ..] => token.line,
    }
}

/// The tokens after the first.
pub(crate) fn after_first<'t>(text: &[u8], tokens: &'t [Token]) -> &'t [Token]
    requires { LieIn text.now tokens.now }
    ensures value { lexemes text.now result.now ≡ drop 1 (lexemes text.now tokens.now) }
    ensures within { LieIn text.now result.now }
{
    match tokens {
        [] => tokens,
        [_, rest @ ..] => rest,
    }
}
