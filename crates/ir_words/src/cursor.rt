//! A cursor over the tokens of a text.
ghost use Rattle.std.specs.Prelude.{◌≡◌, ◌==◌, drop, length};
ghost use Rattle.ir_lex.specs.Splitting.{AreSpans};
ghost use Rattle.ir_words.specs.Classes.{first, head_line, head_text};
ghost use Rattle.ir_words.specs.Lexemes.{lexemes};

use crate::class::Class;
use crate::first::{after_first, first_class, first_line, first_text};
use ir_lex::{Token, Tokens};
use std::marker::Model;

/// The tokens of a text that are still to be read. Contracts see the list of them, each with its
/// bytes.
#[derive(Drop)]
pub struct Cursor<'t> {
    text: &'t [u8],
    tokens: &'t [Token],
    // what the first token is: readers ask for it many times before they skip it
    class: Class,
}

impl<'t> Model for Cursor<'t> {
    ghost use Rattle.std.specs.Prelude.{◌≡◌, List};
    ghost use Rattle.ir_words.specs.Classes.{first};
    ghost use Rattle.ir_words.specs.Lexemes.{Lexeme, lexemes};
    ghost use Rattle.ir_words.specs.Spans.{LieIn};

    ghost Value = { List Lexeme };

    ghost view = { λ r. lexemes r.text.now r.tokens.now };

    ghost invariant = { λ r. LieIn r.text.now r.tokens.now × (r.class ≡ first (lexemes r.text.now r.tokens.now)) };
}

impl<'t> Cursor<'t> {
    /// All tokens of a text.
    #[tactic(auto, using(crate::proofs::Inside::spans_lie))]
    pub fn of(text: &'t [u8], tokens: &'t Tokens) -> Cursor<'t>
        requires { AreSpans 0 (length text.now) tokens.now }
        ensures { result ≡ lexemes text.now tokens.now }
    {
        let tokens = tokens.as_slice();
        Cursor {
            text,
            tokens,
            class: first_class(text, tokens),
        }
    }

    /// What the first token is, or `End` where there is none.
    pub fn first(&self) -> Class
        ensures { result ≡ first self.now }
    {
        self.class
    }

    /// How many tokens there are.
    #[tactic(auto, using(crate::proofs::Inside::length_lexemes))]
    pub fn len(&self) -> usize
        ensures { result ≡ length self.now }
    {
        self.tokens.len()
    }

    /// Whether there is no token.
    #[tactic(auto, using(crate::proofs::Inside::length_lexemes))]
    pub fn is_empty(&self) -> bool
        ensures { result ≡ (length self.now == 0) }
    {
        self.tokens.is_empty()
    }

    /// The bytes of the first token, or none where there is no token.
    pub fn text(&self) -> &'t [u8]
        ensures { result.now ≡ head_text self.now }
    {
        first_text(self.text, self.tokens)
    }

    /// The line of the first token, counted from 1, or 0 where there is none.
    pub fn line(&self) -> u32
        ensures { result ≡ head_line self.now }
    {
        first_line(self.text, self.tokens)
    }

    /// The tokens after the first; none where there is none.
    pub fn skip(self) -> Cursor<'t>
        ensures { result ≡ drop 1 self.entry }
    {
        let tokens = after_first(self.text, self.tokens);
        Cursor {
            text: self.text,
            tokens,
            class: first_class(self.text, tokens),
        }
    }

    /// The same tokens.
    pub fn copy(&self) -> Cursor<'t>
        ensures { result ≡ self.now }
    {
        Cursor {
            text: self.text,
            tokens: self.tokens,
            class: self.class,
        }
    }
}
