//! Lists of tokens, and why a text has none.
ghost use Rattle.std.specs.Prelude.{◌≡◌};

use crate::kind::Token;
use std::marker::Model;

/// Why a text has no tokens.
#[derive(Clone, Copy, PartialEq, Eq)]
pub enum LexEnd {
    /// At some place no token begins, or a name that holds byte 0, or an integer literal outside
    /// -2^127 to 2^128 - 1.
    Lex {
        /// The line of the first such place, counted from 1.
        line: u32,
    },
    /// Memory ran out.
    NoMemory,
}

/// The tokens of a text, in order. Contracts see a list.
#[derive(Drop)]
pub struct Tokens {
    tokens: Vec<Token>,
}

impl Model for Tokens {
    ghost use Rattle.std.specs.Prelude.{List};
    ghost use Rattle.std.specs.Coded.{coded_list};
    ghost use Rattle.ir_lex.specs.declared.kind.Token.{Token};
    ghost use Rattle.ir_lex.specs.contracts.kind.Token as token;

    ghost Value = { List Token };

    ghost coded = { coded_list token.the_row.coded };

    ghost view = { λ t. t.tokens.items };
}

impl Tokens {
    /// These tokens, in their order.
    pub(crate) fn from_vec(tokens: Vec<Token>) -> Tokens
        ensures { result ≡ tokens.items }
    {
        Tokens { tokens }
    }

    /// The tokens in order.
    pub fn as_slice(&self) -> &[Token]
        ensures { result.now ≡ self.now }
    {
        self.tokens.as_slice()
    }
}
