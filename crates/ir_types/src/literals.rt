//! Integer literals as tokens write them (LangRef, "Simple Constants").
ghost use Rattle.std.specs.Prelude.{◌≡◌};
ghost use Rattle.ir_types.specs.Names.{literal_of};

use crate::digits::decimal;
use ir_lex::{byte_at, is_in_range, rest_of};
use ir_syntax::Literal;

/// The literal that these bytes write, or none where it is not from -2^127 to 2^128 - 1.
#[tactic(auto, unfolding(crate::specs::Names::literal_of, ir_lex::specs::Literals::is_in_range, ir_lex::specs::Lengths::minus_len))]
pub fn literal_of(text: &[u8]) -> Option<Literal>
    ensures { result ≡ literal_of text.now }
{
    if !is_in_range(text) {
        return None;
    }
    let negative = byte_at(text, 0) == b'-';
    let digits = if negative { rest_of(text, 1) } else { text };
    Some(Literal {
        negative,
        magnitude: decimal(digits),
    })
}
