//! The tokens of textual LLVM IR (LLVM Language Reference Manual, "Identifiers", "Strings" and
//! "Simple Constants").
//!
//! A text is tokens, separated by blanks, tabs, carriage returns, line feeds and comments. A comment
//! goes from `;` to the end of its line. At each place the longest token is taken.
#![tactic(auto)]

mod class;
mod escape;
mod feed;
mod kind;
mod length;
mod lexer;
mod list;
mod literal;
mod longest_match;
mod piece;
mod quote;
mod slice;
mod start;

pub use escape::{escape_byte, escape_len};
pub use kind::{Kind, Token};
pub use lexer::{texts_have_one_splitting, tokens};
pub use list::{LexEnd, Tokens};
pub use literal::is_in_range;
pub use slice::{byte_at, prefix_of, rest_of};
