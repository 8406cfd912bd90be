//! A text as its tokens.
ghost use Rattle.std.specs.Prelude.{◌≡◌, ◌≤◌, ◌↔◌, ℕ, All, Err, IfErr, IfOk, List, Ok, length};
ghost use Rattle.ir_lex.specs.BadPlaces.{AreTokens, IsAccepted, IsBadPlace, Refuses};
ghost use Rattle.ir_lex.specs.Separated.{AreSeparated};
ghost use Rattle.ir_lex.specs.Splitting.{Answers, AreSpans, IsTokenOf, tokens_of};

use crate::feed::feeds_of;
use crate::kind::Token;
use crate::list::{LexEnd, Tokens};
use crate::piece::{Piece, piece_of};
use crate::slice::tail_of;
use std::alloc::Global;

/// The tokens of a text of at most 16,777,216 bytes.
///
/// # Errors
///
/// `Lex` with the line of the first place where no token begins, or a name that holds byte 0 after
/// its escapes, or an integer literal outside -2^127 to 2^128 - 1. `NoMemory` where memory ran out.
pub fn tokens(alloc: Global, bytes: &[u8]) -> Result<Tokens, LexEnd>
    requires { length bytes.now ≤ 16777216 }
    ensures value { Answers result (tokens_of bytes.now) }
    ensures spans { IfOk result (AreSpans 0 (length bytes.now)) }
    ensures each { IfOk result (All (IsTokenOf bytes.now)) }
    ensures accepted { IfOk result (All (IsAccepted bytes.now)) }
    ensures separated { IfOk result (AreSeparated bytes.now 0 (length bytes.now)) }
    ensures lex { IfErr result (Refuses bytes.now) }
{
    let mut tokens = Vec::new(alloc);
    let mut at = 0;
    let mut line: u32 = 1;
    while at < bytes.len() {
        if bytes[at] == b' ' {
            at += 1;
            continue;
        }
        let rest = tail_of(bytes, at);
        let piece = piece_of(rest);
        let len = match piece {
            Piece::Gap(len) => len,
            Piece::Begins(found) => {
                let token = Token {
                    kind: found.kind,
                    start: at as u32,
                    len: found.len as u32,
                    line,
                };
                match tokens.push(token) {
                    Ok(()) => found.len,
                    Err(_) => return Err(LexEnd::NoMemory),
                }
            }
            Piece::Bad => return Err(LexEnd::Lex { line }),
        };
        line += feeds_of(piece, rest);
        at += len;
    }
    Ok(Tokens::from_vec(tokens))
}

/// A text has one list of tokens, or else one line at which it is refused, and is split so.
pub fn texts_have_one_splitting()
    ensures tokens { (bytes : List ℕ) (tokens : List Token) → (tokens_of bytes ≡ Ok tokens) ↔ AreTokens bytes 0 (length bytes) tokens }
    ensures refused { (bytes : List ℕ) (line : ℕ) → (tokens_of bytes ≡ Err line) ↔ IsBadPlace bytes line }
{}
