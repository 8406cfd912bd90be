//! What stands at the start of a text: a gap or a token.
ghost use Rattle.std.specs.Prelude.{◌≡◌, ◌≤◌, length};
ghost use Rattle.ir_lex.specs.Spelling.{Spells};
ghost use Rattle.ir_lex.specs.Splitting.{HasBytes, IsLongest, begun, longest_match, gap_len, is_refused, piece_len, piece_of};

use crate::class::{Class, run_len};
use crate::escape::holds_zero;
use crate::kind::Kind;
use crate::literal::is_in_range;
use crate::longest_match::{LongestMatch, longest_match};
use crate::quote::is_quoted;
use crate::slice::byte_at;

/// What stands at the start of a text.
#[derive(Clone, Copy)]
pub(crate) enum Piece {
    /// This many bytes part tokens.
    Gap(usize),
    /// A token begins.
    Begins(LongestMatch),
    /// No token begins, or one that is refused.
    Bad,
}

/// How many bytes at the start part tokens.
#[tactic(auto, unfolding(crate::specs::Splitting::gap_len))]
fn gap_len(bytes: &[u8]) -> usize
    ensures value { result ≡ gap_len bytes.now }
    ensures within { result ≤ length bytes.now }
{
    match byte_at(bytes, 0) {
        b' ' | b'\t' | b'\r' | b'\n' => 1,
        b';' => run_len(bytes, Class::Comment),
        _ => 0,
    }
}

/// Whether a token is refused: an integer out of range, or a name that holds byte 0.
#[tactic(auto, unfolding(crate::specs::Splitting::is_refused), using(crate::proofs::Plain::no_zero))]
fn is_refused(kind: Kind, text: &[u8]) -> bool
    requires { Spells kind text.now }
    ensures { result ≡ is_refused kind text.now }
{
    match kind {
        Kind::Int => !is_in_range(text),
        Kind::Global | Kind::Local | Kind::Label => is_quoted(text) && holds_zero(text),
        _ => false,
    }
}

/// A token, unless there is none or it is refused.
#[tactic(auto, unfolding(crate::specs::Splitting::begun), using(crate::proofs::Spans::longest_spelled))]
fn begun(found: LongestMatch, bytes: &[u8]) -> Piece
    requires inside { found.len ≤ length bytes.now }
    requires longest { found ≡ longest_match bytes.now }
    ensures value { result ≡ begun found bytes.now }
    ensures longest { IsLongest result bytes.now }
    ensures within { piece_len result ≤ length bytes.now }
    ensures some { HasBytes result }
{
    if found.len == 0 || is_refused(found.kind, &bytes[..found.len]) {
        Piece::Bad
    } else {
        Piece::Begins(found)
    }
}

/// What stands at the start.
#[tactic(auto, unfolding(crate::specs::Splitting::piece_of))]
pub(crate) fn piece_of(bytes: &[u8]) -> Piece
    ensures value { result ≡ piece_of bytes.now }
    ensures longest { IsLongest result bytes.now }
    ensures within { piece_len result ≤ length bytes.now }
    ensures some { HasBytes result }
{
    match gap_len(bytes) {
        0 => begun(longest_match(bytes), bytes),
        len => Piece::Gap(len),
    }
}
