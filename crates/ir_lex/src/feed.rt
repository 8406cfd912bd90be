//! Line feeds, counted where they can stand.
ghost use Rattle.std.specs.Prelude.{◌≡◌, ◌≤◌, ◌<◌, length, take};
ghost use Rattle.ir_lex.specs.Splitting.{HasBytes, IsLongest, longest_match, line_feeds, piece_len};

use crate::longest_match::LongestMatch;
use crate::piece::Piece;
use crate::quote::is_quoted;
use crate::slice::byte_at;

/// How many line feeds there are.
fn line_feeds(bytes: &[u8]) -> u32
    requires { length bytes.now ≤ 16777216 }
    ensures value { result ≡ line_feeds bytes.now }
    ensures within { result ≤ length bytes.now }
{
    let mut count: u32 = 0;
    for byte in bytes {
        if *byte == b'\n' {
            count += 1;
        }
    }
    count
}

/// How many line feeds the token at the start has.

fn token_feeds(found: LongestMatch, bytes: &[u8]) -> u32
    requires small { length bytes.now ≤ 16777216 }
    requires inside { found.len ≤ length bytes.now }
    requires some { 0 < found.len }
    requires longest { found ≡ longest_match bytes.now }
    ensures value { result ≡ line_feeds (take found.len bytes.now) }
    ensures within { result ≤ found.len }
{
    let text = &bytes[..found.len];
    if is_quoted(text) { line_feeds(text) } else { 0 }
}

/// How many line feeds stand in a gap of so many bytes at the start.
#[tactic(auto, using(crate::proofs::Plain::first_feed))]
fn gap_feeds(len: usize, bytes: &[u8]) -> u32
    requires small { length bytes.now ≤ 16777216 }
    requires inside { len ≤ length bytes.now }
    ensures value { result ≡ line_feeds (take len bytes.now) }
    ensures within { result ≤ len }
{
    if len > 1 {
        line_feeds(&bytes[..len])
    } else if len == 1 && byte_at(bytes, 0) == b'\n' {
        1
    } else {
        0
    }
}

/// How many line feeds stand in what is at the start.
pub(crate) fn feeds_of(piece: Piece, bytes: &[u8]) -> u32
    requires small { length bytes.now ≤ 16777216 }
    requires inside { piece_len piece ≤ length bytes.now }
    requires some { HasBytes piece }
    requires longest { IsLongest piece bytes.now }
    ensures value { result ≡ line_feeds (take (piece_len piece) bytes.now) }
    ensures within { result ≤ piece_len piece }
{
    match piece {
        Piece::Gap(len) => gap_feeds(len, bytes),
        Piece::Begins(found) => token_feeds(found, bytes),
        Piece::Bad => 0,
    }
}
