//! Which kinds of tokens begin with a byte.
ghost use Rattle.std.specs.Prelude.{◌≡◌};
ghost use Rattle.ir_lex.specs.Starts.{start_of};

use crate::kind::Kind;

/// What may begin with a byte.
#[derive(Clone, Copy)]
pub(crate) enum Start {
    /// A label or a word.
    Word,
    /// A label, a word or `c"..."`.
    CWord,
    /// A label, a word or `...`.
    Dot,
    /// A label or a number.
    Number,
    /// A token of this kind, which has one byte.
    Single(Kind),
    /// A name of this kind, after its mark.
    Name(Kind),
    /// A token of this kind.
    Only(Kind),
    /// A token of one of these kinds.
    Pair(Kind, Kind),
    /// No token.
    Nothing,
}

/// What may begin with a byte.
pub(crate) fn start_of(byte: u8) -> Start
    ensures { result ≡ start_of byte }
{
    match byte {
        b'c' => Start::CWord,
        b'.' => Start::Dot,
        b'a'..=b'z' | b'A'..=b'Z' | b'_' | b'$' => Start::Word,
        b'0'..=b'9' | b'-' => Start::Number,
        b'%' => Start::Name(Kind::Local),
        b',' => Start::Single(Kind::Comma),
        b'=' => Start::Single(Kind::Equal),
        b'@' => Start::Name(Kind::Global),
        b'(' => Start::Single(Kind::OpenRound),
        b')' => Start::Single(Kind::CloseRound),
        b'[' => Start::Single(Kind::OpenSquare),
        b']' => Start::Single(Kind::CloseSquare),
        b'{' => Start::Single(Kind::OpenCurly),
        b'*' => Start::Single(Kind::Star),
        b'>' => Start::Single(Kind::Greater),
        b'|' => Start::Single(Kind::Bar),
        b'#' => Start::Only(Kind::Attr),
        b'"' => Start::Pair(Kind::Label, Kind::Str),
        b'!' => Start::Pair(Kind::Meta, Kind::Bang),
        b'<' => Start::Pair(Kind::OpenPacked, Kind::Less),
        b'}' => Start::Pair(Kind::CloseCurly, Kind::ClosePacked),
        _ => Start::Nothing,
    }
}
