//! The longest token at the start.
ghost use Rattle.std.specs.Prelude.{◌≡◌, ◌≤◌, [], ◌∷◌, cond, length, nat_lt, slice_index, true};
ghost use Rattle.ir_lex.specs.Splitting.{longest_match, longer, longest_of};
ghost use Rattle.ir_lex.specs.Starts.{begins_word, marks, none};

use crate::class::{Class, run_len};
use crate::kind::Kind;
use crate::length::{int_len, label_len, len_of, real_len};
use crate::slice::{byte_at, rest_of};
use crate::start::{Start, start_of};

/// A token at the start of the bytes.
#[derive(Clone, Copy)]
pub(crate) struct LongestMatch {
    /// Its kind.
    pub kind: Kind,
    /// How many bytes it has; 0 stands for no token.
    pub len: usize,
}

/// No token.
const NONE: LongestMatch = LongestMatch {
    kind: Kind::Label,
    len: 0,
};

/// The best so far, or a token of this kind and length where it is longer.
fn better(best: LongestMatch, kind: Kind, len: usize) -> LongestMatch
    ensures { result ≡ cond (nat_lt best.len len) (record { kind = kind; len = len }) best }
{
    if best.len < len {
        LongestMatch { kind, len }
    } else {
        best
    }
}

/// The best so far, or the token of a kind where it is longer.
#[tactic(auto, unfolding(crate::specs::Splitting::longer))]
fn longer(best: LongestMatch, kind: Kind, bytes: &[u8]) -> LongestMatch
    requires { best.len ≤ length bytes.now }
    ensures value { result ≡ longer best kind bytes.now }
    ensures within { result.len ≤ length bytes.now }
{
    better(best, kind, len_of(kind, bytes))
}

/// A label or a word, where a word begins.
#[tactic(auto, using(crate::proofs::WordMatches::label_match, crate::proofs::WordMatches::word_match))]
fn word_match(bytes: &[u8]) -> LongestMatch
    requires { begins_word (slice_index bytes.now 0) ≡ true }
    ensures value { result ≡ longest_of (Kind.Label ∷ Kind.Word ∷ []) none bytes.now }
    ensures within { result.len ≤ length bytes.now }
{
    let len = run_len(bytes, Class::Name);
    if byte_at(bytes, len) == b':' {
        LongestMatch {
            kind: Kind::Label,
            len: len + 1,
        }
    } else {
        LongestMatch {
            kind: Kind::Word,
            len,
        }
    }
}

/// A label or a number, whichever is longest.
#[tactic(auto, unfolding(crate::specs::Splitting::longer, crate::specs::Splitting::longest_of, crate::specs::Lengths::len_of))]
fn number_match(bytes: &[u8]) -> LongestMatch
    ensures value { result ≡ longest_of (Kind.Label ∷ Kind.Int ∷ Kind.Real ∷ []) none bytes.now }
    ensures within { result.len ≤ length bytes.now }
{
    let whole = int_len(bytes);
    let label = better(NONE, Kind::Label, label_len(bytes));
    let int = better(label, Kind::Int, whole);
    better(int, Kind::Real, real_len(bytes, whole))
}

/// A name of this kind after its mark.
#[tactic(auto, unfolding(crate::specs::Splitting::longest_of), using(crate::proofs::WordMatches::bare_name, crate::proofs::WordMatches::no_name))]
fn name_match(kind: Kind, bytes: &[u8]) -> LongestMatch
    requires { marks kind (slice_index bytes.now 0) ≡ true }
    ensures value { result ≡ longest_of (kind ∷ []) none bytes.now }
    ensures within { result.len ≤ length bytes.now }
{
    if byte_at(bytes, 1) == b'"' {
        return longer(NONE, kind, bytes);
    }
    match run_len(rest_of(bytes, 1), Class::Name) {
        0 => NONE,
        len => LongestMatch { kind, len: 1 + len },
    }
}

/// The longest token at the start, of length 0 where none begins.
#[tactic(auto, using(crate::proofs::Starts::word_start, crate::proofs::Starts::c_word_start, crate::proofs::Starts::name_start))]
pub(crate) fn longest_match(bytes: &[u8]) -> LongestMatch
    ensures value { result ≡ longest_match bytes.now }
    ensures within { result.len ≤ length bytes.now }
{
    match start_of(byte_at(bytes, 0)) {
        Start::Word => word_match(bytes),
        Start::CWord => longer(word_match(bytes), Kind::CStr, bytes),
        Start::Dot => {
            let word = longer(longer(NONE, Kind::Label, bytes), Kind::Word, bytes);
            longer(word, Kind::Ellipsis, bytes)
        }
        Start::Number => number_match(bytes),
        Start::Single(kind) => LongestMatch { kind, len: 1 },
        Start::Name(kind) => name_match(kind, bytes),
        Start::Only(kind) => longer(NONE, kind, bytes),
        Start::Pair(first, second) => longer(longer(NONE, first, bytes), second, bytes),
        Start::Nothing => NONE,
    }
}
