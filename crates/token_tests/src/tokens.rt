//! Texts, and the tokens that they have.
use ir_lex::{Kind, LexEnd, Token, tokens};
use std::alloc::Global;

/// Texts of one token each, and its kind.
const SINGLE: &[(&[u8], Kind)] = &[
    (b"entry:", Kind::Label),
    (b"\"a b\":", Kind::Label),
    (b"...:", Kind::Label),
    (b"-5:", Kind::Label),
    (b"1.5:", Kind::Label),
    (b"c:", Kind::Label),
    (b"-12", Kind::Int),
    (b"-170141183460469231731687303715884105728", Kind::Int),
    (b"340282366920938463463374607431768211455", Kind::Int),
    (b"-1.5e-3", Kind::Real),
    (b"0xK4000", Kind::Real),
    (b"....", Kind::Word),
    (b".text", Kind::Word),
    (b"call", Kind::Word),
    (b"$x", Kind::Word),
    (b"...", Kind::Ellipsis),
    (b"\"a:\"", Kind::Str),
    (b"c\"a\\00\"", Kind::CStr),
    (b"@\"a b\"", Kind::Global),
    (b"%-1", Kind::Local),
    (b"!\"a\\00\"", Kind::Meta),
    (b"!0", Kind::Meta),
    (b"!", Kind::Bang),
    (b"#07", Kind::Attr),
    (b"<{", Kind::OpenPacked),
    (b"}>", Kind::ClosePacked),
    (b"}", Kind::CloseCurly),
];

/// Texts, and the line at which each is refused; 0: it isn't.
const REFUSED: &[(&[u8], u32)] = &[
    (b"ret\n\"a", 2),
    (b"\"a\n\" ^", 2),
    (b"; a\n\n  %", 3),
    (b"\n\n@\"a\\00\"", 3),
    (b"\"\\00\":", 1),
    (b"@\"a\\\\00\"", 0),
    (b"-170141183460469231731687303715884105729", 1),
    (b"340282366920938463463374607431768211456", 1),
    (b"!\"\\00\"", 0),
];

/// The line at which a text is refused, or 0.
fn refused_line(alloc: Global, text: &[u8]) -> u32 {
    if text.len() > 16777216 {
        return 0;
    }
    match tokens(alloc, text) {
        Err(LexEnd::Lex { line }) => line,
        _ => 0,
    }
}

/// Whether these are one token of a kind and of so many bytes.
fn is_whole(tokens: &[Token], len: usize, kind: Kind) -> bool {
    match tokens {
        [token] => (token.kind == kind) & (token.start == 0) & (token.len as usize == len),
        _ => false,
    }
}

/// Whether a text is one token of a kind.
fn is_one(alloc: Global, text: &[u8], kind: Kind) -> bool {
    if text.len() > 16777216 {
        return false;
    }
    match tokens(alloc, text) {
        Ok(tokens) => is_whole(tokens.as_slice(), text.len(), kind),
        Err(_) => false,
    }
}

/// Whether a text has these tokens.
fn has_tokens(alloc: Global, text: &[u8], wanted: &[Token]) -> bool {
    if text.len() > 16777216 {
        return false;
    }
    match tokens(alloc, text) {
        Ok(tokens) => tokens.as_slice() == wanted,
        Err(_) => false,
    }
}

/// The tokens of a line behind a comment.
const LINE: &[Token] = &[
    Token {
        kind: Kind::Word,
        start: 9,
        len: 3,
        line: 2,
    },
    Token {
        kind: Kind::Word,
        start: 13,
        len: 3,
        line: 2,
    },
    Token {
        kind: Kind::Local,
        start: 17,
        len: 2,
        line: 2,
    },
];

#[test]
fn a_line_is_split(rt: HostRuntime) {
    assert!(rt; has_tokens(rt.alloc(), b"; zero\n  ret i32 %x\n", LINE));
}

/// The number of the first text that is not one token of the kind beside it, or 0.
fn wrong_token(alloc: Global) -> usize {
    for at in 0..SINGLE.len() {
        if !is_one(alloc, SINGLE[at].0, SINGLE[at].1) {
            return at + 1;
        }
    }
    0
}

#[test]
fn each_kind_is_read(rt: HostRuntime) {
    assert_eq!(rt; wrong_token(rt.alloc()), 0);
}

/// The number of the first text that is not refused at the line beside it, or 0.
fn wrong_refusal(alloc: Global) -> usize {
    for at in 0..REFUSED.len() {
        if refused_line(alloc, REFUSED[at].0) != REFUSED[at].1 {
            return at + 1;
        }
    }
    0
}

#[test]
fn the_first_refused_place_is_named(rt: HostRuntime) {
    assert_eq!(rt; wrong_refusal(rt.alloc()), 0);
}
