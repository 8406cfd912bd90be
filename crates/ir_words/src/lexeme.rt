//! What a token is to the grammar, by its kind and its bytes.
ghost use Rattle.std.specs.Prelude.{◌≡◌};
ghost use Rattle.ir_words.specs.Classes.{class_in, is_unsupported};

use crate::class::Class;
use crate::global::global_class;
use crate::word::word_class;
use ir_lex::Kind;

/// The class of a token of a kind and with these bytes.
pub fn class_in(kind: Kind, text: &[u8]) -> Class
    ensures { result ≡ class_in kind text.now }
{
    match kind {
        Kind::Word => word_class(text),
        Kind::Global => global_class(text),
        Kind::Label => Class::Label,
        Kind::Int => Class::Int,
        Kind::Real => Class::Real,
        Kind::Str => Class::Str,
        Kind::CStr => Class::CStr,
        Kind::Local => Class::Local,
        Kind::Meta => Class::Meta,
        Kind::Attr => Class::Attr,
        Kind::Equal => Class::Equal,
        Kind::Comma => Class::Comma,
        Kind::Star => Class::Star,
        Kind::OpenRound => Class::OpenRound,
        Kind::CloseRound => Class::CloseRound,
        Kind::OpenSquare => Class::OpenSquare,
        Kind::CloseSquare => Class::CloseSquare,
        Kind::OpenCurly => Class::OpenCurly,
        Kind::CloseCurly => Class::CloseCurly,
        Kind::OpenPacked => Class::OpenPacked,
        Kind::ClosePacked => Class::ClosePacked,
        Kind::Less => Class::Less,
        Kind::Greater => Class::Greater,
        Kind::Bar => Class::Bar,
        Kind::Bang => Class::Bang,
        Kind::Ellipsis => Class::Ellipsis,
    }
}

/// Whether a token of a class is part of LLVM IR that is not compiled.
pub fn is_unsupported(class: Class) -> bool
    ensures { result ≡ is_unsupported class }
{
    matches!(
        class,
        Class::Less | Class::Ellipsis | Class::Unsupported | Class::UnknownIntrinsic
    )
}
