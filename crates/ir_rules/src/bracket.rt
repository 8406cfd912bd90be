//! Brackets.
ghost use Rattle.std.specs.Prelude.{◌≡◌};
ghost use Rattle.ir_rules.specs.Balance.{opener, role_of};

use ir_words::Class;

/// A kind of brackets.
#[derive(Clone, Copy, Debug, PartialEq, Eq)]
pub enum Bracket {
    /// `(` and `)`
    Round,
    /// `[` and `]`
    Square,
    /// `{` and `}`
    Curly,
    /// `<{` and `}>`
    Packed,
}

/// What a token is among brackets.
#[derive(Clone, Copy, Debug, PartialEq, Eq)]
pub(crate) enum Role {
    /// It opens one.
    Opens(Bracket),
    /// It closes one.
    Closes(Bracket),
    /// It is none.
    Plain,
}

/// The class of the bracket that opens.
pub(crate) fn opener(bracket: Bracket) -> Class
    ensures { result ≡ opener bracket }
{
    match bracket {
        Bracket::Round => Class::OpenRound,
        Bracket::Square => Class::OpenSquare,
        Bracket::Curly => Class::OpenCurly,
        Bracket::Packed => Class::OpenPacked,
    }
}

/// What a token of a class is among brackets.
pub(crate) fn role_of(class: Class) -> Role
    ensures { result ≡ role_of class }
{
    match class {
        Class::OpenRound => Role::Opens(Bracket::Round),
        Class::OpenSquare => Role::Opens(Bracket::Square),
        Class::OpenCurly => Role::Opens(Bracket::Curly),
        Class::OpenPacked => Role::Opens(Bracket::Packed),
        Class::CloseRound => Role::Closes(Bracket::Round),
        Class::CloseSquare => Role::Closes(Bracket::Square),
        Class::CloseCurly => Role::Closes(Bracket::Curly),
        Class::ClosePacked => Role::Closes(Bracket::Packed),
        _ => Role::Plain,
    }
}
