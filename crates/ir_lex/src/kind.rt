//! Kinds of tokens, and a token.

/// The kind of a token.
#[derive(Clone, Copy, PartialEq, Eq)]
pub enum Kind {
    /// A name or a string, directly followed by `:` (LangRef, "Functions").
    Label,
    /// An optional `-` and digits (LangRef, "Simple Constants").
    Int,
    /// A floating-point literal, decimal or `0x` and hexadecimal digits (LangRef, "Simple Constants").
    Real,
    /// A keyword or a type: characters of a name that begin with neither a digit nor `-`.
    Word,
    /// `"..."` (LangRef, "String constants").
    Str,
    /// `c"..."` (LangRef, "Complex Constants").
    CStr,
    /// A name after `@` (LangRef, "Identifiers").
    Global,
    /// A name after `%` (LangRef, "Identifiers").
    Local,
    /// A name or a string after `!` (LangRef, "Metadata").
    Meta,
    /// Digits after `#` (LangRef, "Attribute Groups").
    Attr,
    /// `=`
    Equal,
    /// `,`
    Comma,
    /// `*`
    Star,
    /// `(`
    OpenRound,
    /// `)`
    CloseRound,
    /// `[`
    OpenSquare,
    /// `]`
    CloseSquare,
    /// `{`
    OpenCurly,
    /// `}`
    CloseCurly,
    /// `<{`, before the fields of a packed struct (LangRef, "Structure Type").
    OpenPacked,
    /// `}>`, after the fields of a packed struct (LangRef, "Structure Type").
    ClosePacked,
    /// `<`
    Less,
    /// `>`
    Greater,
    /// `|`
    Bar,
    /// `!` that no name and no string follows.
    Bang,
    /// `...` (LangRef, "Function Type").
    Ellipsis,
}

/// A token of a text.
#[derive(Clone, Copy, PartialEq, Eq)]
pub struct Token {
    /// The token's kind.
    pub kind: Kind,
    /// The position of its first byte in the text, counted from 0.
    pub start: u32,
    /// How many bytes it has.
    pub len: u32,
    /// The line of its first byte, counted from 1.
    pub line: u32,
}
