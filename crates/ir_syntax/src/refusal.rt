//! Why a text is refused.
use crate::bytes::Bytes;

/// What a module has too much of.
#[derive(Clone, Copy, PartialEq, Eq)]
pub enum Count {
    /// More than 4,096 defined functions.
    Functions,
    /// A function of more than 65,536 instructions, phis and terminators, of the blocks that some path reaches.
    OneFunction,
    /// More than 262,144 of these in all functions.
    Instructions,
    /// A function, defined or declared, of more than 64 parameters.
    Arguments,
    /// Types of more than 4,194,304 places in all, each type as often as it is written.
    TypePlaces,
}

/// Why a text is refused. The answer is the first of these that holds, in the order that they stand in here.
pub enum Refusal {
    /// Number 1: more than 16,777,216 bytes were read.
    TooLong {
        /// How many bytes were read.
        taken: u64,
    },
    /// Number 2: no token begins at a place, a literal is out of range, or a name has a zero byte.
    Lex {
        /// The line of that place.
        line: u32,
    },
    /// Number 3: the first bad token is a word of the language that is left out here.
    Unsupported {
        /// The line of the token.
        line: u32,
        /// The token as it stands in the text.
        word: Bytes,
    },
    /// Number 4: the tokens up to this line begin no module.
    Form {
        /// The line of the first bad token; at the end of the text that of the last token.
        line: u32,
    },
    /// Number 5: a name is used that is not defined, or a number is written that is not the next one.
    Name {
        /// The line of the name.
        line: u32,
    },
    /// Number 6: a name is defined for the second time.
    Repeated {
        /// The line of the first token of the later of the two items.
        line: u32,
    },
    /// Number 7: an item has a name that none may have.
    Reserved {
        /// The name.
        name: Bytes,
    },
    /// Number 8: a rule on types is broken.
    TypeRule {
        /// The line of the first token of what breaks it.
        line: u32,
    },
    /// Number 9: some path reaches a use without passing its definition, or the blocks of a function and the entries of its
    /// phis do not fit.
    FlowRule {
        /// The line of the first token of what breaks the rule.
        line: u32,
    },
    /// Number 10: an alias does not come to a definition, or its offset is out of range.
    AliasRule {
        /// The name of the alias.
        name: Bytes,
    },
    /// Number 11: a limit on what a module has is exceeded.
    Count {
        /// The first such limit.
        which: Count,
    },
    /// Number 18: the module has something that is not built yet.
    NotYet {
        /// The least line of what is not built.
        line: u32,
    },
    /// Number 14: a module that is to be run defines no function `main` that other modules see.
    NoMain,
    /// Number 15: `main` has another type than `i32 ()` and `i32 (i32, ptr)`.
    BadMain,
    /// Number 16: a module that is to be run uses a symbol that neither it nor the runtime defines.
    Unresolved {
        /// The name of the symbol.
        name: Bytes,
    },
    /// Number 17: the linked image of a module that is to be run exceeds 67,108,864 bytes.
    Image {
        /// Its size in bytes, or 2^64 - 1 where that is greater.
        bytes: u64,
    },
    /// Memory ran out.
    NoMemory,
}

impl Drop for Refusal {
    fn drop(self) {
        match self {
            Refusal::Unsupported { word, line: _ } => drop(word),
            Refusal::Reserved { name }
            | Refusal::AliasRule { name }
            | Refusal::Unresolved { name } => drop(name),
            Refusal::TooLong { taken: _ } | Refusal::Image { bytes: _ } => {}
            Refusal::Lex { line: _ }
            | Refusal::Form { line: _ }
            | Refusal::Name { line: _ }
            | Refusal::Repeated { line: _ }
            | Refusal::TypeRule { line: _ }
            | Refusal::FlowRule { line: _ }
            | Refusal::NotYet { line: _ } => {}
            Refusal::Count { which: _ } => {}
            Refusal::NoMain | Refusal::BadMain | Refusal::NoMemory => {}
        }
    }
}
