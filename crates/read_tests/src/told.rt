//! What the readers tell of a text.
use ir_read::{read_entities, read_module};
use ir_syntax::Refusal;
use std::alloc::Global;

/// What is told of a text.
#[derive(Clone, Copy, PartialEq, Eq)]
pub(crate) enum Told {
    /// It is of the grammar, and has so many items that are kept.
    Items(usize),
    /// It is a module, in which each name is defined.
    Module,
    /// At this line no token begins, or one that is refused.
    Lex(u32),
    /// At this line stands the first bad token.
    Form(u32),
    /// At this line stands a word that is left out, and it is the one that was asked for.
    Unsupported(u32),
    /// It is of the grammar; at this line stands the first fault of names.
    Name(u32),
    /// Anything else.
    Other,
}

/// What a refusal tells, where a word that is left out is this one.
fn told_by(refusal: &Refusal, word: &[u8]) -> Told {
    match refusal {
        Refusal::Lex { line } => Told::Lex(*line),
        Refusal::Form { line } => Told::Form(*line),
        Refusal::Name { line } => Told::Name(*line),
        Refusal::Unsupported { line, word: found } if found.as_slice() == word => {
            Told::Unsupported(*line)
        }
        _ => Told::Other,
    }
}

/// What is told of a text by the grammar, where a word that is left out is this one.
pub(crate) fn told_of(alloc: Global, text: &[u8], word: &[u8]) -> Told {
    if text.len() > 16777216 {
        return Told::Other;
    }
    match read_entities(alloc, text) {
        Ok(found) => Told::Items(found.as_slice().len()),
        Err(refusal) => told_by(&refusal, word),
    }
}

/// What is told of a text as a module.
pub(crate) fn told_of_module(alloc: Global, text: &[u8]) -> Told {
    if text.len() > 16777216 {
        return Told::Other;
    }
    match read_module(alloc, text) {
        Ok(_module) => Told::Module,
        Err(refusal) => told_by(&refusal, b""),
    }
}
