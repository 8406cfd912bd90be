//! Texts in pieces, and modules from them.
use ir_read::{Entities, Entity, read_entities};
use ir_syntax::{Aliases, Functions, Globals, Module, TypeDefs};
use std::alloc::{AllocError, Global};

/// A piece of a text, and how often it stands there.
pub type Piece = (usize, &'static str);

/// The text of these pieces.
pub fn text_of(alloc: Global, pieces: &[Piece]) -> Result<Vec<u8>, AllocError> {
    let mut text = Vec::new(alloc);
    push_pieces(&mut text, pieces)?;
    Ok(text)
}

/// Adds pieces at the end of a text.
pub fn push_pieces(text: &mut Vec<u8>, pieces: &[Piece]) -> Result<(), AllocError> {
    for (times, piece) in pieces {
        for _time in 0..*times {
            text.extend_from_slice(piece.as_bytes())?;
        }
    }
    Ok(())
}

/// The items of a text, if it is one of the grammar.
pub fn read_items(alloc: Global, text: &[u8]) -> Option<Entities> {
    if text.len() > 16777216 {
        return None;
    }
    match read_entities(alloc, text) {
        Ok(found) => Some(found),
        Err(_refusal) => None,
    }
}

/// Adds an item at the end of a list.
fn add<T: Drop>(items: &mut Vec<T>, item: T) -> Result<(), AllocError> {
    items.push(item)?;
    Ok(())
}

/// The module of these items, each with its name as it is written. So the text may use a name that nothing defines,
/// and a number that is not the next one.
pub fn module_of(alloc: Global, items: Entities) -> Result<Module, AllocError> {
    let mut types = Vec::new(alloc);
    let mut globals = Vec::new(alloc);
    let mut functions = Vec::new(alloc);
    let mut aliases = Vec::new(alloc);
    for item in items.into_vec() {
        let pushed = match item {
            Entity::Type(def) => add(&mut types, def),
            Entity::Global(variable) => add(&mut globals, variable),
            Entity::Function(function) => add(&mut functions, function),
            Entity::Alias(alias) => add(&mut aliases, alias),
        };
        pushed?;
    }
    Ok(Module {
        types: TypeDefs::from_vec(types),
        globals: Globals::from_vec(globals),
        functions: Functions::from_vec(functions),
        aliases: Aliases::from_vec(aliases),
    })
}

/// The module of a text, if it is one of the grammar.
pub fn read(alloc: Global, text: &[u8]) -> Option<Module> {
    match read_items(alloc, text) {
        Some(items) => module_of(alloc, items).ok(),
        None => None,
    }
}

/// The module of a text of these pieces, if it is one of the grammar.
pub fn read_pieces(alloc: Global, pieces: &[Piece]) -> Option<Module> {
    match text_of(alloc, pieces) {
        Ok(text) => read(alloc, text.as_slice()),
        Err(_) => None,
    }
}
