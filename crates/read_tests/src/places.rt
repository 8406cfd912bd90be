//! The places of the items of a module among all its items, whatever their kinds.
use ir_read::read_module;
use ir_syntax::Module;
use std::alloc::{AllocError, Global};

/// Texts, and the places of the types, the variables, the functions and the aliases that each has, in order.
const TEXTS: &[(&str, &[u32])] = &[
    ("", &[]),
    (
        "@_start = global i8 0 define void @__host_f() { ret void }",
        &[0, 1],
    ),
    (
        "define void @__host_f() { ret void } @_start = global i8 0",
        &[1, 0],
    ),
    // Of the line of a target nothing is kept.
    (
        "@a = private alias i8, ptr @b target triple = \"t\" declare void @f() @b = global i8 0 %t = type {} declare void @g()",
        &[3, 2, 1, 4, 0],
    ),
];

/// The places of the items of a module, kind by kind.
fn places_of(alloc: Global, module: &Module) -> Result<Vec<u32>, AllocError> {
    let mut places = Vec::new(alloc);
    for ty in module.types.as_slice() {
        places.push(ty.place)?;
    }
    for global in module.globals.as_slice() {
        places.push(global.place)?;
    }
    for function in module.functions.as_slice() {
        places.push(function.place)?;
    }
    for alias in module.aliases.as_slice() {
        places.push(alias.place)?;
    }
    Ok(places)
}

/// Whether the items of a module have these places.
fn are_places(alloc: Global, module: &Module, places: &[u32]) -> bool {
    match places_of(alloc, module) {
        Ok(found) => found.as_slice() == places,
        Err(_) => false,
    }
}

/// Whether the items of a text have these places.
fn has_places(alloc: Global, text: &str, places: &[u32]) -> bool {
    if text.len() > 16777216 {
        return false;
    }
    match read_module(alloc, text.as_bytes()) {
        Ok(module) => are_places(alloc, &module, places),
        Err(_refusal) => false,
    }
}

#[test]
fn each_item_keeps_its_place(rt: HostRuntime) {
    for (text, places) in TEXTS {
        assert!(rt; has_places(rt.alloc(), text, places), "{text}");
    }
}
