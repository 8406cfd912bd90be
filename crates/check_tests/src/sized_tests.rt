//! Definitions of types, and which of them have no size.
use crate::modules::{Piece, read, read_pieces};
use ir_sizes::unsized_lines;
use ir_syntax::Module;
use itoa::Buffer;
use std::alloc::{AllocError, Global};

/// Types, and the lines of those that have no size.
const TYPES: &[(&[Piece], &[u32])] = &[
    (&[(1, "%a = type { i8, i8 }\n%b = type { i8, %a }")], &[]),
    (&[(1, "%a = type { %b, i8 }\n%b = type { i8, i8 }")], &[]),
    (&[(1, "%a = type { %a, i8 }\n%b = type { i8, i8 }")], &[1]),
    (
        &[(1, "%a = type { %b, i8 }\n%b = type { i8, %a }")],
        &[1, 2],
    ),
    (&[(1, "%a = type { %c, i8 }\n%b = type { i8, i8 }")], &[1]),
    (
        &[(
            1,
            "%a = type { [4294967295 x i8], [0 x i8] }\n%b = type { %a, [0 x i8] }",
        )],
        &[],
    ),
    (
        &[(
            1,
            "%a = type { [4294967295 x i8], i8 }\n%b = type { i8, i8 }",
        )],
        &[1],
    ),
    (
        &[(
            1,
            "%a = type { [4294967295 x i16], i8 }\n%b = type { i8, i8 }",
        )],
        &[1],
    ),
    (
        &[(
            1,
            "%a = type { %b, i8 }\n%b = type { [4294967295 x i16], i8 }",
        )],
        &[1, 2],
    ),
    // A type has at most 65,536 places.
    (
        &[
            (1, "%a = type { i8"),
            (32_765, ", i8"),
            (1, ", [1 x i8] }\n%b = type { i8"),
            (32_765, ", i8"),
            (1, ", [1 x i8], i8 }"),
        ],
        &[2],
    ),
    // A name stands for its first definition.
    (
        &[(
            1,
            "%a = type <{ i8 }>\n%a = type <{ [4294967295 x i16] }>\n%b = type <{ %a }>",
        )],
        &[2],
    ),
];

/// Whether these are the lines of a module's types that have no size.
fn are_unsized(alloc: Global, module: &Module, lines: &[u32]) -> bool {
    match unsized_lines(alloc, &module.types) {
        Ok(found) => found.as_slice() == lines,
        Err(_) => false,
    }
}

/// Whether a text is read, and these are the lines of its types that have no size.
fn is_told(alloc: Global, text: &[u8], lines: &[u32]) -> bool {
    match read(alloc, text) {
        Some(module) => are_unsized(alloc, &module, lines),
        None => false,
    }
}

/// Whether these are the lines of the types without a size in a text of these pieces.
fn is_told_of(alloc: Global, pieces: &[Piece], lines: &[u32]) -> bool {
    match read_pieces(alloc, pieces) {
        Some(module) => are_unsized(alloc, &module, lines),
        None => false,
    }
}

#[test]
fn types_have_a_size_where_they_end_and_are_small(rt: HostRuntime) {
    for (text, lines) in TYPES {
        assert!(rt; is_told_of(rt.alloc(), text, lines), "{text:?}");
    }
}

/// How many structs, how many fields each has of the one before it, and the lines of those that have no size.
const TOWERS: &[(u32, usize, &[u32])] = &[
    // Structs stand inside each other to 64 levels.
    (64, 1, &[]),
    (66, 1, &[65, 66]),
    // Sixty structs, each twice as large as the one before, are measured.
    (
        60,
        2,
        &[
            15, 16, 17, 18, 19, 20, 21, 22, 23, 24, 25, 26, 27, 28, 29, 30, 31, 32, 33, 34, 35, 36,
            37, 38, 39, 40, 41, 42, 43, 44, 45, 46, 47, 48, 49, 50, 51, 52, 53, 54, 55, 56, 57, 58,
            59, 60,
        ],
    ),
];

/// Adds the type of a number.
fn push_number(text: &mut Vec<u8>, number: u32) -> Result<(), AllocError> {
    text.extend_from_slice(b"%")?;
    text.extend_from_slice(Buffer::new().format(number).as_bytes())
}

/// Adds the struct of a number, with so many fields of the one before it.
fn push_struct(text: &mut Vec<u8>, number: u32, fields: usize) -> Result<(), AllocError> {
    push_number(text, number)?;
    text.extend_from_slice(b" = type { ")?;
    push_number(text, number.saturating_sub(1))?;
    for _field in 1..fields {
        text.extend_from_slice(b", ")?;
        push_number(text, number.saturating_sub(1))?;
    }
    text.extend_from_slice(b" }\n")
}

/// A text of so many structs, each but the first with so many fields of the one before it.
fn tower_of(alloc: Global, structs: u32, fields: usize) -> Result<Vec<u8>, AllocError> {
    let mut text = Vec::from_slice(alloc, b"%1 = type { i1 }\n")?;
    for below in 1..structs {
        push_struct(&mut text, below.saturating_add(1), fields)?;
    }
    Ok(text)
}

/// Whether these are the lines of the types without a size in that text.
fn is_told_of_tower(alloc: Global, structs: u32, fields: usize, lines: &[u32]) -> bool {
    match tower_of(alloc, structs, fields) {
        Ok(text) => is_told(alloc, text.as_slice(), lines),
        Err(_) => false,
    }
}

#[test]
fn structs_stand_inside_each_other(rt: HostRuntime) {
    for (structs, fields, lines) in TOWERS {
        let right = is_told_of_tower(rt.alloc(), *structs, *fields, lines);
        assert!(rt; right, "{structs} structs of {fields} fields");
    }
}
