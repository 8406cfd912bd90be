//! Offsets of constant `getelementptr`s, and what has one that is out of range.
use check_tests::modules::{Piece, read_pieces};
use ir_geps::{gep_offset, parts_in_range, push_gep_lines};
use ir_sizes::NamedTypes;
use ir_syntax::{AliasBase, GepParts, Module, TypeDef};
use std::alloc::{AllocError, Global};

/// A named type, with padding behind its first field.
const TYPES: &str = "%a = type { i8, i64 }\n";

/// Source types with indices, whether these are in range, and the offset.
const OFFSETS: &[(&str, bool, Option<u64>)] = &[
    // 16 bytes to the second struct, 8 to its array, and 2 less.
    (
        "{ i8, i32, [3 x i16] }, ptr @g, i64 1, i32 2, i64 -1",
        true,
        Some(22),
    ),
    // An index is sign-extended from its own width, and a field is named modulo 2^32.
    (
        "<{ i8, i32, [3 x i16] }>, ptr @g, i8 255, i32 4294967297",
        true,
        Some(18_446_744_073_709_551_606),
    ),
    ("i8, ptr @g", true, Some(0)),
    (
        "i64, ptr @g, i16 -2",
        true,
        Some(18_446_744_073_709_551_600),
    ),
    ("i17, ptr @g, i32 3", true, Some(12)),
    // Beyond the end of an array is in range.
    ("[2 x i8], ptr @g, i64 0, i64 5", true, Some(5)),
    ("[2 x %a], ptr @g, i64 0, i64 1, i32 1", true, Some(24)),
    ("%a, ptr @g, i64 2", true, Some(32)),
    // No such field, a field by an index that is no `i32`, and an index into a scalar.
    ("{ i8 }, ptr @g, i64 0, i32 1", false, None),
    ("{ i8 }, ptr @g, i64 0, i32 -1", false, None),
    ("{ i8, i8 }, ptr @g, i64 0, i64 1", false, None),
    ("{}, ptr @g, i64 0, i32 0", false, None),
    ("i8, ptr @g, i64 0, i64 0", false, None),
    ("%a, ptr @g, i64 0, i32 1, i32 0", false, None),
];

/// Modules, and the lines of what has a `getelementptr` that is out of range.
const MODULES: &[(&[Piece], &[u32])] = &[(
    &[
        (
            1,
            "@g = global ptr getelementptr ({ i8 }, ptr @g, i64 0, i32 1)\n",
        ),
        (
            1,
            "@h = global [2 x ptr] [ ptr null, ptr getelementptr (i8, ptr @g, i64 1) ]\n",
        ),
        (
            1,
            "@a = alias i8, getelementptr (i8, ptr @g, i64 0, i64 0)\n",
        ),
        (1, "define ptr @f(ptr %p, i32 %i) {\n"),
        (1, "  %a = getelementptr { i8 }, ptr %p, i32 %i, i32 0\n"),
        (1, "  %b = getelementptr { i8 }, ptr %p, i32 %i, i32 %i\n"),
        (1, "  %c = getelementptr [4 x i8], ptr %p, i32 %i, i32 %i\n"),
        (
            1,
            "  store ptr getelementptr ({}, ptr @g, i32 0, i32 0), ptr %p\n",
        ),
        (1, "  ret ptr getelementptr (ptr, ptr @g, i32 0, i32 0) }"),
    ],
    &[1, 6, 8, 9, 3],
)];

/// Whether the indices are in range, and the offset.
fn measured(alloc: Global, types: &[TypeDef], gep: &GepParts) -> Option<(bool, Option<u64>)> {
    let types = NamedTypes::new(alloc, types).ok()?;
    Some((parts_in_range(&types, gep), gep_offset(&types, gep)))
}

/// The same of the base of the first alias of a module.
fn measured_base(alloc: Global, module: &Module) -> Option<(bool, Option<u64>)> {
    match module.aliases.as_slice() {
        [alias, ..] => match &alias.base {
            AliasBase::Gep(gep) => measured(alloc, module.types.as_slice(), gep.parts()),
            AliasBase::Global(_) => None,
        },
        [] => None,
    }
}

/// Whether a `getelementptr` of this source type and these indices has this offset.
fn has_offset(alloc: Global, gep: &'static str, in_range: bool, offset: Option<u64>) -> bool {
    let pieces = [
        (1, TYPES),
        (1, "@x = alias i8, getelementptr ("),
        (1, gep),
        (1, ")"),
    ];
    match read_pieces(alloc, &pieces) {
        Some(module) => measured_base(alloc, &module) == Some((in_range, offset)),
        None => false,
    }
}

fn gep_lines(alloc: Global, module: &Module) -> Result<Vec<u32>, AllocError> {
    let mut lines = Vec::new(alloc);
    push_gep_lines(alloc, module, &mut lines)?;
    Ok(lines)
}

fn is_told_of(alloc: Global, pieces: &[Piece], lines: &[u32]) -> bool {
    let Some(module) = read_pieces(alloc, pieces) else {
        return false;
    };
    match gep_lines(alloc, &module) {
        Ok(found) => found.as_slice() == lines,
        Err(_) => false,
    }
}

#[test]
fn constant_indices_make_offsets(rt: HostRuntime) {
    for (gep, in_range, offset) in OFFSETS {
        assert!(rt; has_offset(rt.alloc(), gep, *in_range, *offset), "{gep}");
    }
}

#[test]
fn indices_out_of_range_are_told(rt: HostRuntime) {
    for (text, lines) in MODULES {
        assert!(rt; is_told_of(rt.alloc(), text, lines), "{text:?}");
    }
}
