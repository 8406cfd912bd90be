//! Modules without names of types: what their types take, and how far their constant addresses lie behind their bases.
use check_tests::modules::{Piece, read_pieces};
use ir_sizes::NamedTypes;
use ir_syntax::{AliasBase, ConstantGep, GepParts, Literal, Module, TypedLiteral};
use ir_unname::without_type_names;
use std::alloc::{AllocError, Global};

/// Texts; the bytes that the types of their variables take then, 0 where a type has no size; and the bytes by which their
/// aliases lie behind their bases.
const MODULES: &[(&[Piece], &[u64], &[u64])] = &[
    (&[], &[], &[]),
    // A name that stands for a struct, one in an array, one in a struct without a name, and one behind another.
    (
        &[
            (1, "%a = type { i8, i64 }\n%b = type <{ %a, i8 }>\n"),
            (1, "@a = global %a zeroinitializer\n"),
            (1, "@b = global [3 x %a] zeroinitializer\n"),
            (1, "@c = global { i8, %b } zeroinitializer\n"),
            (1, "@d = external global %b\n@e = global i32 7\n"),
        ],
        &[16, 48, 18, 17, 4],
        &[],
    ),
    // A type that stands in itself keeps its name.
    (
        &[(1, "%a = type { %a }\n@a = global %a zeroinitializer\n")],
        &[0],
        &[],
    ),
    // From the base itself, by fields, by whole values, and below it.
    (
        &[
            (1, "%a = type { i8, i64 }\n@g = global %a zeroinitializer\n"),
            (1, "@a = alias i8, ptr @g\n"),
            (
                1,
                "@b = alias i64, getelementptr (%a, ptr @g, i64 0, i32 1)\n",
            ),
            (
                1,
                "@c = alias %a, getelementptr inbounds (%a, ptr @g, i64 2)\n",
            ),
            (1, "@d = alias i8, getelementptr (i8, ptr @g, i32 -1)\n"),
        ],
        &[16],
        &[0, 8, 32, 18_446_744_073_709_551_615],
    ),
];

/// What types take and how far addresses lie, of a module without names of types.
struct Measured {
    sizes: Vec<u64>,
    offsets: Vec<u64>,
}

impl Drop for Measured {
    fn drop(self) {
        let Measured { sizes, offsets } = self;
        drop(sizes);
        drop(offsets);
    }
}

fn sizes_of(alloc: Global, module: &Module) -> Result<Vec<u64>, AllocError> {
    let types = NamedTypes::new(alloc, &[])?;
    let mut sizes = Vec::new(alloc);
    for variable in module.globals.as_slice() {
        let size = match types.layout(variable.ty.tree()) {
            Some(layout) => layout.size,
            None => 0,
        };
        sizes.push(size)?;
    }
    Ok(sizes)
}

/// The bytes that a constant address says, or 1 where it says anything else than bytes.
fn bytes_of(parts: &GepParts) -> u64 {
    if parts.ty.width() != Some(8) {
        return 1;
    }
    match parts.indices.as_slice() {
        [TypedLiteral { ty, value }] if ty.width() == Some(64) => magnitude(*value),
        _ => 1,
    }
}

fn magnitude(literal: Literal) -> u64 {
    if literal.negative || literal.magnitude > 18_446_744_073_709_551_615 {
        return 1;
    }
    literal.magnitude as u64
}

fn offset_of(gep: &ConstantGep) -> u64 {
    bytes_of(gep.parts())
}

fn offsets_of(alloc: Global, module: &Module) -> Result<Vec<u64>, AllocError> {
    let mut offsets = Vec::new(alloc);
    for alias in module.aliases.as_slice() {
        let offset = match &alias.base {
            AliasBase::Global(_) => 0,
            AliasBase::Gep(gep) => offset_of(gep),
        };
        offsets.push(offset)?;
    }
    Ok(offsets)
}

fn measure(alloc: Global, module: Module) -> Result<Measured, AllocError> {
    let module = without_type_names(alloc, module)?;
    let sizes = sizes_of(alloc, &module)?;
    let offsets = offsets_of(alloc, &module)?;
    Ok(Measured { sizes, offsets })
}

/// Whether the types of a text take so many bytes without names, and its addresses lie so far.
fn has(alloc: Global, pieces: &[Piece], sizes: &[u64], offsets: &[u64]) -> bool {
    let Some(module) = read_pieces(alloc, pieces) else {
        return false;
    };
    match measure(alloc, module) {
        Ok(found) => found.sizes.as_slice() == sizes && found.offsets.as_slice() == offsets,
        Err(_) => false,
    }
}

#[test]
fn types_are_written_without_names(rt: HostRuntime) {
    for (text, sizes, offsets) in MODULES {
        assert!(rt; has(rt.alloc(), text, sizes, offsets), "{text:?}");
    }
}
