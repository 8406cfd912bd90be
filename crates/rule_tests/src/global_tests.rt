//! Global variables and aliases that keep each rule on types, and that break it.
use check_tests::modules::{Piece, read_pieces};
use ir_global_rules::push_global_lines;
use ir_syntax::Module;
use std::alloc::{AllocError, Global};

/// Types with a type that stands in itself, on line 1.
const TYPES: &str =
    "%t = type { i8, i32 } %u = type { i8, i32 } %p = type <{ i8, i32 }> %r = type { %r } @g = global i8 0\n";

/// Items on line 2, and that line for each of its rules that is broken.
const ITEMS: &[(&[u32], &str)] = &[
    // Alignments.
    (&[], "@x = global i8 0, align 1"),
    (&[], "@x = global i8 0, align 4096"),
    (&[], "@x = external global i8, align 64"),
    (&[2], "@x = global i8 0, align 8192"),
    (&[2], "@x = global i8 0, align 3"),
    (&[2], "@x = global i8 0, align 0"),
    (&[2], "@x = external global i8, align 8192"),
    // Sizes.
    (&[], "@x = external global [4294967295 x i8]"),
    (&[2], "@x = external global [4294967295 x i16]"),
    (&[2], "@x = external global %r"),
    (
        &[2],
        "@x = global ptr getelementptr ([4294967295 x i16], ptr @g, i64 0)",
    ),
    (&[2], "@x = alias [4294967295 x i16], ptr @g"),
    (&[], "@x = alias void, ptr @g"),
    (&[2], "@x = alias void (%r), ptr @g"),
    (&[2], "@x = alias i8, getelementptr (%r, ptr @g, i64 0)"),
    // Scalars.
    (&[], "@x = global i1 true"),
    (&[], "@x = global i64 -1"),
    (&[], "@x = global i8 300"),
    (&[], "@x = global ptr null"),
    (&[], "@x = global ptr @g"),
    (&[], "@x = global ptr getelementptr (i8, ptr @g, i64 1)"),
    (&[2], "@x = global i8 true"),
    (&[2], "@x = global i8 null"),
    (&[2], "@x = global ptr 0"),
    (&[2], "@x = global i64 @g"),
    (&[2], "@x = global i64 getelementptr (i8, ptr @g, i64 1)"),
    (&[2], "@x = global i8 %l"),
    // What fits every type.
    (&[], "@x = global %t zeroinitializer"),
    (&[], "@x = global [2 x i8] undef"),
    (&[], "@x = global %t poison"),
    (&[], "@x = global i8 zeroinitializer"),
    // Bytes.
    (&[], "@x = global [2 x i8] c\"ab\""),
    (&[], "@x = global [0 x i8] c\"\""),
    (&[2], "@x = global [3 x i8] c\"ab\""),
    (&[2], "@x = global [2 x i16] c\"ab\""),
    (&[2], "@x = global i16 c\"ab\""),
    // Arrays.
    (&[], "@x = global [0 x i8] []"),
    (&[], "@x = global [2 x i8] [ i8 1, i8 2 ]"),
    (&[2], "@x = global [2 x i8] [ i8 1 ]"),
    (&[2], "@x = global [1 x i8] [ i8 1, i8 2 ]"),
    (&[2], "@x = global [1 x i8] [ i16 1 ]"),
    (&[2], "@x = global [1 x i8] [ i8 null ]"),
    (&[2], "@x = global i8 [ i8 1 ]"),
    (&[], "@x = global [1 x %t] [ %u { i8 1, i32 2 } ]"),
    (&[], "@x = global [1 x %t] [ { i8, i32 } zeroinitializer ]"),
    (&[2], "@x = global [1 x %t] [ %p zeroinitializer ]"),
    // Structs.
    (&[], "@x = global {} {}"),
    (&[], "@x = global %t { i8 1, i32 2 }"),
    (&[], "@x = global <{ i8, i32 }> <{ i8 1, i32 2 }>"),
    (
        &[],
        "@x = global { [1 x i8], %t } { [1 x i8] c\"a\", %t { i8 1, i32 2 } }",
    ),
    (&[2], "@x = global %t <{ i8 1, i32 2 }>"),
    (&[2], "@x = global %p { i8 1, i32 2 }"),
    (&[2], "@x = global %t { i8 1 }"),
    (&[2], "@x = global %t { i8 1, i32 2, i8 3 }"),
    (&[2], "@x = global %t { i32 1, i8 2 }"),
    (&[2], "@x = global %t [ i8 1, i32 2 ]"),
    // Two rules.
    (&[2, 2], "@x = global i8 null, align 3"),
];

fn broken_lines(alloc: Global, module: &Module) -> Result<Vec<u32>, AllocError> {
    let mut lines = Vec::new(alloc);
    push_global_lines(alloc, module, &mut lines)?;
    Ok(lines)
}

/// Whether an item breaks rules at these lines.
fn is_told_of(alloc: Global, item: &'static str, lines: &[u32]) -> bool {
    let pieces: [Piece; 2] = [(1, TYPES), (1, item)];
    let Some(module) = read_pieces(alloc, &pieces) else {
        return false;
    };
    match broken_lines(alloc, &module) {
        Ok(found) => found.as_slice() == lines,
        Err(_) => false,
    }
}

#[test]
fn globals_keep_the_rules_on_types(rt: HostRuntime) {
    for (lines, item) in ITEMS {
        assert!(rt; is_told_of(rt.alloc(), item, lines), "{item}");
    }
}
