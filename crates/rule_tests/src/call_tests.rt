//! Calls that keep each rule on types, and that break it.
use check_tests::modules::{Piece, read_pieces};
use ir_aliases::AliasEnds;
use ir_call_rules::push_call_lines;
use ir_syntax::Module;
use std::alloc::{AllocError, Global};

/// Functions, and the head of one that calls them, on line 1: an integer of each of four widths, and a pointer.
const HEAD: &str =
    "declare void @v() declare i8 @b(i8) declare void @q(ptr, i32) declare [2 x i8] @r() define void @f(i1 %c, i8 %b, i32 %n, i64 %l, ptr %p) { a:\n";

/// Calls on line 2, with that line where they break a rule.
const CALLS: &[(&[u32], &str)] = &[
    // A function of the call's type is called.
    (&[], "call void @v()"),
    (&[], "call i8 @b(i8 %b)"),
    (&[], "call void @q(ptr %p, i32 %n)"),
    (&[], "freeze i8 %b"),
    (&[2], "call void @w()"),
    (&[2], "call i8 @v()"),
    (&[2], "call void @b(i8 %b)"),
    (&[2], "call i32 @b(i8 %b)"),
    (&[2], "call ptr @b(i8 %b)"),
    (&[2], "call [2 x i8] @r()"),
    (&[2], "call i8 @b()"),
    (&[2], "call i8 @b(i8 %b, i8 %b)"),
    (&[2], "call i8 @b(i32 %n)"),
    (&[2], "call i8 @b(ptr %p)"),
    (&[2], "call void @q(i32 %n, ptr %p)"),
    (&[2], "call void @q(ptr %p)"),
    (&[2], "call void @v(i8 %b)"),
    // Types of parameters that are written are those of the arguments.
    (&[], "call void () @v()"),
    (&[], "call i8 (i8) @b(i8 %b)"),
    (&[], "call void (ptr, i32) @q(ptr %p, i32 %n)"),
    (&[2], "call i8 (i32) @b(i8 %b)"),
    (&[2], "call i8 () @b(i8 %b)"),
    (&[2], "call i8 (i8, i8) @b(i8 %b)"),
    (&[2], "call i8 ({ i8 }) @b(i8 %b)"),
    // Arguments are of their types.
    (&[], "call i8 @b(i8 300)"),
    (&[], "call i8 @b(i8 undef)"),
    (&[], "call void @q(ptr null, i32 poison)"),
    (&[2], "call i8 @b(i8 %n)"),
    (&[2], "call i8 @b(i8 null)"),
    (&[2], "call i8 @b(i8 %w)"),
    (&[2], "call void @q(ptr 0, i32 1)"),
    // A call of `void` has no result.
    (&[], "%x = call i8 @b(i8 %b)"),
    (&[2], "%x = call void @v()"),
];

/// Declarations of intrinsics on line 1, and their calls on line 2, with that line where they break a rule.
const INTRINSICS: &[(&[u32], &str, &str)] = &[
    // A function of integers is of one width from 1 to 64.
    (
        &[],
        "declare i1 @llvm.ctpop.i1(i1)",
        "call i1 @llvm.ctpop.i1(i1 %c)",
    ),
    (
        &[],
        "declare i8 @llvm.ctpop.i8(i8)",
        "call i8 @llvm.ctpop.i8(i8 %b)",
    ),
    (
        &[],
        "declare i64 @llvm.ctpop.i64(i64)",
        "call i64 @llvm.ctpop.i64(i64 %l)",
    ),
    (
        &[2],
        "declare i32 @llvm.ctpop.i8(i32)",
        "call i32 @llvm.ctpop.i8(i32 %n)",
    ),
    (
        &[2],
        "declare i8 @llvm.ctpop.i32(i32)",
        "call i8 @llvm.ctpop.i32(i32 %n)",
    ),
    (
        &[2],
        "declare i32 @llvm.ctpop.i8(i8)",
        "call i32 @llvm.ctpop.i8(i8 %b)",
    ),
    (
        &[2],
        "declare void @llvm.ctpop.i8(i8)",
        "call void @llvm.ctpop.i8(i8 %b)",
    ),
    (
        &[2],
        "declare i8 @llvm.ctpop.i8(i8, i8)",
        "call i8 @llvm.ctpop.i8(i8 %b, i8 %b)",
    ),
    (
        &[2],
        "declare i8 @llvm.ctpop.i8()",
        "call i8 @llvm.ctpop.i8()",
    ),
    // The call fits its declaration, too.
    (
        &[2],
        "declare i32 @llvm.ctpop.i8(i32)",
        "call i8 @llvm.ctpop.i8(i8 %b)",
    ),
    // `bswap` has a width that is a multiple of 16.
    (
        &[],
        "declare i16 @llvm.bswap.i16(i16)",
        "call i16 @llvm.bswap.i16(i16 1)",
    ),
    (
        &[],
        "declare i48 @llvm.bswap.i48(i48)",
        "call i48 @llvm.bswap.i48(i48 1)",
    ),
    (
        &[],
        "declare i64 @llvm.bswap.i64(i64)",
        "call i64 @llvm.bswap.i64(i64 %l)",
    ),
    (
        &[2],
        "declare i8 @llvm.bswap.i8(i8)",
        "call i8 @llvm.bswap.i8(i8 %b)",
    ),
    (
        &[2],
        "declare i24 @llvm.bswap.i24(i24)",
        "call i24 @llvm.bswap.i24(i24 1)",
    ),
    // The flag of others is a constant.
    (
        &[],
        "declare i8 @llvm.ctlz.i8(i8, i1)",
        "call i8 @llvm.ctlz.i8(i8 %b, i1 true)",
    ),
    (
        &[],
        "declare i8 @llvm.cttz.i8(i8, i1)",
        "call i8 @llvm.cttz.i8(i8 %b, i1 false)",
    ),
    (
        &[],
        "declare i8 @llvm.abs.i8(i8, i1)",
        "call i8 @llvm.abs.i8(i8 %b, i1 2)",
    ),
    (
        &[2],
        "declare i8 @llvm.ctlz.i8(i8, i1)",
        "call i8 @llvm.ctlz.i8(i8 %b, i1 %c)",
    ),
    (
        &[2],
        "declare i8 @llvm.cttz.i8(i8, i1)",
        "call i8 @llvm.cttz.i8(i8 %b, i1 undef)",
    ),
    (
        &[2],
        "declare i8 @llvm.abs.i8(i8, i1)",
        "call i8 @llvm.abs.i8(i8 %b, i1 poison)",
    ),
    (
        &[2],
        "declare i8 @llvm.abs.i8(i8)",
        "call i8 @llvm.abs.i8(i8 %b)",
    ),
    (
        &[2],
        "declare i8 @llvm.ctlz.i8(i8, i8)",
        "call i8 @llvm.ctlz.i8(i8 %b, i8 1)",
    ),
    // Three numbers, and two.
    (
        &[],
        "declare i8 @llvm.fshl.i8(i8, i8, i8)",
        "call i8 @llvm.fshl.i8(i8 1, i8 %b, i8 %b)",
    ),
    (
        &[],
        "declare i8 @llvm.fshr.i8(i8, i8, i8)",
        "call i8 @llvm.fshr.i8(i8 1, i8 %b, i8 %b)",
    ),
    (
        &[2],
        "declare i8 @llvm.fshr.i8(i8, i8)",
        "call i8 @llvm.fshr.i8(i8 1, i8 %b)",
    ),
    (
        &[2],
        "declare i8 @llvm.fshl.i8(i8, i8, i32)",
        "call i8 @llvm.fshl.i8(i8 1, i8 %b, i32 %n)",
    ),
    (
        &[],
        "declare i8 @llvm.smax.i8(i8, i8)",
        "call i8 @llvm.smax.i8(i8 %b, i8 1)",
    ),
    (
        &[],
        "declare i8 @llvm.smin.i8(i8, i8)",
        "call i8 @llvm.smin.i8(i8 %b, i8 1)",
    ),
    (
        &[],
        "declare i8 @llvm.umax.i8(i8, i8)",
        "call i8 @llvm.umax.i8(i8 %b, i8 1)",
    ),
    (
        &[],
        "declare i8 @llvm.umin.i8(i8, i8)",
        "call i8 @llvm.umin.i8(i8 %b, i8 1)",
    ),
    (
        &[2],
        "declare i8 @llvm.smax.i8(i8)",
        "call i8 @llvm.smax.i8(i8 %b)",
    ),
    (
        &[2],
        "declare i8 @llvm.umin.i8(i8, i32)",
        "call i8 @llvm.umin.i8(i8 %b, i32 %n)",
    ),
    (&[], "declare void @llvm.trap()", "call void @llvm.trap()"),
    (&[2], "declare i8 @llvm.trap()", "call i8 @llvm.trap()"),
    (
        &[2],
        "declare void @llvm.trap(i8)",
        "call void @llvm.trap(i8 %b)",
    ),
    (
        &[2],
        "declare void @llvm.memset.p0.i64(ptr, i32, i64, i1)",
        "call void @llvm.memset.p0.i64(ptr %p, i32 0, i64 1, i1 false)",
    ),
    (
        &[2],
        "declare void @llvm.memcpy.p0.p0.i64(ptr, ptr, i64)",
        "call void @llvm.memcpy.p0.p0.i64(ptr %p, ptr %p, i64 1)",
    ),
    (
        &[2],
        "declare ptr @llvm.memmove.p0.p0.i64(ptr, ptr, i64, i1)",
        "call ptr @llvm.memmove.p0.p0.i64(ptr %p, ptr %p, i64 1, i1 false)",
    ),
];

/// The declarations of the memory intrinsics, and the head of a function that calls them, on line 1.
const MEMORY_HEAD: &str =
    "declare void @llvm.memcpy.p0.p0.i64(ptr, ptr, i64, i1) declare void @llvm.memmove.p0.p0.i64(ptr, ptr, i64, i1) declare void @llvm.memset.p0.i64(ptr, i8, i64, i1) define void @f(i1 %c, i64 %l, ptr %p) { a:\n";

/// The beginnings of calls, their ends, and the line of the call, which is 2, where it breaks a rule.
const MEMORY: &[(&[u32], &str, &str)] = &[
    // The length is a constant of at most 256 bytes.
    (&[], SET_8, "i64 0, i1 false)"),
    (&[], SET_8, "i64 256, i1 false)"),
    (&[2], SET_8, "i64 257, i1 false)"),
    (&[2], SET_8, "i64 -1, i1 false)"),
    (&[], SET_8, "i64 18446744073709551616, i1 false)"),
    (&[2], SET_8, "i64 %l, i1 false)"),
    (&[2], SET_8, "i64 undef, i1 false)"),
    // The flag is false.
    (&[], SET_8, "i64 1, i1 0)"),
    (&[], SET_8, "i64 1, i1 -2)"),
    (&[2], SET_8, "i64 1, i1 true)"),
    (&[2], SET_8, "i64 1, i1 1)"),
    (&[2], SET_8, "i64 1, i1 3)"),
    (&[2], SET_8, "i64 1, i1 %c)"),
    (&[2], SET_8, "i64 1, i1 undef)"),
    // At most 64 pieces, at the alignment of what is set, or at the lesser one of a copy.
    (
        &[],
        "call void @llvm.memset.p0.i64(ptr align 4 %p, i8 0, ",
        "i64 256, i1 false)",
    ),
    (
        &[],
        "call void @llvm.memset.p0.i64(ptr align 2 %p, i8 0, ",
        "i64 128, i1 false)",
    ),
    (
        &[2],
        "call void @llvm.memset.p0.i64(ptr align 2 %p, i8 0, ",
        "i64 129, i1 false)",
    ),
    (
        &[],
        "call void @llvm.memset.p0.i64(ptr %p, i8 0, ",
        "i64 64, i1 false)",
    ),
    (
        &[2],
        "call void @llvm.memset.p0.i64(ptr %p, i8 0, ",
        "i64 65, i1 false)",
    ),
    (
        &[],
        "call void @llvm.memcpy.p0.p0.i64(ptr align 8 %p, ptr align 16 %p, ",
        "i64 255, i1 false)",
    ),
    (
        &[],
        "call void @llvm.memcpy.p0.p0.i64(ptr align 8 %p, ptr align 2 %p, ",
        "i64 128, i1 false)",
    ),
    (
        &[2],
        "call void @llvm.memcpy.p0.p0.i64(ptr align 8 %p, ptr align 2 %p, ",
        "i64 129, i1 false)",
    ),
    (
        &[],
        "call void @llvm.memmove.p0.p0.i64(ptr %p, ptr align 8 %p, ",
        "i64 64, i1 false)",
    ),
    (
        &[2],
        "call void @llvm.memmove.p0.p0.i64(ptr %p, ptr align 8 %p, ",
        "i64 65, i1 false)",
    ),
    (
        &[2],
        "call void @llvm.memmove.p0.p0.i64(ptr align 8 %p, ptr %p, ",
        "i64 65, i1 false)",
    ),
    (
        &[2],
        "call void @llvm.memcpy.p0.p0.i64(ptr %p, ptr %p, ",
        "i64 1, i1 true)",
    ),
    (
        &[2],
        "call void @llvm.memmove.p0.p0.i64(ptr %p, ptr %p, ",
        "i64 %l, i1 false)",
    ),
    // Alignments are powers of two from 1 to 2^63.
    (
        &[],
        "call void @llvm.memset.p0.i64(ptr align 9223372036854775808 %p, i8 0, ",
        "i64 1, i1 false)",
    ),
    (
        &[2],
        "call void @llvm.memset.p0.i64(ptr align 0 %p, i8 0, ",
        "i64 1, i1 false)",
    ),
    (
        &[2],
        "call void @llvm.memset.p0.i64(ptr align 3 %p, i8 0, ",
        "i64 1, i1 false)",
    ),
    (
        &[2],
        "call void @llvm.memcpy.p0.p0.i64(ptr %p, ptr align 9223372036854775809 %p, ",
        "i64 1, i1 false)",
    ),
];

/// The beginning of a call that sets bytes at an address that is a multiple of 8.
const SET_8: &str = "call void @llvm.memset.p0.i64(ptr align 8 %p, i8 0, ";

/// What stands behind a call.
const TAIL: &str = "\nret void }\n";

/// The lines of the calls that break a rule.
fn broken_lines(alloc: Global, module: &Module) -> Result<Vec<u32>, AllocError> {
    let ends = AliasEnds::new(alloc, module)?;
    let mut found = Vec::new(alloc);
    push_call_lines(alloc, &ends, &mut found)?;
    Ok(found)
}

/// Whether the lines of the calls that break a rule in a text of these pieces are these.
fn is_told_of(alloc: Global, pieces: &[Piece], lines: &[u32]) -> bool {
    match read_pieces(alloc, pieces) {
        Some(module) => match broken_lines(alloc, &module) {
            Ok(found) => found.as_slice() == lines,
            Err(_) => false,
        },
        None => false,
    }
}

#[test]
fn calls_agree_with_functions(rt: HostRuntime) {
    for (lines, text) in CALLS {
        let pieces: [Piece; 3] = [(1, HEAD), (1, text), (1, TAIL)];
        assert!(rt; is_told_of(rt.alloc(), &pieces, lines), "{text:?}");
    }
}

#[test]
fn intrinsics_have_their_types(rt: HostRuntime) {
    for (lines, declaration, text) in INTRINSICS {
        let pieces: [Piece; 5] = [(1, declaration), (1, " "), (1, HEAD), (1, text), (1, TAIL)];
        assert!(rt; is_told_of(rt.alloc(), &pieces, lines), "{text:?}");
    }
}

#[test]
fn memory_intrinsics_are_small(rt: HostRuntime) {
    for (lines, begin, end) in MEMORY {
        let pieces: [Piece; 4] = [(1, MEMORY_HEAD), (1, begin), (1, end), (1, TAIL)];
        assert!(rt; is_told_of(rt.alloc(), &pieces, lines), "{begin:?}{end:?}");
    }
}
