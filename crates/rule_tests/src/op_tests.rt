//! Instructions, phis and terminators that keep each rule on types, and that break it.
use check_tests::modules::{Piece, read_pieces};
use ir_op_rules::push_op_lines;
use ir_syntax::Module;
use std::alloc::Global;

/// The head of a function, on line 1, and its first block: an integer of each of three widths, and a pointer.
const HEAD: &str = "define void @f(i1 %c, i8 %b, i32 %n, ptr %p) { a:\n";

/// Instructions on line 2, with that line for each kind of rule that they break.
const INSTRS: &[(&[u32], &str)] = &[
    // Binary operations take two integers of their type.
    (&[], "add i8 %b, 300"),
    (&[], "add nsw i1 %c, true"),
    (&[2], "add i8 %b, %n"),
    (&[2], "sub i8 %n, %b"),
    (&[2], "mul ptr %p, %p"),
    (&[2], "shl ptr undef, poison"),
    (&[2], "add i8 %b, true"),
    (&[], "udiv exact i32 %n, poison"),
    (&[2], "udiv i32 %n, %b"),
    (&[2], "lshr i32 null, 1"),
    (&[], "xor i32 undef, %n"),
    (&[2], "xor i32 %c, %n"),
    (&[2], "and i32 %n, @f"),
    // An array is no value's type.
    (&[2], "add [2 x i8] undef, undef"),
    // A comparison takes two integers or two pointers.
    (&[], "icmp eq i8 %b, 1"),
    (&[], "icmp eq ptr %p, null"),
    (&[2], "icmp eq ptr %p, 0"),
    (&[2], "icmp ult i8 %b, %n"),
    (&[2], "icmp eq { i8 } undef, undef"),
    // A choice has a condition, and two values of one type.
    (&[], "select i1 %c, i8 %b, i8 1"),
    (&[], "select i1 true, ptr %p, ptr null"),
    (&[2], "select i8 %b, i8 %b, i8 1"),
    (&[2], "select i1 %b, i8 %b, i8 1"),
    (&[2], "select i1 %c, i8 %b, i32 %n"),
    (&[2], "select i1 %c, i8 %n, i8 1"),
    (&[2], "select i1 %c, i8 1, i8 %n"),
    (&[2], "select i1 %c, { i8 } undef, { i8 } undef"),
    // Conversions change widths as they say.
    (&[], "trunc i32 %n to i8"),
    (&[2], "trunc i32 %n to i32"),
    (&[2], "trunc i8 %b to i32"),
    (&[2], "trunc i32 %b to i8"),
    (&[2], "trunc i32 %n to ptr"),
    (&[], "zext i8 %b to i9"),
    (&[2], "zext i8 %b to i8"),
    (&[2], "zext i8 %b to i7"),
    (&[2], "zext ptr %p to i64"),
    (&[], "sext i1 %c to i32"),
    (&[2], "sext i32 %n to i32"),
    (&[2], "sext i32 %n to [2 x i32]"),
    (&[], "ptrtoint ptr %p to i8"),
    (&[2], "ptrtoint i32 %n to i64"),
    (&[2], "ptrtoint ptr %p to ptr"),
    (&[2], "ptrtoint ptr %n to i64"),
    (&[], "inttoptr i32 %n to ptr"),
    (&[2], "inttoptr ptr %p to ptr"),
    (&[2], "inttoptr i32 %n to i64"),
    (&[2], "inttoptr i32 %p to ptr"),
    (&[], "bitcast i32 %n to i32"),
    (&[], "bitcast ptr %p to ptr"),
    (&[2], "bitcast i32 %n to i8"),
    (&[2], "bitcast ptr %p to i64"),
    (&[2], "bitcast [1 x i8] undef to [1 x i8]"),
    (&[], "freeze i8 %b"),
    (&[2], "freeze i8 %n"),
    (&[2], "freeze [1 x i8] undef"),
    // An address is a pointer, and indices are integers.
    (&[], "getelementptr i8, ptr %p, i32 %n, i64 1"),
    (&[2], "getelementptr i8, i64 0, i32 %n"),
    (&[2], "getelementptr i8, ptr %n, i32 %n"),
    (&[2], "getelementptr i8, ptr %p, i32 %b"),
    (&[2], "getelementptr i8, ptr %p, ptr %p"),
    // Alignments of accesses are powers of two up to 2^63.
    (&[], "load i8, ptr %p"),
    (&[], "load i8, ptr %p, align 1"),
    (&[], "load i8, ptr %p, align 9223372036854775808"),
    (&[2], "load i8, ptr %p, align 0"),
    (&[2], "load i8, ptr %p, align 3"),
    (&[2], "load i8, ptr %p, align -1"),
    (&[2], "load i8, ptr %p, align 9223372036854775809"),
    (&[2], "load i8, ptr %p, align 18446744073709551616"),
    (&[2], "load [2 x i8], ptr %p"),
    (&[2], "load i8, i64 0"),
    (&[2], "load i8, ptr %n"),
    (&[], "store i8 %b, ptr %p, align 9223372036854775808"),
    (&[2], "store i8 %b, ptr %p, align 0"),
    (&[2], "store i8 %b, ptr %p, align 9223372036854775809"),
    (&[2], "store i8 %n, ptr %p"),
    (&[2], "store i8 %b, ptr %b"),
    (&[2], "store i8 %b, i8 %b"),
    (&[2], "store [2 x i8] undef, ptr %p"),
    // A store has no result.
    (&[2], "%s = store i8 %b, ptr %p"),
    // Those of an alloca are up to 16, and its number of elements is an integer.
    (&[], "alloca i8, align 16"),
    (&[2], "alloca i8, align 32"),
    (&[2], "alloca i8, align 0"),
    (&[], "alloca i8, i8 3"),
    // It takes at most 4,294,967,295 bytes: the number as one of its type, each element with its alignment.
    (&[], "alloca i8, i64 4294967295"),
    (&[2], "alloca i8, i64 4294967296"),
    (&[2], "alloca i8, i64 -1"),
    (&[2], "alloca i8, i32 -1, align 32"),
    (&[], "alloca i8, i32 -1"),
    (&[], "alloca i8, i32 4294967296"),
    (&[], "alloca i17, i64 1073741823"),
    (&[2], "alloca i17, i64 1073741824"),
    (&[], "alloca {}, i64 -1"),
    (&[], "alloca [4294967295 x i8]"),
    (&[2], "alloca [4294967295 x i8], i8 2"),
    // Types have sizes, those in constant addresses too.
    (&[2], "alloca [4294967295 x i16]"),
    (&[2], "alloca %q"),
    (&[], "getelementptr [4294967295 x i8], ptr %p, i32 %n"),
    (&[2], "getelementptr [4294967295 x i16], ptr %p, i32 %n"),
    (
        &[2],
        "freeze ptr getelementptr ([4294967295 x i16], ptr @f, i64 0)",
    ),
    (
        &[],
        "freeze ptr getelementptr ([4294967295 x i8], ptr @f, i64 0)",
    ),
    (&[2, 2], "load [4294967295 x i16], ptr %p"),
];

/// What stands behind an instruction.
const TAIL: &str = "\nret void }\n%q = type { %q }\n";

/// Terminators on line 2 of a function, with that line for each kind of rule that they break.
const TERMS: &[(&[u32], &str)] = &[
    (&[], "ret void"),
    (&[2], "ret i8 %b"),
    (&[], "br label %a"),
    (&[], "unreachable"),
    // A branch is on a condition.
    (&[], "br i1 %c, label %a, label %a"),
    (&[2], "br i1 %b, label %a, label %a"),
    (&[2], "br i8 %b, label %a, label %a"),
    // A switch is on an integer, its cases are of its type, and they differ as numbers of it.
    (&[], "switch i8 %b, label %a [ ]"),
    (
        &[],
        "switch i8 %b, label %a [ i8 0, label %a i8 1, label %a ]",
    ),
    (&[2], "switch i8 %n, label %a [ i8 0, label %a ]"),
    (
        &[2],
        "switch i8 %b, label %a [ i8 0, label %a i32 1, label %a ]",
    ),
    (&[2, 2], "switch ptr %p, label %a [ ]"),
    (
        &[2],
        "switch i8 %b, label %a [ i8 7, label %a i8 7, label %a ]",
    ),
    (
        &[],
        "switch i8 %b, label %a [ i8 1, label %a i8 255, label %a ]",
    ),
    (
        &[2],
        "switch i8 %b, label %a [ i8 1, label %a i8 257, label %a ]",
    ),
    (
        &[2],
        "switch i8 %b, label %a [ i8 -1, label %a i8 255, label %a ]",
    ),
    (
        &[2],
        "switch i8 %b, label %a [ i8 -256, label %a i8 0, label %a ]",
    ),
    (
        &[],
        "switch i32 %n, label %a [ i32 -1, label %a i32 255, label %a ]",
    ),
    (
        &[2],
        "switch i64 undef, label %a [ i64 -1, label %a i64 18446744073709551615, label %a ]",
    ),
    (
        &[],
        "switch i64 undef, label %a [ i64 0, label %a i64 18446744073709551615, label %a ]",
    ),
];

/// Modules, and the lines of what breaks a rule in them.
const MODULES: &[(&str, &[u32])] = &[
    ("", &[]),
    // Results and parameters are values, of declared functions too.
    ("declare i8 @g(ptr, i64)\ndeclare void @h()", &[]),
    ("\ndeclare [2 x i8] @g()\ndeclare void @h({ i8 })", &[2, 3]),
    // What is returned is of the function's type.
    ("define i8 @g() {\nret i8 1 }", &[]),
    ("define i8 @g() {\nret void }", &[2]),
    ("define i8 @g() {\nret i32 1 }", &[2]),
    ("define i8 @g(ptr %p) {\nret i8 %p }", &[2]),
    // The values of a phi are of its type; blocks that nothing reaches count too.
    (
        "define void @g(i8 %b) { a: br label %b\nb:\n%x = phi i8 [ %b, %a ], [ %x, %b ]\nbr label %b }",
        &[],
    ),
    (
        "define void @g(i8 %b) { a: br label %b\nb:\n%x = phi i32 [ 0, %a ], [ %b, %b ]\nbr label %b }",
        &[3],
    ),
    (
        "define void @g() { a: ret void\nb:\n%x = phi [2 x i8] [ undef, %b ]\nbr label %b }",
        &[3],
    ),
    (
        "define void @g() { a: ret void\nb:\n%x = phi i8 [ undef, %b ]\n%y = freeze i32 %x\nbr i1 %x, label %b, label %b }",
        &[4, 5],
    ),
];

/// Whether the lines of what breaks a rule in a module are these.
fn breaks_at(alloc: Global, module: &Module, lines: &[u32]) -> bool {
    let mut found = Vec::new(alloc);
    match push_op_lines(alloc, module, &mut found) {
        Ok(()) => found.as_slice() == lines,
        Err(_) => false,
    }
}

/// The same of a text of these pieces.
fn is_told_of(alloc: Global, pieces: &[Piece], lines: &[u32]) -> bool {
    match read_pieces(alloc, pieces) {
        Some(module) => breaks_at(alloc, &module, lines),
        None => false,
    }
}

#[test]
fn instructions_keep_the_rules_on_types(rt: HostRuntime) {
    for (lines, text) in INSTRS {
        let pieces: [Piece; 3] = [(1, HEAD), (1, text), (1, TAIL)];
        assert!(rt; is_told_of(rt.alloc(), &pieces, lines), "{text:?}");
    }
}

#[test]
fn terminators_keep_the_rules_on_types(rt: HostRuntime) {
    for (lines, text) in TERMS {
        let pieces: [Piece; 3] = [(1, HEAD), (1, text), (1, " }\n")];
        assert!(rt; is_told_of(rt.alloc(), &pieces, lines), "{text:?}");
    }
}

#[test]
fn functions_keep_the_rules_on_types(rt: HostRuntime) {
    for (text, lines) in MODULES {
        assert!(rt; is_told_of(rt.alloc(), &[(1, text)], lines), "{text:?}");
    }
}
