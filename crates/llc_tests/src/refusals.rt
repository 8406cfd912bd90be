//! Texts that are refused, and what is told of them.
use crate::memory::{COMPILE, Row, answers, tells};
use llc_top::Status;
use std::alloc::Global;

/// The first line is not built yet.
const AT_1: &str = "llc: refused 18 NotYet 1\n";

/// The second line defines a name again.
const REPEATED_2: &str = "llc: refused 6 Repeated 2\n";

/// The first line breaks a rule on types.
const TYPE_RULE_1: &str = "llc: refused 8 TypeRule 1\n";

/// The second line does.
const TYPE_RULE_2: &str = "llc: refused 8 TypeRule 2\n";

/// The second line is the first that is not built yet.
const AT_2: &str = "llc: refused 18 NotYet 2\n";

/// The fourth line is the first that is not built yet.
const AT_4: &str = "llc: refused 18 NotYet 4\n";

/// Texts, and what is told of them.
const REFUSED: &[Row] = &[
    // Not read.
    (
        "\x01define void @a(<4 x i32> %x) {\n",
        "llc: refused 2 Lex 1\n",
    ),
    (
        "define void @a(<4 x i32> %x) {\n",
        "llc: refused 3 Unsupported 1 <\n",
    ),
    ("\nalloca", "llc: refused 3 Unsupported 2 alloca\n"),
    (
        "define i64 @a() {\n  %x = add alloca",
        "llc: refused 4 Form 2\n",
    ),
    (
        "define i64 @a(i64 %x) {\n  %y = add i64 %x\n",
        "llc: refused 4 Form 2\n",
    ),
    (
        "define i64 @a() {\n  ret i64 +7\n}\n",
        "llc: refused 2 Lex 2\n",
    ),
    (
        "define i64 @a() {\n  ret i64 %y\n}\n",
        "llc: refused 5 Name 2\n",
    ),
    (
        "define i64 @a(i64 %1) {\n  ret i64 0\n}\n",
        "llc: refused 5 Name 1\n",
    ),
    (
        "%4294967296 = type { i8 }\n%a = type { %4294967297 }\n",
        "llc: refused 5 Name 2\n",
    ),
    // Names that are defined twice.
    (
        "define i64 @a() {\n  ret i64 0\n}\ndefine i64 @a() {\n  ret i64 0\n}\n",
        "llc: refused 6 Repeated 4\n",
    ),
    (
        "define i64 @a(i64 %x,\n  i64 %x) {\n  ret i64 0\n}\n",
        REPEATED_2,
    ),
    ("define i64 @a(i64 %x) {\nx:\n  ret i64 0\n}\n", REPEATED_2),
    ("declare void @a(i64 %x,\n  i64 %x)\n", REPEATED_2),
    ("%t = type { i8 }\n%t = type { i8 }\n", REPEATED_2),
    (
        "@a = global i8 0\ndefine void @a() {\n  ret void\n}\n",
        REPEATED_2,
    ),
    ("declare void @a()\n@a = global i8 0\n", REPEATED_2),
    ("@b = global i8 0\n@b = alias i8, ptr @b\n", REPEATED_2),
    // Names that no item may have: the first of them in the text, where none is defined twice.
    (
        "define void @_start() {\n  ret void\n}\n",
        "llc: refused 7 Reserved _start\n",
    ),
    (
        "define i64 @__host_a() {\n  ret i64 0\n}\n",
        "llc: refused 7 Reserved __host_a\n",
    ),
    (
        "@llvm.ctpop.i8 = global i8 0\n",
        "llc: refused 7 Reserved llvm.ctpop.i8\n",
    ),
    (
        "define i64 @.LBB0a() {\n  ret i64 0\n}\n",
        "llc: refused 7 Reserved .LBB0a\n",
    ),
    (
        "define i64 @a() {\n  ret i64 0\n}\ndeclare void @.LBB7()\n",
        "llc: refused 7 Reserved .LBB7\n",
    ),
    (
        "@a = alias i8, ptr @_start\n@_start = global i8 0\n@\"__host_ b\" = global i8 0\n",
        "llc: refused 7 Reserved _start\n",
    ),
    (
        "declare void @a()\n@\"__host_ b\" = global i8 0\ndefine void @_start() {\n  ret void\n}\n",
        "llc: refused 7 Reserved \"__host_ b\"\n",
    ),
    (
        "define void @_start() {\n  ret void\n}\n@a = global i8 0\n@a = global i8 0\n",
        "llc: refused 6 Repeated 5\n",
    ),
    // Types that do not agree, or have no size; a function of the host of another type.
    ("define i64 @a() {\n  ret i32 0\n}\n", TYPE_RULE_2),
    ("define i64 @a(i32 %x) {\n  ret i64 %x\n}\n", TYPE_RULE_2),
    ("%u = type { i8 }\n%t = type { [2 x %t] }\n", TYPE_RULE_2),
    ("%t = type { [4294967295 x i16] }\n", TYPE_RULE_1),
    ("declare [2 x i64] @a()\n", TYPE_RULE_1),
    ("declare void @a({ i64 })\n", TYPE_RULE_1),
    ("declare void @__host_put(i64)\n", TYPE_RULE_1),
    ("declare i32 @__host_get(i32)\n", TYPE_RULE_1),
    ("\n@__host_get = external global i8\n", TYPE_RULE_2),
    ("@g = global i8 0, align 3\n", TYPE_RULE_1),
    ("@g = global i8 0\n@h = global ptr 0\n", TYPE_RULE_2),
    (
        "define void @f() {\n  call void @g(i8 0)\n  ret void\n}\ndeclare void @g(i16)\n",
        TYPE_RULE_2,
    ),
    ("define ptr @f() {\n  ret ptr @f\n}\n", TYPE_RULE_2),
    (
        "@g = global i8 0\n@x = global ptr getelementptr ({ i8 }, ptr @g, i64 0, i32 1)\n",
        TYPE_RULE_2,
    ),
    // The least of several lines.
    (
        "define i64 @a() {\n  ret i32 0\n}\n@g = global i8 0, align 3\n",
        TYPE_RULE_2,
    ),
    // A use that some path reaches before its definition, a phi and a terminator that do not fit.
    (
        "define i32 @a(i1 %c) {\ne:\n  br i1 %c, label %t, label %j\nt:\n  %v = add i32 1, 2\n  br label %j\nj:\n  ret i32 %v\n}\n",
        "llc: refused 9 FlowRule 8\n",
    ),
    (
        "define i32 @a(i1 %c) {\ne:\n  br label %t\nt:\n  %v = add i32 1, 2\n  br label %j\nj:\n  ret i32 0\n}\n",
        AT_1,
    ),
    (
        "define void @a() {\ne:\n  br label %e\n}\n",
        "llc: refused 9 FlowRule 3\n",
    ),
    (
        "define i8 @a() {\n  br label %b\nb:\n  %p = phi i8 [ 1, %b ]\n  ret i8 %p\n}\n",
        "llc: refused 9 FlowRule 4\n",
    ),
    // Aliases that come to no definition, or are too far from it.
    (
        "@x = alias i8, ptr @y\n@y = alias i8, ptr @x\n",
        "llc: refused 10 AliasRule x\n",
    ),
    (
        "@g = global i8 0\n@x = alias i8, getelementptr (i8, ptr @g, i64 536870912)\n",
        "llc: refused 10 AliasRule x\n",
    ),
    (
        "@g = global i8 0\n@x = alias i8, getelementptr (i8, ptr @g, i64 536870911)\n",
        AT_1,
    ),
    (
        "declare void @b()\n@\"a b\" = alias void (), ptr @b\n",
        "llc: refused 10 AliasRule \"a b\"\n",
    ),
    // Limits.
    (
        "%t = type { i8 }\ndeclare void @a(i8, i8, i8, i8, i8, i8, i8, i8, i8, i8, i8, i8, i8, i8, i8, i8, i8, i8, i8, i8, i8, i8, i8, i8, i8, i8, i8, i8, i8, i8, i8, i8, i8, i8, i8, i8, i8, i8, i8, i8, i8, i8, i8, i8, i8, i8, i8, i8, i8, i8, i8, i8, i8, i8, i8, i8, i8, i8, i8, i8, i8, i8, i8, i8, i8)\n",
        "llc: refused 11 Count Arguments\n",
    ),
    // Not built.
    ("define i64 @a() {\n  ret i64 2048\n}\n", AT_2),
    ("define i64 @a() {\n  ret i64 -2049\n}\n", AT_2),
    ("define i64 @a() {\n  ret i64 undef\n}\n", AT_2),
    ("define i64 @a() {\nentry:\n  unreachable\n}\n", AT_2),
    (
        "define i64 @a() {\n  br label %b\nb:\n  ret i64 0\n}\n",
        AT_2,
    ),
    (
        "define i64 @a(i64 %x) {\n  %y = add i64 %x, 1\n  ret i64 %y\n}\n",
        AT_2,
    ),
    ("define void @a() {\n  ret void\n}\n", AT_1),
    ("define i8 @a() {\n  ret i8 0\n}\n", AT_1),
    ("define i64 @a(i32 %x) {\n  ret i64 0\n}\n", AT_1),
    ("\ndefine internal i64 @a() {\n  ret i64 0\n}\n", AT_2),
    ("define hidden i64 @a() {\n  ret i64 0\n}\n", AT_1),
    (
        "define i64 @a(i64, i64, i64, i64, i64, i64, i64, i64, i64) {\n  ret i64 0\n}\n",
        AT_1,
    ),
    ("define i64 @\"a b\"() {\n  ret i64 0\n}\n", AT_1),
    ("define i64 @0() {\n  ret i64 0\n}\n", AT_1),
    ("@a = global i64 0\n", AT_1),
    ("@a = external global i64\n", AT_1),
    (
        "\n\n\n@a = external global ptr\n\n@b = external global ptr\n",
        AT_4,
    ),
];

/// The number of the first text that is not refused so, or 0.
fn wrong_refusal(alloc: Global) -> usize {
    for at in 0..REFUSED.len() {
        let (text, told) = REFUSED[at];
        if !tells(alloc, COMPILE, text, Status::Refused, told) {
            return at + 1;
        }
    }
    0
}

#[test]
fn texts_are_refused_by_line(rt: HostRuntime) {
    assert_eq!(rt; wrong_refusal(rt.alloc()), 0);
}

#[test]
fn other_bytes_than_text_are_refused(rt: HostRuntime) {
    let told = (b"".as_slice(), b"llc: refused 2 Lex 1\n".as_slice());
    assert!(rt; answers(rt.alloc(), COMPILE, b"\xff\xfe\n", Status::Refused, told));
}
