//! Modules, and their assembly.
use crate::memory::{Row, wrong_assembly};

/// A function that returns its second argument.
pub(crate) const ARGUMENT: &str = "define i64 @a(i64 %x, i64 %y) {\n  ret i64 %y\n}\n";

/// Its assembly.
const SECOND: &str =
    "#--- part 0\n\t.text\n\t.globl\ta\n\t.p2align\t2\na:\n\tmv\tt0, a0\n\tmv\tt0, a1\n\tmv\ta0, t0\n\tret\n";

/// Modules, and their assembly.
const COMPILED: &[Row] = &[
    ("", "#--- part 0\n"),
    (ARGUMENT, SECOND),
    (
        "define i32 @a() {\n  ret i32 -7\n}\n",
        "#--- part 0\n\t.text\n\t.globl\ta\n\t.p2align\t2\na:\n\tli\tt0, -7\n\tmv\ta0, t0\n\tret\n",
    ),
    (
        "define i64 @a() {\n  ret i64 2047\n}\n",
        "#--- part 0\n\t.text\n\t.globl\ta\n\t.p2align\t2\na:\n\tli\tt0, 2047\n\tmv\ta0, t0\n\tret\n",
    ),
    (
        "define i64 @a(i64 %x) {\n  ret i64 0\n}\n",
        "#--- part 0\n\t.text\n\t.globl\ta\n\t.p2align\t2\na:\n\tmv\tt0, a0\n\tli\ta0, 0\n\tret\n",
    ),
    // What the grammar drops changes no assembly.
    (
        "define i64 @a(i64 noundef %x, i64 noundef %y) { ret i64 %y }",
        SECOND,
    ),
    (
        "define i64 @a(i64 %x, i64 %y) {\r\n  ret i64 %y\r\n}\r\n",
        SECOND,
    ),
    ("define i64 @a(i64 %0, i64) {\n  ret i64 %1\n}", SECOND),
    (
        "define dso_local i64 @\"a\"(i64 %\"x y\", i64 %\"\\ff\") #0 {\nentry:\n  ret i64 %\"\\FF\", !dbg !0\n}\nattributes #0 = { nounwind }\n!0 = !{}\n",
        SECOND,
    ),
    (
        "source_filename = \"a.c\"\ntarget triple = \"riscv64\"\n%s = type { %t, [4 x i8] }\n%t = type <{ i8, ptr }>\ndefine i64 @a(i64 %x, i64 %y) {\n  ret i64 %y\n}\n",
        SECOND,
    ),
    (
        "declare void @b(ptr, i1 zeroext)\ndeclare void @__host_put(i32)\ndeclare i32 @__host_get()\ndefine i64 @a(i64 %x, i64 %y) {\n  ret i64 %y\n}\n",
        SECOND,
    ),
    (
        "define i64 @a(i64 %x, i64 %y) {\n  call void @llvm.dbg.value(metadata i64 %x, metadata !1, metadata !DIExpression()), !dbg !2\n  ret i64 %y\n}\ndeclare void @llvm.dbg.value(metadata, metadata, metadata)\n!1 = !{}\n!2 = !{}\n",
        SECOND,
    ),
];

#[test]
fn modules_compile_to_their_assembly(rt: HostRuntime) {
    assert_eq!(rt; wrong_assembly(rt.alloc(), COMPILED), 0);
}
