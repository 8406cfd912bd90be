//! Types, and the brackets that stand inside each other.

/// Whole texts, and what is told of them.
pub(crate) const TYPES: &str = r#"
Items 1: @a = alias i8 ({{{{{{{{{{{{{{{{{{{{{{{{{{{{{{{{{{{{{{{{{{{{{{{{{{{{{{{{{{{{{{{{}}}}}}}}}}}}}}}}}}}}}}}}}}}}}}}}}}}}}}}}}}}}}}}}}}}}}}}}}}}}}}}}), ptr @b
Items 1: @a = alias i8, getelementptr ({{{{{{{{{{{{{{{{{{{{{{{{{{{{{{{{{{{{{{{{{{{{{{{{{{{{{{{{{{{{{{{{}}}}}}}}}}}}}}}}}}}}}}}}}}}}}}}}}}}}}}}}}}}}}}}}}}}}}}}}}}}}}}}}, ptr @b)
Items 1: @a = external global %"b c"
Items 1: @a = external global %b
Form 1: @a = external global <{, i8}>
Form 1: @a = external global <{i8 ptr}>
Form 1: @a = external global <{i8,}>
Form 1: @a = external global <{i8} >
Unsupported 1 token: @a = external global <{token}>
Form 1: @a = external global @b
Form 1: @a = external global I8
Items 1: @a = external global [0 x [00000000001 x [4294967295 x ptr]]]
Form 1: @a = external global [2 X i8]
Form 1: @a = external global [2 x i8, i8]
Form 1: @a = external global [2 x i8}
Form 1: @a = external global [2 x void]
Form 1: @a = external global [2 x]
Form 1: @a = external global [2, i8]
Form 1: @a = external global [2.0 x i8]
Form 2: @a = external global [^340282366920938463463374607431768211455 x i8]
Form 1: @a = external global [ptr x 2]
Unsupported 1 vscale: @a = external global [vscale x 2 x i8]
Form 1: @a = external global [x i8]
Form 1: @a = external global i
Form 1: @a = external global i-8
Unsupported 1 i0: @a = external global i0
Unsupported 1 i00: @a = external global i00
Unsupported 1 i064: @a = external global i064
Unsupported 1 i100: @a = external global i100
Unsupported 1 i18446744073709551617: @a = external global i18446744073709551617
Items 4: @a = external global i1^@b = external global i9^@c = external global i63^@d = external global i64
Form 2: @a = external global i8^*
Form 1: @a = external global i8x
Unsupported 1 i99: @a = external global i99
Form 1: @a = external global label
Form 1: @a = external global metadata
Form 1: @a = external global ptr (i8)
Unsupported 1 addrspace: @a = external global ptr addrspace(1)
Form 1: @a = external global type
Form 1: @a = external global void
Form 1: @a = external global {, i8}
Unsupported 1 ...: @a = external global {...}
Unsupported 1 half: @a = external global {half}
Form 1: @a = external global {i8 %x}
Form 1: @a = external global {i8 1}
Form 1: @a = external global {i8,, i8}
Form 1: @a = external global {i8]
Items 4: @a = external global {}^@b = external global <{}>^@c = external global { i8 }^@d = external global <{ i8, %t, [1 x ptr] }>
Form 1: @a = global [1 x i8] [i8 {{{{{{{{{{{{{{{{{{{{{{{{{{{{{{{{{{{{{{{{{{{{{{{{{{{{{{{{{{{{{{{}}}}}}}}}}}}}}}}}}}}}}}}}}}}}}}}}}}}}}}}}}}}}}}}}}}}}}}}}}}}}}}, i8 {{{{{{{{{{{{{{{{{{{{{{{{{{{{{{{{{{{{{{{{{{{{{{{{{{{{{{{{{{{{{{{}}}}}}}}}}}}}}}}}}}}}}}}}}}}}}}}}}}}}}}}}}}}}}}}}}}}}}}}}}}}}}}]
Form 2: @a = global i8 <{i8 <{i8 <{i8 <{i8 <{i8 <{i8 <{i8 <{i8 <{i8 <{i8 <{i8 <{i8 <{i8 <{i8 <{i8 <{i8 <{i8 <{i8 <{i8 <{i8 <{i8 <{i8 <{i8 <{i8 <{i8 <{i8 <{i8 <{i8 <{i8 <{i8 <{i8 <{i8 <{i8 <{i8 <{i8 <{i8 <{i8 <{i8 <{i8 <{i8 <{i8 <{i8 <{i8 <{i8 <{i8 <{i8 <{i8 <{i8 <{i8 <{i8 <{i8 <{i8 <{i8 <{i8 <{i8 <{i8 <{i8 <{i8 <{i8 <{i8 <{i8 <{i8 <{i8 <{i8 ^[
Form 1: @a = global i8 [i8 [i8 [i8 [i8 [i8 [i8 [i8 [i8 [i8 [i8 [i8 [i8 [i8 [i8 [i8 [i8 [i8 [i8 [i8 [i8 [i8 [i8 [i8 [i8 [i8 [i8 [i8 [i8 [i8 [i8 [i8 [i8 [i8 [i8 [i8 [i8 [i8 [i8 [i8 [i8 [i8 [i8 [i8 [i8 [i8 [i8 [i8 [i8 [i8 [i8 [i8 [i8 [i8 [i8 [i8 [i8 [i8 [i8 [i8 [i8 [i8 [i8 [[1 x [1 x i8]] undef]]]]]]]]]]]]]]]]]]]]]]]]]]]]]]]]]]]]]]]]]]]]]]]]]]]]]]]]]]]]]]]
Items 1: @a = global i8 [i8 [i8 [i8 [i8 [i8 [i8 [i8 [i8 [i8 [i8 [i8 [i8 [i8 [i8 [i8 [i8 [i8 [i8 [i8 [i8 [i8 [i8 [i8 [i8 [i8 [i8 [i8 [i8 [i8 [i8 [i8 [i8 [i8 [i8 [i8 [i8 [i8 [i8 [i8 [i8 [i8 [i8 [i8 [i8 [i8 [i8 [i8 [i8 [i8 [i8 [i8 [i8 [i8 [i8 [i8 [i8 [i8 [i8 [i8 [i8 [i8 [i8 [[1 x i8] undef]]]]]]]]]]]]]]]]]]]]]]]]]]]]]]]]]]]]]]]]]]]]]]]]]]]]]]]]]]]]]]]
Form 3: @a = global i8 [i8 [i8 [i8 [i8 [i8 [i8 [i8 [i8 [i8 [i8 [i8 [i8 [i8 [i8 [i8 [i8 [i8 [i8 [i8 [i8 [i8 [i8 [i8 [i8 [i8 [i8 [i8 [i8 [i8 [i8 [i8 [i8 [i8 [i8 [i8 [i8 [i8 [i8 [i8 [i8 [i8 [i8 [i8 [i8 [i8 [i8 [i8 [i8 [i8 [i8 [i8 [i8 [i8 [i8 [i8 [i8 [i8 [i8 [i8 [i8 [i8 [i8 [^[1 x^[
Form 2: @a = global ptr getelementptr ({{{{{{{{{{{{{{{{{{{{{{{{{{{{{{{{{{{{{{{{{{{{{{{{{{{{{{{{{{{{{{{^{
Items 1: @a = global ptr getelementptr ({{{{{{{{{{{{{{{{{{{{{{{{{{{{{{{{{{{{{{{{{{{{{{{{{{{{{{{{{{{{{{{}}}}}}}}}}}}}}}}}}}}}}}}}}}}}}}}}}}}}}}}}}}}}}}}}}}}}}}}}}}}}}}, ptr @b)
Items 1: @a = global ptr {ptr {ptr {ptr {ptr {ptr {ptr {ptr {ptr {ptr {ptr {ptr {ptr {ptr {ptr {ptr {ptr {ptr {ptr {ptr {ptr {ptr {ptr {ptr {ptr {ptr {ptr {ptr {ptr {ptr {ptr {ptr {ptr {ptr {ptr {ptr {ptr {ptr {ptr {ptr {ptr {ptr {ptr {ptr {ptr {ptr {ptr {ptr {ptr {ptr {ptr {ptr {ptr {ptr {ptr {ptr {ptr {ptr {ptr {ptr {ptr {ptr {ptr {ptr getelementptr (i8, ptr @b)}}}}}}}}}}}}}}}}}}}}}}}}}}}}}}}}}}}}}}}}}}}}}}}}}}}}}}}}}}}}}}}
Items 1: @a = global {{{{{{{{{{{{{{{{{{{{{{{{{{{{{{{{{{{{{{{{{{{{{{{{{{{{{{{{{{{{{{{{}}}}}}}}}}}}}}}}}}}}}}}}}}}}}}}}}}}}}}}}}}}}}}}}}}}}}}}}}}}}}}}} undef
Items 1: declare void @f([1 x [1 x [1 x [1 x [1 x [1 x [1 x [1 x [1 x [1 x [1 x [1 x [1 x [1 x [1 x [1 x [1 x [1 x [1 x [1 x [1 x [1 x [1 x [1 x [1 x [1 x [1 x [1 x [1 x [1 x [1 x [1 x [1 x [1 x [1 x [1 x [1 x [1 x [1 x [1 x [1 x [1 x [1 x [1 x [1 x [1 x [1 x [1 x [1 x [1 x [1 x [1 x [1 x [1 x [1 x [1 x [1 x [1 x [1 x [1 x [1 x [1 x [1 x [1 x i8]]]]]]]]]]]]]]]]]]]]]]]]]]]]]]]]]]]]]]]]]]]]]]]]]]]]]]]]]]]]]]]])
Form 2: declare void @f(i8, <{<{<{<{<{<{<{<{<{<{<{<{<{<{<{<{<{<{<{<{<{<{<{<{<{<{<{<{<{<{<{<{<{<{<{<{<{<{<{<{<{<{<{<{<{<{<{<{<{<{<{<{<{<{<{<{<{<{<{<{<{<{<{<{^[1 x i8]
Form 3: define void @f() {^  alloca {{{{{{{{{{{{{{{{{{{{{{{{{{{{{{{{{{{{{{{{{{{{{{{{{{{{{{{{{{{{{{{{^<{^  ret void }
Items 1: define void @f() {^  call void (i8, {{{{{{{{{{{{{{{{{{{{{{{{{{{{{{{{{{{{{{{{{{{{{{{{{{{{{{{{{{{{{{{{}}}}}}}}}}}}}}}}}}}}}}}}}}}}}}}}}}}}}}}}}}}}}}}}}}}}}}}}}}}}}}}}) @g()^  ret void }
Items 1: define void @f() {^  ret ptr getelementptr ({{{{{{{{{{{{{{{{{{{{{{{{{{{{{{{{{{{{{{{{{{{{{{{{{{{{{{{{{{{{{{{{}}}}}}}}}}}}}}}}}}}}}}}}}}}}}}}}}}}}}}}}}}}}}}}}}}}}}}}}}}}}}}}}, ptr @b, {{{{{{{{{{{{{{{{{{{{{{{{{{{{{{{{{{{{{{{{{{{{{{{{{{{{{{{{{{{{{{{{}}}}}}}}}}}}}}}}}}}}}}}}}}}}}}}}}}}}}}}}}}}}}}}}}}}}}}}}}}}}}}}} 1)^}
Items 1: define {{{{{{{{{{{{{{{{{{{{{{{{{{{{{{{{{{{{{{{{{{{{{{{{{{{{{{{{{{{{{{{{}}}}}}}}}}}}}}}}}}}}}}}}}}}}}}}}}}}}}}}}}}}}}}}}}}}}}}}}}}}}}}}} @f() { ret void }
"#;
