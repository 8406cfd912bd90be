//! Items at the top of a module, of which nothing or a type is kept.

/// Whole texts, and what is told of them.
pub(crate) const MODULES: &str = r#"
Form 1: ! = !{}
Form 1: !0 !{}
Form 1: !0 = !
Form 1: !0 = ! distinct {}
Items 0: !0 = !"a"^!"a b" = distinct !DIFile^!a = !A()^!b = distinct !{half, <4 x i8> [ $c, i65 ] ...}^!c = !D(a: (b), c: [d], e: {f}, g: <{h}>)
Form 1: !0 = !(1)
Form 1: !0 = !DIFile )
Form 1: !0 = !DIFile {
Form 2: !0 = !DIFile(^[)
Form 1: !0 = !DIFile(filename: "a", ])
Form 1: !0 = !{ ( }
Form 1: !0 = !{ }>
Items 0: !0 = !{!1, i32 7, !"s"}^!1 = distinct !DIFile(filename: "a")
Form 1: !0 = !{!1^
Form 1: !0 = !{}, !{}
Items 0: !0 = !{}^!1 = !DIBasicType^!2 = distinct !{!2, null}^!3 = !DIExpression()
Form 1: !0 = distinct
Form 1: !0 = distinct 7
Form 1: !0 = distinct {}
Form 2: !0 = distinct^distinct !{}
Form 1: !0 = i32 1
Form 1: !0 = metadata !{}
Form 1: !0 = {}
Items 0: !llvm.module.flags = !{!0, { [ ( <{ }> ) ] }}
Form 1: "a"
Form 1: #0 = { }
Unsupported 1 $c: $c = comdat any
Items 2: %0 = type { %1 }^%"a b" = type {}
Form 1: %t = global i8 0
Form 1: %t = type %u
Unsupported 1 <: %t = type <2 x i8>
Form 1: %t = type <{ i8 ]
Form 1: %t = type <{ i8 }
Form 1: %t = type [2 x i8]
Form 1: %t = type i32
Form 1: %t = type ptr
Form 1: %t = type type {}
Form 1: %t = type void
Items 1: %t = type { [0 x ptr], { i1, <{}> }, i64 }
Form 1: %t = type { [3 i8] }
Form 1: %t = type { i32 i8 }
Items 2: %t = type { i32, ptr, [3 x %u] }^%u = type <{ i8 }>
Form 2: %t = type { i32,^}
Form 1: %t = type { void }
Form 2: %t = type {{{{{{{{{{{{{{{{{{{{{{{{{{{{{{{{{{{{{{{{{{{{{{{{{{{{{{{{{{{{{{{{^{
Items 1: %t = type {{{{{{{{{{{{{{{{{{{{{{{{{{{{{{{{{{{{{{{{{{{{{{{{{{{{{{{{{{{{{{{{}}}}}}}}}}}}}}}}}}}}}}}}}}}}}}}}}}}}}}}}}}}}}}}}}}}}}}}}}}}}}}}}
Items 1: %t = type {}
Form 1: %t = type {}, {}
Unsupported 2 opaque: %t = type^opaque
Form 1: %t = { i8 }
Form 1: %t type {}
Form 1: 1
Form 1: 1.5
Items 0: ; nothing^
Form 1: @a @b
Form 1: @t = type {}
Form 1: a:
Form 1: attributes "a" = { }
Form 1: attributes #0 = "a"
Form 1: attributes #0 = ( )
Items 0: attributes #0 = { ( [ { <{ 1 }> } ] ) ( ) }^attributes #0 = { = "a" align 4 #1 !a @a %a }
Form 1: attributes #0 = { ( ] ) }
Form 1: attributes #0 = { ( }
Form 1: attributes #0 = { <{ ] }> }
Form 1: attributes #0 = { <{ }
Form 1: attributes #0 = { <{ } }
Items 0: attributes #0 = { <{ }> [ ] { ( ) } }
Form 1: attributes #0 = { [ ) ] }
Form 1: attributes #0 = { ] }
Items 0: attributes #0 = { nounwind "a"="b" memory(argmem: read) }
Form 2: attributes #0 = { }^}
Form 1: attributes #0 { }
Form 1: attributes 0 = { }
Form 1: attributes = { }
Form 1: c"a"
Items 1: declare !dbg !0 external hidden fastcc signext i32 @f() unnamed_addr
Items 1: declare i32 @f(i32 noundef, ptr align 8 %p, [2 x i8]) #1
Form 1: declare void @f(),
Form 1: declare void @f(metadata)
Items 1: declare void @llvm.dbg.value(metadata, metadata, metadata)
Form 1: define
Form 1: define void @f() { ret void },
Form 1: define void @f() {^
Form 2: define void @f() {^}
Form 1: global @a = i8 0
Unsupported 1 module: module asm "nop"
Form 1: source_filename "a"
Form 1: source_filename = !"a"
Form 1: source_filename = "a" "b"
Form 1: source_filename = "a", "b"
Form 1: source_filename = 1
Form 1: source_filename = a
Form 1: target "triple" = "a"
Form 1: target = "a"
Form 1: target cpu = "a"
Form 1: target datalayout = c"e"
Form 1: target triple "a"
Items 0: target triple = "riscv64"^target datalayout = "e"
Form 1: target triple = a
Form 1: target triple datalayout = "a"
Form 2: target^"riscv64"
Form 1: triple = "a"
Form 1: type %t = {}
Form 1: x
"#;
