//! Literals, strings, names, blanks and comments.

/// Whole texts, and what is told of them.
pub(crate) const TOKENS: &str = r#"
Items 0: !0 = !{!";"} ; "
Lex 1: !0 = !{!"a
Items 0: !0 = !{!"a\00", !""}
Lex 2: !0 = !{^i128 340282366920938463463374607431768211456}
Items 0: !0 = !{i128 340282366920938463463374607431768211455, i128 -170141183460469231731687303715884105728}
Items 0: !a.b-c$_9 = !{}^!"a b" = distinct !"c d"
Lex 1: # 0
Lex 1: #a
Unsupported 1 $: $
Lex 1: % = type {}
Lex 1: %"\00" = type {}
Lex 1: %"a
Unsupported 1 <: %t = type < { i8 } >
Items 3: %t = type <{{i8}}>^%u = type {<{i8}>}^%v = type <{<{}>}>
Form 1: %t = type { i8 > }
Form 1: %t = type {i8}>
Form 1: ....
Form 3: ; a^; b^)
Lex 1: @ = global i8 0
Lex 1: @ a = global i8 0
Items 2: @"$a" = global i8 0^@$a = global i8 0
Lex 1: @"\00" = global i8 0
Unsupported 1 @"\6clvm.foo": @"\6clvm.foo" = global i8 0
Items 1: @"\\00" = global i8 0
Items 2: @"\\\5c\zz\4" = global i8 0^%"\22" = type {}^!"\22 b" = !{}
Lex 1: @"a
Items 4: @"a b\22" = global i8 0^@"" = global i8 0^@-$._a1 = global i8 0^@007 = global i8 0
Form 1: @"a^b"
Form 3: @"a^b" = global^@"c"
Items 1: @"llvm.\64bg.x" = global i8 0
Unsupported 1 @"llvm.foo": @"llvm.foo" = global i8 0
Items 2: @340282366920938463463374607431768211456 = global i8 0^%t = type { %340282366920938463463374607431768211456 }^!340282366920938463463374607431768211456 = !{}
Unsupported 1 <: @a = global < { i8 } > undef
Items 1: @a = global [0x i8] zeroinitializer
Form 1: @a = global [0x1 i8] zeroinitializer
Form 1: @a = global [1 x i8] "a"
Form 1: @a = global [1 x i8] c "a"
Lex 1: @a = global [1 x i8] c"a
Lex 1: @a = global [1 x i8] c"a":
Items 1: @a = global [2 x i8] c"\00\\"
Items 1: @a = global [9 x i8] c"\FF\fF\5C\22\\\g0\4"
Lex 1: @a = global i128 340282366920938463463374607431768211456
Lex 1: @a = global i32 0 #
Items 1: @a = global i64 -170141183460469231731687303715884105728
Lex 1: @a = global i64 -170141183460469231731687303715884105729
Items 1: @a = global i64 340282366920938463463374607431768211455
Unsupported 1 $a: @a = global i8 $a
Lex 1: @a = global i8 +1
Lex 1: @a = global i8 - 1
Lex 1: @a = global i8 --1
Items 3: @a = global i8 -0^@b = global i8 007^@c = global i8 0000000000000000000000000000000000000000000000000001
Form 1: @a = global i8 .$a
Form 1: @a = global i8 .5
Form 1: @a = global i8 0 #1a
Lex 1: @a = global i8 0 & 1
Lex 1: @a = global i8 0 '
Items 1: @a = global i8 0 ; the end
Form 1: @a = global i8 0 | 1
Items 1: @a = global i8 000340282366920938463463374607431768211455
Form 2: @a = global i8 0;^)
Form 1: @a = global i8 0x1F
Form 1: @a = global i8 1-1
Form 1: @a = global i8 1.
Form 1: @a = global i8 1.5
Form 1: @a = global i8 1a
Form 1: @a = global i8 1e5
Form 1: @a = global i8 ; 0
Items 3: @a=global i8 0@b=global i8 0%t=type{}!0=!{}
Items 1: @a=global[2 x i8]zeroinitializer,align 1
Form 1: @a=global[2xi8]zeroinitializer
Items 2: @llvm = global i8 0^@llvm_x = global i8 0
Unsupported 1 @llvm.: @llvm. = global i8 0
Items 2: @llvmfoo = global i8 0^@"xllvm.a" = global i8 0
Lex 2: ^@"a\00" = global i8 0
Items 0: ^^;^
Form 3: ^^@a^^;^^
Lex 1: attributes #0 = { "\00": }
Items 0: attributes #0 = { * | ! < > , = ... half i65 $x @llvm.foo weak: }
Items 0: attributes #0 = { 1.5 -2.5e-3 4.0E+10 0xK4000 0xABCDEF 0xL0 0xM1 0xH2 0xR3 }
Items 0: attributes #0 = { 1.5e 0xK 0x 1.e5 }
Lex 1: attributes #0 = { 1.5e 1.5e+ }
Items 0: attributes #0 = { 340282366920938463463374607431768211456.0 0xKFFFFFFFFFFFFFFFFFFFFFFFFFFFFFFFFFFFFFFFF }
Lex 1: attributes #0 = { : }
Items 0: attributes #0 = { @"llvm.foo" %a @a !a #1 "s" c"s" 1 1.5 a: "a": i8 alloca $ }
Lex 2: attributes #0 = {^-170141183460469231731687303715884105729 }
Lex 2: attributes #0 = {^340282366920938463463374607431768211456 }
Form 1: attributes #0 = {}>
Items 0: attributes #340282366920938463463374607431768211456 = { }
Items 1: declare void @"llvm.trap"()
Lex 1: declare void @f() -
Items 1: declare void @f() .... ...a
Form 1: declare void @f() 1a:
Items 1: declare void @f() align 1.
Unsupported 1 ...: declare void @f() align 1...
Items 1: declare void @f(i8 "\00"="\00")
Lex 2: declare void @f(i8 dereferenceable(^340282366920938463463374607431768211456))
Form 1: declare void @f(i8*)
Items 1: define void @f() {^"":^  br label %"" }
Lex 2: define void @f() {^"a\00":^  ret void }
Items 1: define void @f() {^"a\22b":^  br label %"a\22b" }
Lex 2: define void @f() {^"e" :^  ret void }
Items 1: define void @f() {^$a:^  br label %$a }
Lex 2: define void @f() {^%e:^  ret void }
Items 1: define void @f() {^-1:^  ret void^}
Items 1: define void @f() {^...:^  ret void^}
Items 1: define void @f() {^1.5:^  br label %0x1F^0x1F:^  ret void }
Items 1: define void @f() {^1a:^  br label %1a }
Items 1: define void @f() {^340282366920938463463374607431768211456:^  ret void }
Lex 2: define void @f() {^e :^  ret void }
Lex 1: define void @f(i8 %"\00") { ret void }
Items 1: define void @f(i8 %"a b", i8 %-1) {^"a b":^  ret void }
Items 0: source_filename = ""
Items 0: source_filename = "\5C\5c\\\0a\0G\"
Lex 1: source_filename = "a
Form 1: source_filename = "a":
Lex 1: source_filename = "a\"b"
Items 0: source_filename = "a\\b\22\zz\4"
Form 3: source_filename = "a^b"^)
Form 1: source_filename = c"a"
"#;
