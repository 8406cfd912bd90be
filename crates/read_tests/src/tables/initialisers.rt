//! What a global variable begins with.

/// Whole texts, and what is told of them.
pub(crate) const INITIALISERS: &str = r#"
Form 1: @a = global i64 ptrtoint (ptr @b to i64)
Form 1: @a = global i8 "0"
Form 1: @a = global i8 #0
Unsupported 1 <: @a = global i8 <i8 1, i8 2>
Form 1: @a = global i8 <{, }>
Form 1: @a = global i8 <{1}>
Form 1: @a = global i8 <{i8 1 i8 2}>
Form 1: @a = global i8 <{i8 1,}>
Form 1: @a = global i8 <{i8}>
Form 1: @a = global i8 [
Form 1: @a = global i8 [, i8 1]
Form 1: @a = global i8 [1]
Items 7: @a = global i8 []^@b = global i8 [i8 1]^@c = global i8 {}^@d = global i8 {i8 1}^@e = global i8 <{}>^@f = global i8 <{i8 1}>^@g = global i8 c""
Form 1: @a = global i8 [i8 1, 2]
Form 2: @a = global i8 [i8 1]^]
Form 1: @a = global i8 [i8 1}
Form 1: @a = global i8 [void 1]
Form 1: @a = global i8 add (i8 1, i8 2)
Unsupported 1 extractvalue: @a = global i8 extractvalue ({ i8 } undef, 0)
Form 1: @a = global i8 i8 0
Form 1: @a = global i8 void
Form 1: @a = global i8 {1}
Unsupported 1 float: @a = global i8 {float 1.0}
Form 1: @a = global i8 {i8 1 i8 2}
Items 3: @a = global i8 {i8 1, ptr null, [1 x i8] c"a"}^@b = global i8 <{i8 1, ptr null, {} {}}>^@c = global i8 [i8 zeroinitializer, ptr getelementptr (i8, ptr @b), i8 [], i8 {}, i8 <{}>, i8 %x]
Form 1: @a = global i8 {i8 1, }
Form 1: @a = global i8 {i8}
Unsupported 1 addrspacecast: @a = global ptr addrspacecast (ptr @b to ptr)
Form 1: @a = global ptr bitcast (ptr @b to ptr)
Items 1: @a = global ptr getelementptr ([2 x { i8 }], ptr @b, i1 0, %t 1, { i8 } 2)
Form 1: @a = global ptr getelementptr (i8 ptr @b)
Form 1: @a = global ptr getelementptr (i8, @b)
Form 1: @a = global ptr getelementptr (i8, ptr @b i64 0)
Form 1: @a = global ptr getelementptr (i8, ptr @b, 0)
Form 1: @a = global ptr getelementptr (i8, ptr @b, i64 0, inrange i32 1)
Form 1: @a = global ptr getelementptr (i8, ptr @b, i64 0]
Form 1: @a = global ptr getelementptr (i8, ptr @b, i64 true)
Form 1: @a = global ptr getelementptr (i8, ptr @b, i64)
Form 1: @a = global ptr getelementptr (i8, ptr @b,)
Unsupported 1 @llvm.foo: @a = global ptr getelementptr (i8, ptr @llvm.foo)
Form 1: @a = global ptr getelementptr (i8, ptr null)
Form 2: @a = global ptr getelementptr (i8, ptr^getelementptr (i8, ptr @b))
Form 1: @a = global ptr getelementptr (void, ptr @b)
Form 1: @a = global ptr getelementptr i8, ptr @b
Form 1: @a = global ptr getelementptr inbounds inbounds (i8, ptr @b)
Form 1: @a = global ptr getelementptr nuw (i8, ptr @b)
Items 1: @g = global [9 x i8] [i8 %x, i8 @a, i8 -1, i8 true, i8 false, i8 null, i8 undef, i8 poison, i8 getelementptr (i8, ptr @a, i64 1)]
Items 9: @g0 = global i8 %x^@g1 = global i8 @a^@g2 = global i8 -1^@g3 = global i8 true^@g4 = global i8 false^@g5 = global i8 null^@g6 = global i8 undef^@g7 = global i8 poison^@g8 = global i8 getelementptr (i8, ptr @a, i64 1)
"#;
