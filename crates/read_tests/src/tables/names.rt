//! Names that are defined or not, and numbers in order or not.

/// Whole texts, and what is told of them as modules.
pub(crate) const NAMES: &str = r#"
Module: !0 = !{ptr @x, %t}^attributes #0 = { @x %t }
Name 2: %"5" = type {}^@a = external global %5
Module: %"\74" = type {}^@a = external global %t^@b = external global %"t"
Module: %00 = type {}^@a = external global %0
Module: %10000000000000000000000000000000000000000000000000000000000000000000000 = type {}^@a = external global %10000000000000000000000000000000000000000000000000000000000000000000000
Name 2: %10000000000000000000000000000000000000000000000000000000000000000000000 = type {}^@a = external global %100000000000000000000000000000000000000000000000000000000000000000000000
Name 2: %10000000000000000000000000000000000000000000000000000000000000000000000 = type {}^@a = external global %10000000000000000000000000000000000000000000000000000000000000000000001
Name 2: %18446744073709551616 = type {}^@a = external global %18446744073709551617
Module: %340282366920938463463374607431768211456 = type {}^@a = external global %0340282366920938463463374607431768211456
Name 2: %340282366920938463463374607431768211456 = type {}^@a = external global %340282366920938463463374607431768211457
Name 2: %4294967295 = type {}^@a = external global %4294967296
Module: %4294967296 = type { i8 }^%a = type { %004294967296 }
Name 2: %4294967296 = type { i8 }^%a = type { %4294967297 }
Module: %5 = type {}^@a = external global %5
Name 1: %t = type { i8, %u }
Name 2: %x = type {}^@a = global i8 %x
Name 3: %x = type {}^define i8 @f() {^  ret i8 %x }
Name 1: @"0" = global ptr @0
Module: @"\30" = global i8 0^@0 = global i8 0
Module: @"\61" = global ptr @a^@b = global ptr @"a"
Name 2: @0 = global i8 0^@0 = global i8 0
Name 2: @0 = global i8 0^@2 = global i8 0
Module: @0 = global i8 0^declare void @1()^@2 = alias i8, ptr @0^define void @3() { ret void }^@a = global i8 0^@4 = external global i8
Name 1: @0 = global ptr @"0"
Module: @0 = global ptr @00
Module: @0 = global ptr @1^@1 = global i32 0
Module: @00 = global i8 0^@01 = global i8 0
Name 1: @1 = alias i8, ptr @1
Name 1: @1 = global i8 0
Name 1: @1 = global i8 0^@a = global ptr @x
Name 1: @18446744073709551616 = global i8 0
Name 1: @4294967296 = global i8 0
Name 1: @a = alias %t, ptr @a
Name 2: @a = alias i8 (^%t), ptr @a
Name 2: @a = alias i8, getelementptr (i8, ptr^@b)
Name 1: @a = alias i8, ptr @b
Module: @a = external global %t^%t = type { %t }
Name 1: @a = global %t zeroinitializer
Name 2: @a = global [1 x i8] [i8^%x]
Name 1: @a = global [2 x ptr] [ptr null, ptr @b]
Name 1: @a = global i32 %x
Name 1: @a = global ptr @0^@1 = global i32 0
Module: @a = global ptr @a
Module: @a = global ptr @b^@b = alias i8, ptr @a
Module: @a = global ptr @b^declare void @b()
Name 1: @a = global ptr @x^@1 = global i8 0
Name 1: @a = global ptr getelementptr (%t, ptr @a)
Name 1: @a = global ptr getelementptr (i8, ptr @a, %t 0)
Name 1: @a = global ptr getelementptr (i8, ptr @b)
Name 3: @a = global ptr^^@b
Name 1: @a = global { i8 } { %t 0 }
Name 1: declare [1 x %t] @f()
Name 1: declare void @1()
Name 3: declare void @f(^i8 %x,^i8 %1)
Name 1: declare void @f(i8, %t)
Name 1: declare void @f(i8, i8 %0)
Module: declare void @f(i8, i8 %1, i8 %x, i8 %2)
Module: declare void @f(ptr sret(%t), ptr elementtype(%t)) foo(@x, %t)
Name 1: define %t @f() { unreachable }
Name 3: define i32 @f() {^  ret i32^  %x^}
Module: define i32 @f(i32 %0) { ret i32 %0 }
Name 1: define i32 @f(i32 %1) {^  ret i32 0 }
Name 2: define i32 @f(i32) {^  %1 = add i32 %0, 1^  ret i32 %1 }
Module: define i32 @f(i32) {^  %2 = add i32 %0, 1^  ret i32 %2 }
Module: define i8 @f() {^  %1 = add i8 1, 2^  add i8 %1, 2^  ret i8 %2 }
Name 2: define i8 @f() {^  %5 = add i8 1, 2^  ret i8 %1 }
Name 3: define i8 @f() {^  %x = call i8 @llvm.dbg.x()^  ret i8 %x }
Module: define i8 @f() {^  %y = add i8 %x, 1^  %x = add i8 1, 2^  ret i8 %y }
Name 4: define i8 @f() {^  br label %1^1:^  ret i8 %1 }
Name 2: define i8 @f() {^  ret i8 %x }^@a = global ptr @y
Name 3: define i8 @f() {^  ret void^  ret i8 %x }
Module: define i8 @f() {^  store i8 1, ptr null^  call void @f()^  %1 = call i8 @f()^  call i8 @f()^  ret i8 %2 }
Name 3: define i8 @f() {^e:^  ret i8 %e }
Name 2: define i8 @f(^%t) {^  %5 = add i8 1, 2^  ret i8 %x }
Name 2: define i8 @f(i8 %"0") {^  ret i8 %0 }
Module: define i8 @f(i8 %"x") {^  %"\79" = add i8 %x, 1^  ret i8 %y }
Module: define i8 @f(i8 %0a, i8 %-1) {^  %1 = add i8 %-1, %0a^  ret i8 %1 }
Name 2: define ptr @f() {^  ret ptr @b }
Name 2: define ptr @f() {^  ret ptr getelementptr (i8, ptr @b) }
Name 1: define void @1() { ret void }
Name 3: define void @f() {^  %1 = add i8 1, 2^  br label %1 }
Module: define void @f() {^  %1 = store i8 1, ptr null^  %2 = call void @f()^  %3 = add i8 1, 2^  ret void }
Name 2: define void @f() {^  %2 = store i8 1, ptr null^  ret void }
Module: define void @f() {^  %7 = call %t @llvm.dbg.x(%t %x, ptr @y)^  call i8 @llvm.dbg.x()^  %1 = add i8 1, 2^  ret void }
Module: define void @f() {^  %9 = call i32 @llvm.dbg.value(metadata i32 %x, metadata !1)^  ret void }
Name 3: define void @f() {^  %x = add i8 1, 2^  br label %x }
Name 2: define void @f() {^  alloca { [2 x %t] }^  ret void }
Name 3: define void @f() {^  br i1 true, label %a,^  label %c^a:^  ret void }
Name 2: define void @f() {^  br i1 true, label %c, label %a^a:^  ret void }
Name 4: define void @f() {^  br label %1^1:^  %1 = phi i8 [ 1, %0 ]^  ret void }
Module: define void @f() {^  br label %1^1:^  phi i8 [ 1, %0 ]^  %3 = add i8 %2, 1^  ret void }
Module: define void @f() {^  br label %b^"\62":^  ret void }
Name 4: define void @f() {^  br label %b^b:^  %x = phi i8 [ %b, %b ]^  ret void }
Module: define void @f() {^  br label %b^b:^  %x = phi i8 [ %x, %b ]^  ret void }
Name 4: define void @f() {^  br label %b^b:^  phi i8 [ %x, %b ]^  ret void }
Name 4: define void @f() {^  br label %b^b:^  phi i8 [ 1, %c ]^  ret void }
Name 2: define void @f() {^  br label %x^}
Name 2: define void @f() {^  call void (%t) @f()^  ret void }
Module: define void @f() {^  call void @"llvm.\74rap"()^  ret void }^declare void @llvm.trap()
Name 2: define void @f() {^  call void @f(ptr @b)^  ret void }
Name 2: define void @f() {^  call void @g()^  ret void }
Module: define void @f() {^  call void @g()^  ret void }^declare void @g()
Module: define void @f() {^  call void @llvm.lifetime.start.p0(i64 4, ptr %p)^  call void @llvm.assume(i1 %c)^  call void @llvm.donothing()^  call void @llvm.experimental.noalias.scope.decl(metadata !0)^  ret void }
Name 2: define void @f() {^  call void @llvm.trap()^  ret void }
Name 3: define void @f() {^  getelementptr^  %t, ptr null^  ret void }
Module: define void @f() {^  ret void, !dbg !9^}
Module: define void @f() {^  ret void^  ret void^2:^  br label %1 }
Name 3: define void @f() {^  ret void^2:^  ret void }
Name 2: define void @f() {^  store i8 1, ptr @b^  ret void }
Name 2: define void @f() {^  switch i8 %x, label %a [ i8 1,^  label %c ]^a:^  ret void }
Name 2: define void @f() {^  switch i8 1, label %a [ %t 1, label %a ]^a:^  ret void }
Name 3: define void @f() {^  switch i8 1, label %a [ i8 1,^  label %c ]^a:^  ret void }
Name 2: define void @f() {^  switch i8 1, label %c [ ]^}
Name 2: define void @f() {^  zext i8 1 to %t^  ret void }
Name 3: define void @f() {^"0":^  br label %0 }
Name 2: define void @f() {^1:^  ret void }
Name 2: define void @f(i32 %x) {^  br label %x^}
Module: define void @f(i8 %00, i8 %01) { ret void }
Name 2: define void @f(i8 %t) {^  alloca %t^  ret void }
Name 3: define void @f(i8 %x) { ret void }^define i8 @g() {^  ret i8 %x }
Name 4: define void @f(i8 %x) {^  br label %b^b:^  phi i8 [ 1, %x ]^  ret void }
Module: define void @f(i8) {^1:^  br label %2^2:^  ret void }
"#;
