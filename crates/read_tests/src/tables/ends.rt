//! Texts that end too soon.

/// Whole texts, and what is told of them.
pub(crate) const ENDS: &str = r#"
Form 1: !0
Form 2: !0 = !A(^[
Form 2: !0 = !DIFile^(
Form 2: !0 = distinct !{ {^}
Form 2: !0 = distinct^!DIFile (
Form 2: !0 =^!
Form 2: !0 =^distinct
Form 2: !0^=
Form 1: %t
Form 1: %t = type <{
Form 2: %t = type <{ i8^,
Form 1: %t = type { [
Form 2: %t = type { [3 x^i8
Form 2: %t = type { [3^x
Form 2: %t = type { [^3
Form 1: %t = type { i32,^^
Form 2: %t = type { i8 }^%u
Form 1: %t = type {^
Form 2: %t = type^{ i8
Form 2: %t =^type
Form 2: %t^=
Form 1: @a
Form 1: @a = alias i8 (
Form 1: @a = alias i8 ()
Form 1: @a = alias i8 (i8
Form 1: @a = alias i8 (i8,
Form 1: @a = alias i8, getelementptr (i8, ptr @b
Form 2: @a = alias i8, ptr^getelementptr
Form 2: @a = alias i8,^ptr
Form 2: @a = alias^void
Form 1: @a = external constant
Form 1: @a = external global i8,
Form 1: @a = external global i8, !a
Form 1: @a = external global i8, align
Form 2: @a = external^hidden
Form 1: @a = global
Form 2: @a = global [1 x i8]^[
Form 1: @a = global [2
Form 1: @a = global i8
Form 1: @a = global i8 0, !dbg ; end
Form 1: @a = global i8 0,^
Form 2: @a = global i8 0,^align
Form 1: @a = global i8 <{
Form 1: @a = global i8 <{ i8 1
Form 1: @a = global i8 [i8
Form 2: @a = global i8 [i8 1^,
Form 2: @a = global i8 { i8 1^,
Form 1: @a = global ptr getelementptr
Form 1: @a = global ptr getelementptr (
Form 1: @a = global ptr getelementptr (i8
Form 1: @a = global ptr getelementptr (i8, ptr @b,
Form 2: @a = global ptr getelementptr (i8, ptr @b, i64^0
Form 2: @a = global ptr getelementptr (i8, ptr @b,^i64
Form 2: @a = global ptr getelementptr (i8, ptr^@b
Form 2: @a = global ptr getelementptr (i8,^ptr
Form 2: @a = global ptr getelementptr^inbounds
Form 1: @a = global {} {
Form 1: @a = private
Form 1: @a = private global
Form 2: @a = private^hidden
Form 2: @a =^external
Form 2: @a^=
Form 1: attributes #0 =
Form 1: attributes #0 = {
Form 2: attributes #0 = { ( )^[ ]^
Form 2: attributes #0 = {^(
Form 2: attributes^#0
Form 1: declare !a
Form 2: declare !a^!b
Form 1: declare "a"
Form 1: declare "a" =
Form 1: declare #1
Form 1: declare align
Form 1: declare external
Form 1: declare fastcc
Form 1: declare foo
Form 1: declare foo(
Form 1: declare i8
Form 2: declare i8 @f() "a"^= ; "b"
Form 1: declare i8 @f() align
Form 1: declare i8 @f() foo(
Form 1: declare i8 @f(i8
Form 1: declare i8 @f(i8 "a" =
Form 1: declare i8 @f(i8 %x
Form 1: declare i8 @f(i8 %x,
Form 1: declare i8 @f(i8 align
Form 1: declare i8 @f(i8 foo
Form 1: declare i8 @llvm.dbg.x(metadata
Form 2: declare i8^@f
Form 1: declare void @f(
Form 2: declare void @f() "a"^=
Form 1: declare void @f(i8 dereferenceable(^
Form 1: define align
Form 1: define foo
Form 1: define hidden
Form 1: define internal
Form 1: define void
Form 1: define void @f
Form 1: define void @f(
Form 1: define void @f()
Form 1: define void @f() !a
Form 1: define void @f() !a !b
Form 1: define void @f() "a" =
Form 1: define void @f() align
Form 2: define void @f() foo(^)
Form 1: define void @f() { ret void
Form 2: define void @f() {^  %x
Form 2: define void @f() {^  %x =
Form 2: define void @f() {^  add i8 1
Form 2: define void @f() {^  add i8 1, 2
Form 3: define void @f() {^  add i8 1, 2,^!a
Form 2: define void @f() {^  add nuw
Form 2: define void @f() {^  alloca
Form 3: define void @f() {^  alloca i8,^i64
Form 2: define void @f() {^  br
Form 3: define void @f() {^  br i1 %c,^label
Form 4: define void @f() {^  br label %b^b:^  phi i8 [ 1,
Form 2: define void @f() {^  call
Form 2: define void @f() {^  call void (i8
Form 2: define void @f() {^  call void @f() "a" =
Form 2: define void @f() {^  call void @f() align
Form 2: define void @f() {^  call void @f(i8 align
Form 2: define void @f() {^  call void @g(
Form 2: define void @f() {^  call void @llvm.dbg.value(metadata
Form 2: define void @f() {^  freeze
Form 2: define void @f() {^  getelementptr i8,
Form 2: define void @f() {^  icmp
Form 2: define void @f() {^  icmp eq i8 1,
Form 2: define void @f() {^  load i8, ptr %p,
Form 2: define void @f() {^  ret
Form 3: define void @f() {^  ret void }^define void @g() {^
Form 2: define void @f() {^  ret void,^
Form 3: define void @f() {^  ret void^  %x
Form 3: define void @f() {^  ret void^e:^
Form 2: define void @f() {^  select i1 true, i8
Form 2: define void @f() {^  store i8 1,
Form 2: define void @f() {^  switch i8 1, label %d [ i8 1,
Form 2: define void @f() {^  tail
Form 2: define void @f() {^  unreachable^^
Form 2: define void @f() {^  zext i8 1 to
Form 2: define void @f() {^e:
Form 1: define void @f(i8
Form 1: define void @f(i8 %x,
Form 1: define void @f(i8 foo(
Form 1: source_filename = ;
Form 2: source_filename^=
Form 2: target datalayout^=
Form 1: target triple
Form 1: target triple =
Form 2: target^triple
"#;
