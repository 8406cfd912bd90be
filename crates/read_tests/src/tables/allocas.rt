//! `alloca` in the first block of a function, and anywhere else.

/// Whole texts, and what is told of them.
pub(crate) const ALLOCAS: &str = r#"
Unsupported 1 alloca: !0 = alloca
Unsupported 1 alloca: %t = type { alloca }
Unsupported 1 alloca: @a = global [2 x i8] [alloca
Unsupported 2 alloca: @a = global i32 0^alloca^@b = global i32 0
Unsupported 3 alloca: ^^alloca i8
Unsupported 1 alloca: alloca
Items 0: attributes #0 = { alloca }
Unsupported 5 alloca: declare void @f() nounwind^define void @g() {^  ret void }^define void @h() {^  ret void alloca
Unsupported 2 alloca: declare void @f(i32,^alloca)
Unsupported 1 alloca: define alloca void @f() { ret void }
Form 4: define void @f() { ret void }^@a = global i8 0, align 1^define void @g() {^  %x = load alloca
Unsupported 3 alloca: define void @f() { ret void }^@a = global i8 0^@b = alloca
Unsupported 2 alloca: define void @f() { ret void }^alloca
Form 2: define void @f() {^  %x = add alloca
Form 3: define void @f() {^  %x^  alloca i8
Form 2: define void @f() {^  alloca alloca
Unsupported 4 alloca: define void @f() {^  br label %b^b:^  %x = add alloca
Unsupported 4 alloca: define void @f() {^  br label %b^b:^  alloca i32^  ret void }
Unsupported 4 alloca: define void @f() {^  br label %b^b:^  ret void, alloca
Items 1: define void @f() {^  call void @g() alloca i8^  ret void }
Form 2: define void @f() {^  call void @g(alloca
Form 2: define void @f() {^  ret alloca
Unsupported 3 alloca: define void @f() {^  ret void, !dbg !0^  alloca
Form 3: define void @f() {^  ret void, !dbg^  alloca
Form 3: define void @f() {^  ret void,^  alloca
Unsupported 3 alloca: define void @f() {^  ret void^  %x = alloca i32
Unsupported 3 alloca: define void @f() {^  ret void^  alloca i32
Unsupported 3 alloca: define void @f() {^  switch i8 1, label %b [ ]^  alloca
Form 3: define void @f() {^  switch i8 1, label %b [^  alloca
Items 1: define void @f() {^alloca:^  %p = alloca i32^  alloca i8, !dbg !0^  %q = alloca i8^  ret void }
Unsupported 2 alloca: define void @f()^alloca { ret void }
Unsupported 1 alloca: define void @f(alloca %x) { ret void }
Unsupported 1 alloca: source_filename = alloca
"#;
