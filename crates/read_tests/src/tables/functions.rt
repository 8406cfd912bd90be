//! Functions, declared and defined.

/// Whole texts, and what is told of them.
pub(crate) const FUNCTIONS: &str = r#"
Items 3: declare !a !b !c !d i8 @f()^declare external i8 @g()^declare !a !b hidden i8 @h()
Form 1: declare !a hidden void @f()
Form 1: declare !a void @f()
Form 1: declare "a" = b void @f()
Items 2: declare %t @f(%t, %u %x, [2 x ptr] %"x y", <{ i8 }> %0)^define <{}> @g(%t, %u %x, [2 x ptr] %"x y", <{ i8 }> %0) { unreachable }
Form 1: declare @f()
Form 1: declare align void @f()
Form 1: declare align(4) void @f()
Unsupported 1 ...: declare ccc noundef i32 @f(i32 signext, ...)
Items 22: declare dso_local void @dso_local()^define dso_local void @dso_local2() { ret void }^declare dso_preemptable void @dso_preemptable()^define dso_preemptable void @dso_preemptable2() { ret void }^declare default void @default()^define default void @default2() { ret void }^declare hidden void @hidden()^define hidden void @hidden2() { ret void }^declare protected void @protected()^define protected void @protected2() { ret void }^declare unnamed_addr void @unnamed_addr()^define unnamed_addr void @unnamed_addr2() { ret void }^declare local_unnamed_addr void @local_unnamed_addr()^define local_unnamed_addr void @local_unnamed_addr2() { ret void }^declare externally_initialized void @externally_initialized()^define externally_initialized void @externally_initialized2() { ret void }^declare ccc void @ccc()^define ccc void @ccc2() { ret void }^declare fastcc void @fastcc()^define fastcc void @fastcc2() { ret void }^declare coldcc void @coldcc()^define coldcc void @coldcc2() { ret void }
Form 1: declare external !a !b void @f()
Form 1: declare external external void @f()
Items 7: declare foo i8 @f0()^declare foo(1, (a), [b], {c}, <{d}>) i8 @f1()^declare align 4 i8 @f2()^declare "k" i8 @f3()^declare "k"="v" i8 @f4()^declare #1 i8 @f5()^declare foo foo(1, (a), [b], {c}, <{d}>) align 4 "k" "k"="v" #1 foo foo(1, (a), [b], {c}, <{d}>) align 4 "k" "k"="v" #1 void @g()
Form 1: declare foo() = "b" void @f()
Form 1: declare foo()() void @f()
Form 1: declare foo(] void @f()
Form 1: declare hidden external void @f()
Form 1: declare i32 @f(i32 %a %b)
Form 1: declare i32 @f(i32,)
Form 1: declare i32 @f(void)
Items 7: declare i8 @f0() foo^declare i8 @f1() foo(1, (a), [b], {c}, <{d}>)^declare i8 @f2() align 4^declare i8 @f3() "k"^declare i8 @f4() "k"="v"^declare i8 @f5() #1^declare void @g() unnamed_addr foo foo(1, (a), [b], {c}, <{d}>) align 4 "k" "k"="v" #1 foo foo(1, (a), [b], {c}, <{d}>) align 4 "k" "k"="v" #1 local_unnamed_addr
Items 7: declare i8 @f0(i8 foo, ptr foo %x)^declare i8 @f1(i8 foo(1, (a), [b], {c}, <{d}>), ptr foo(1, (a), [b], {c}, <{d}>) %x)^declare i8 @f2(i8 align 4, ptr align 4 %x)^declare i8 @f3(i8 "k", ptr "k" %x)^declare i8 @f4(i8 "k"="v", ptr "k"="v" %x)^declare i8 @f5(i8 #1, ptr #1 %x)^declare void @g(i8 foo foo(1, (a), [b], {c}, <{d}>) align 4 "k" "k"="v" #1 foo foo(1, (a), [b], {c}, <{d}>) align 4 "k" "k"="v" #1)
Form 1: declare internal void @f()
Form 1: declare metadata @llvm.dbg.value()
Form 1: declare noundef external void @f()
Form 1: declare noundef hidden void @f()
Form 1: declare private void @f()
Items 1: declare ptr @f(ptr noalias nocapture dereferenceable(8) align 8 "x" #1 %p, { i8 } %q, %t %0)
Form 1: declare void
Form 1: declare void %f()
Form 1: declare void () @f()
Items 2: declare void @f(%x)^declare void @g(%x %x)
Form 1: declare void @f() "a"="b"="c"
Form 1: declare void @f() "a"=1
Form 1: declare void @f() ()
Form 1: declare void @f() = "a"
Items 1: declare void @f() align 16 "a"="b" "c" nounwind memory(none) #0 unnamed_addr local_unnamed_addr
Form 1: declare void @f() align foo
Form 1: declare void @f() fastcc
Form 2: declare void @f() foo(^<{)
Form 1: declare void @f() hidden
Form 1: declare void @f() nounwind!a !b
Unsupported 1 personality: declare void @f() personality ptr @g
Form 1: declare void @f() {
Form 1: declare void @f() { ret void }
Items 1: declare void @f();
Form 3: declare void @f()^!dbg^!0
Form 1: declare void @f(, i8)
Form 1: declare void @f(i8 "a"= %x)
Form 1: declare void @f(i8 %x %y)
Form 1: declare void @f(i8 %x noundef)
Form 1: declare void @f(i8 1)
Form 1: declare void @f(i8 @x)
Form 1: declare void @f(i8 align %x)
Form 1: declare void @f(i8 foo(] %x)
Form 1: declare void @f(i8 hidden)
Form 1: declare void @f(i8 i8)
Unsupported 1 ...: declare void @f(i8, ...)
Form 1: declare void @f(i8, metadata)
Form 1: declare void @f(i8,, i8)
Form 1: declare void @f(i8]
Form 1: declare void @f(noundef i8)
Unsupported 1 byval: declare void @f(ptr byval(i8) %x)
Form 1: declare void @f(ptr dereferenceable(8] %p)
Unsupported 1 preallocated: declare void @f(ptr preallocated(i8))
Form 1: declare void @f[]
Form 2: declare void @f^@a = global i8 0
Form 1: declare void @llvm.assume(metadata)
Form 1: declare void @llvm.dbg.value(metadata !0)
Form 1: declare void @llvm.dbg.value(metadata i8)
Items 3: declare void @llvm.dbg.x(metadata, i8, metadata foo align 4 "k" #1 %x)^declare void @llvm.dbg.y()^declare void @llvm.experimental.noalias.scope.decl(i8)
Items 1: declare void @llvm.experimental.noalias.scope.decl(metadata noundef %m)
Form 1: declare void @llvm.lifetime.start.p0(i64, metadata)
Items 2: declare void @llvm.memset.p0.i64(ptr, i8, i64, i1)^declare i8 @llvm.ctpop.i8(i8)
Unsupported 1 @llvm.va_start: declare void @llvm.va_start(ptr)
Form 1: declare void f()
Form 1: declare void void @f()
Unsupported 1 weak_odr: declare weak_odr void @f()
Form 1: declare x void @f()
Form 1: define !a !b void @f() { ret void }
Form 1: define "a"=foo void @f() { ret void }
Form 1: define @f() { ret void }
Form 1: define align foo void @f() { ret void }
Items 1: define external void @f() { unreachable }
Items 7: define foo i8 @f0() { unreachable }^define foo(1, (a), [b], {c}, <{d}>) i8 @f1() { unreachable }^define align 4 i8 @f2() { unreachable }^define "k" i8 @f3() { unreachable }^define "k"="v" i8 @f4() { unreachable }^define #1 i8 @f5() { unreachable }^define foo foo(1, (a), [b], {c}, <{d}>) align 4 "k" "k"="v" #1 foo foo(1, (a), [b], {c}, <{d}>) align 4 "k" "k"="v" #1 void @g() { unreachable }
Form 1: define foo(} void @f() { ret void }
Form 1: define hidden internal void @f() { ret void }
Items 1: define i64 @a(i64 noundef %x, i64 noundef %y) { ret i64 %y }
Items 7: define i8 @f0() foo { unreachable }^define i8 @f1() foo(1, (a), [b], {c}, <{d}>) { unreachable }^define i8 @f2() align 4 { unreachable }^define i8 @f3() "k" { unreachable }^define i8 @f4() "k"="v" { unreachable }^define i8 @f5() #1 { unreachable }^define void @g() !a !b unnamed_addr foo foo(1, (a), [b], {c}, <{d}>) align 4 "k" "k"="v" #1 foo foo(1, (a), [b], {c}, <{d}>) align 4 "k" "k"="v" #1 local_unnamed_addr !"a" !"b" { unreachable }
Items 7: define i8 @f0(i8 foo, ptr foo %x) { unreachable }^define i8 @f1(i8 foo(1, (a), [b], {c}, <{d}>), ptr foo(1, (a), [b], {c}, <{d}>) %x) { unreachable }^define i8 @f2(i8 align 4, ptr align 4 %x) { unreachable }^define i8 @f3(i8 "k", ptr "k" %x) { unreachable }^define i8 @f4(i8 "k"="v", ptr "k"="v" %x) { unreachable }^define i8 @f5(i8 #1, ptr #1 %x) { unreachable }^define void @g(i8 foo foo(1, (a), [b], {c}, <{d}>) align 4 "k" "k"="v" #1 foo foo(1, (a), [b], {c}, <{d}>) align 4 "k" "k"="v" #1 %x) { unreachable }
Items 1: define internal dso_local signext i32 @f(i32 %0, ptr) local_unnamed_addr #0 !dbg !5 {^1:^ ret i32 %0 }
Form 1: define label @f() { ret void }
Unsupported 1 linkonce: define linkonce void @f() { ret void }
Form 1: define metadata @f() { ret void }
Form 1: define noundef hidden void @f() { ret void }
Form 1: define noundef private void @f() { ret void }
Items 1: define private default dso_local fastcc noundef i64 @f(i64 noundef %x) unnamed_addr nounwind #0 align 4 "k"="v" !dbg !0 !prof !1 { ret i64 %x }
Form 1: define private internal void @f() { ret void }
Items 3: define private void @f() { ret void }^define internal void @g() { ret void }^define external hidden void @h() { ret void }
Form 1: define void %f() { ret void }
Unsupported 1 <: define void @a(<4 x i32> %x) {
Form 1: define void @f { ret void }
Form 1: define void @f(%x, i8 1) { ret void }
Form 1: define void @f() !a { ret void }
Form 1: define void @f() !a, !b { ret void }
Form 1: define void @f() !dbg { ret void }
Form 1: define void @f() "a"= { ret void }
Form 1: define void @f() , !a !b { ret void }
Form 1: define void @f() <{ ret void }>
Form 1: define void @f() [ ret void ]
Unsupported 1 addrspace: define void @f() addrspace(1) { ret void }
Form 1: define void @f() align { ret void }
Unsupported 1 comdat: define void @f() comdat { ret void }
Form 1: define void @f() foo(]) { ret void }
Unsupported 1 gc: define void @f() gc "x" { ret void }
Form 1: define void @f() hidden { ret void }
Unsupported 1 prologue: define void @f() prologue i8 1 { ret void }
Unsupported 1 section: define void @f() section "a" { ret void }
Form 1: define void @f() unnamed_addr, { ret void }
Form 1: define void @f() { ret void } }
Items 3: define void @f() { ret void }^declare void @g()^define void @h() { unreachable }
Form 2: define void @f() { ret void }^{
Form 4: define void @f() {^  ret void^  %x = phi i8 [ 1, %b ]^}
Form 4: define void @f() {^  ret void^  add i8 1, 2^}
Form 4: define void @f() {^  ret void^e:^}
Form 2: define void @f() {^"e"^  ret void }
Form 2: define void @f() {^define void @g() { ret void }
Form 3: define void @f() {^e:^  phi i8 [ 1, %b ]^  ret void }
Form 2: define void @f() {^e^  ret void }
Form 1: define void @f() {{ ret void }}
Form 1: define void @f() {}
Form 1: define void @f(); { ret void }
Form 2: define void @f()^declare void @g()
Unsupported 1 ...: define void @f(...) { ret void }
Form 1: define void @f(i32 metadata) { ret void }
Form 1: define void @f(i8 "a"=%x) { ret void }
Form 1: define void @f(i8 %x i8 %y) { ret void }
Form 1: define void @f(i8 %x noundef) { ret void }
Form 1: define void @f(i8 %x,) { ret void }
Form 1: define void @f(i8 align 4.0 %x) { ret void }
Form 1: define void @f(i8 foo(}) %x) { ret void }
Form 1: define void @f(metadata %x) { ret void }
Unsupported 1 swiftself: define void @f(ptr swiftself %x) { ret void }
Form 1: define void @f(void) { ret void }
Items 2: define void @llvm.dbg.value() { ret void }^define i8 @llvm.ctpop.i8(i8 %x) { ret i8 %x }
Form 1: define void @llvm.dbg.value(metadata %x) { ret void }
Unsupported 1 @llvm.foo: define void @llvm.foo() { ret void }
Form 1: define void f() { ret void }
"#;
