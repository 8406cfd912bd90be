//! Calls, and the intrinsics that are called.

/// Lines of a body, of which the first is the second of the text, and what is told of the text.
pub(crate) const CALLS: &str = r#"
Items 1: %a = tail call i8 @f()^  tail call i8 @f()^  %b = notail call i8 @f()^  %c = call i8 @f()
Items 1: call  void @f()^  tail call ccc void @f()^  notail call fastcc void @f()^  call coldcc void @f()^  tail call ccc fastcc coldcc ccc void @f()
Form 2: call !a !b void @f()
Form 2: call "a"= void @f()
Unsupported 2 addrspace: call addrspace(1) void @f()
Form 2: call align void @f()
Form 3: call foo
Form 2: call foo fastcc void @f()
Items 1: call foo i8 @f()^  call foo(1, (a), [b], {c}, <{d}>) i8 @f()^  call align 4 i8 @f()^  call "k" i8 @f()^  call "k"="v" i8 @f()^  call #1 i8 @f()^  call fastcc foo foo(1, (a), [b], {c}, <{d}>) align 4 "k" "k"="v" #1 foo foo(1, (a), [b], {c}, <{d}>) align 4 "k" "k"="v" #1 void @f()
Form 2: call foo(]) void @f()
Form 2: call hidden void @f()
Items 1: call i1 @llvm.ctpop.i1()^  call i64 @llvm.ctlz.i64()^  call i8 @llvm.cttz.i8()^  call i16 @llvm.bswap.i16()^  call i33 @llvm.fshl.i33()^  call i7 @llvm.fshr.i7()^  call i10 @llvm.smax.i10()^  call i63 @llvm.smin.i63()^  call i2 @llvm.umax.i2()^  call i32 @llvm.umin.i32()^  call i9 @llvm.abs.i9()
Unsupported 2 @llvm.ctpop: call i8 @llvm.ctpop(i8 1)
Unsupported 2 @llvm.ctpop.i0: call i8 @llvm.ctpop.i0(i8 1)
Unsupported 2 @llvm.ctpop.i08: call i8 @llvm.ctpop.i08(i8 1)
Unsupported 2 @llvm.ctpop.i128: call i8 @llvm.ctpop.i128(i8 1)
Unsupported 2 @llvm.ctpop.i8.x: call i8 @llvm.ctpop.i8.x(i8 1)
Unsupported 2 @llvm.ctpop.v2i8: call i8 @llvm.ctpop.v2i8(i8 1)
Unsupported 2 @llvm.ctpops.i8: call i8 @llvm.ctpops.i8(i8 1)
Items 1: call i8 @llvm.dbg.x()^  %x = tail call i8 (i8, ptr) @llvm.dbg.x(i8 noundef 1, metadata !0, metadata !{}, metadata !D(a, (b), [c]), metadata i8 1, metadata { i8 } undef, metadata %t %x, ptr @a) foo, !a !b
Unsupported 2 @llvm.umul.with.overflow.i8: call i8 @llvm.umul.with.overflow.i8(i8 1)
Form 2: call metadata @f()
Unsupported 2 float: call nnan float @f()
Form 2: call tail void @f()
Form 3: call void
Form 2: call void () %f()
Form 2: call void () () @f()
Items 1: call void () @f()^  call {} (i8) @f()^  call [1 x ptr] (i8, %t, [2 x ptr]) @f(i8 1)^  call %t @f(%t %x), !a !b
Form 2: call void ()* @f()
Form 2: call void (, i8) @f()
Form 2: call void (i8 %x) @f()
Form 2: call void (i8 i8) @f()
Form 2: call void (i8,) @f()
Form 2: call void (i8] @f()
Form 2: call void (metadata) @llvm.dbg.value()
Form 2: call void (void) @f()
Form 2: call void 1()
Unsupported 2 @"llvm.": call void @"llvm."()
Items 1: call void @"llvm.trap"()^  call void @"\6clvm.\64bg.value"(metadata !0)
Form 3: call void @f
Form 2: call void @f(!0)
Form 2: call void @f() !a !b
Form 2: call void @f() "a"="b"="c"
Form 3: call void @f() "a"=^1
Form 2: call void @f() (1)
Form 3: call void @f() align
Form 2: call void @f() foo(<{ )
Items 1: call void @f() foo^  call void @f() foo(1, (a), [b], {c}, <{d}>)^  call void @f() align 4^  call void @f() "k"^  call void @f() "k"="v"^  call void @f() #1^  %x = call void @f() foo foo(1, (a), [b], {c}, <{d}>) align 4 "k" "k"="v" #1 foo foo(1, (a), [b], {c}, <{d}>) align 4 "k" "k"="v" #1, !a !b, !a !b
Unsupported 2 gc: call void @f() gc "a"
Form 2: call void @f() to label %a unwind label %b
Form 2: call void @f() unnamed_addr
Form 2: call void @f() {
Form 3: call void @f(), !a
Form 2: call void @f(), !a !b #1
Form 2: call void @f(), align 4
Form 2: call void @f(, i8 1)
Unsupported 2 ...: call void @f(...)
Form 2: call void @f(1)
Form 2: call void @f(i8 "a"=1)
Form 3: call void @f(i8 1
Form 2: call void @f(i8 1 noundef)
Form 2: call void @f(i8 1,, i8 2)
Form 2: call void @f(i8 1]
Form 2: call void @f(i8 align 4 align %x)
Form 2: call void @f(i8 align 4)
Items 1: call void @f(i8 foo 1, ptr foo %x)^  call void @f(i8 foo(1, (a), [b], {c}, <{d}>) 1, ptr foo(1, (a), [b], {c}, <{d}>) %x)^  call void @f(i8 align 4 1, ptr align 4 %x)^  call void @f(i8 "k" 1, ptr "k" %x)^  call void @f(i8 "k"="v" 1, ptr "k"="v" %x)^  call void @f(i8 #1 1, ptr #1 %x)^  call void @f(i8 foo foo(1, (a), [b], {c}, <{d}>) align 4 "k" "k"="v" #1 foo foo(1, (a), [b], {c}, <{d}>) align 4 "k" "k"="v" #1 @a)
Form 2: call void @f(i8 foo(}) 1)
Form 2: call void @f(i8 hidden 1)
Form 2: call void @f(i8 noundef)
Form 2: call void @f(i8 zeroinitializer)
Form 2: call void @f(i8 { i8 1 })
Form 2: call void @f(label %x)
Form 2: call void @f(noundef i8 1)
Unsupported 2 inalloca: call void @f(ptr inalloca(i8) %p)
Form 2: call void @f(void)
Form 2: call void @f[]
Form 2: call void @llvm.assume(metadata !0)
Unsupported 2 @llvm.assume.x: call void @llvm.assume.x()
Unsupported 2 @llvm.dbg: call void @llvm.dbg()
Form 2: call void @llvm.dbg.value(!0)
Form 2: call void @llvm.dbg.value(metadata !)
Form 2: call void @llvm.dbg.value(metadata !0 !1)
Form 2: call void @llvm.dbg.value(metadata !0(])
Form 2: call void @llvm.dbg.value(metadata !{ ] })
Form 2: call void @llvm.dbg.value(metadata 1)
Form 2: call void @llvm.dbg.value(metadata distinct !{})
Form 2: call void @llvm.dbg.value(metadata foo !0)
Unsupported 2 half: call void @llvm.dbg.value(metadata half 1.0)
Form 2: call void @llvm.dbg.value(metadata i8 foo 1)
Form 2: call void @llvm.dbg.value(metadata i8 zeroinitializer)
Form 2: call void @llvm.dbg.value(metadata metadata !0)
Form 2: call void @llvm.dbg.value(metadata void)
Form 2: call void @llvm.dbg.value(metadata)
Unsupported 2 @llvm.debugtrap: call void @llvm.debugtrap()
Items 1: call void @llvm.experimental.noalias.scope.decl(metadata !0)^  call void @llvm.experimental.noalias.scope.decl(metadata !{ !0, [ ( <{ }> ) ] })^  call void @llvm.experimental.noalias.scope.decl(i8 1)
Unsupported 2 @llvm.experimental.noalias.scope.decl.x: call void @llvm.experimental.noalias.scope.decl.x(metadata !0)
Unsupported 2 @llvm.lifetime: call void @llvm.lifetime()
Items 1: call void @llvm.lifetime.end.p0(i64 4, ptr %p)^  call void @llvm.assume(i1 true)^  call void @llvm.donothing()^  call void @llvm.trap()
Form 2: call void @llvm.lifetime.end.p0(metadata !0)
Unsupported 2 @llvm.memcpy.inline.p0.p0.i64: call void @llvm.memcpy.inline.p0.p0.i64(ptr %p, ptr %q, i64 1, i1 false)
Unsupported 2 @llvm.memcpy.p0.p0.i32: call void @llvm.memcpy.p0.p0.i32(ptr %p, ptr %q, i32 1, i1 false)
Items 1: call void @llvm.memcpy.p0.p0.i64(ptr %p, ptr %q, i64 1, i1 false)^  call void @llvm.memmove.p0.p0.i64(ptr align 2 %p, ptr align 4 %q, i64 1, i1 true)^  call void @llvm.memset.p0.i64(ptr align -1 align 8 %p, i8 1, i64 1, i1 false)
Unsupported 2 @llvm.trap.x: call void @llvm.trap.x()
Unsupported 2 @llvm.traps: call void @llvm.traps()
Unsupported 2 asm: call void asm "nop", ""()
Form 2: call void getelementptr (i8, ptr @f)()
Form 2: call void null()
Form 2: call void ptr @f()
Form 2: call void undef()
Unsupported 2 musttail: musttail call void @f()
Form 2: notail ret void
Unsupported 2 @llvm.foo: store ptr @llvm.foo, ptr %p
Form 2: tail notail call void @f()
Form 2: tail tail call void @f()
Unsupported 3 invoke: tail^  invoke void @f()
"#;
