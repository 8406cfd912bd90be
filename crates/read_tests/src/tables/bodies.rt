//! The blocks of a function and what stands in them.

/// Whole texts, and what is told of them.
pub(crate) const BODIES: &str = r#"
Form 2: define i64 @a(i64 %x) {^  %y = add i64 %x
Items 1: define void @f() {^  %1 = icmp eq ptr @f, null^  %2 = icmp ne ptr @f, null^  %3 = icmp ugt ptr @f, null^  %4 = icmp uge ptr @f, null^  %5 = icmp ult ptr @f, null^  %6 = icmp ule ptr @f, null^  %7 = icmp sgt ptr @f, null^  %8 = icmp sge ptr @f, null^  %9 = icmp slt ptr @f, null^  %10 = icmp sle ptr @f, null^  ret void }
Items 1: define void @f() {^  %1 = trunc i32 1 to i8^  %2 = zext i8 %1 to i64^  %3 = sext i8 %1 to i64^  %4 = ptrtoint ptr @f to i64^  %5 = inttoptr i64 %4 to ptr^  %6 = bitcast { i8 } undef to { i8 }^  ret void }
Form 2: define void @f() {^  %a = alloca i32, align 4, i64 3^  ret void }
Items 1: define void @f() {^  %a = alloca i32^  %b = alloca [2 x i8], i64 3, align 8, !dbg !1^  ret void }
Form 2: define void @f() {^  %v = %w^  ret void }
Form 2: define void @f() {^  %v = add exact i32 1, 2^  ret void }
Items 1: define void @f() {^  %v = add nuw nsw nuw i32 1, 2^  %w = sdiv exact i32 %v, 3^  %x = xor i32 %w, -1^  ret void }
Form 2: define void @f() {^  %v = alloca i32, 3^  ret void }
Form 2: define void @f() {^  %v = alloca i32, i64 %n^  ret void }
Form 2: define void @f() {^  %v = alloca void^  ret void }
Form 2: define void @f() {^  %v = and nuw i32 1, 2^  ret void }
Form 2: define void @f() {^  %v = ashr exact exact i32 1, 2^  ret void }
Form 3: define void @f() {^  %v = bitcast i32 1 to^1^  ret void }
Items 1: define void @f() {^  %v = call fastcc ccc void (i32, ptr) @g(i32 1, ptr align 4 "k" noundef(1) %p) nounwind #1 "a"="b", !dbg !0^  ret void }
Unsupported 2 fadd: define void @f() {^  %v = fadd float 1.0, 2.0^  ret void }
Form 2: define void @f() {^  %v = freeze 1^  ret void }
Form 2: define void @f() {^  %v = getelementptr i8, ptr %p, !dbg !1, i64 2^  ret void }
Form 2: define void @f() {^  %v = getelementptr i8, ptr %p, 1^  ret void }
Items 1: define void @f() {^  %v = getelementptr inbounds %t, ptr %p, i64 0, i32 %i, !dbg !1^  ret void }
Form 2: define void @f() {^  %v = getelementptr inbounds inbounds i8, ptr %p^  ret void }
Form 2: define void @f() {^  %v = getelementptr ptr %p^  ret void }
Form 2: define void @f() {^  %v = icmp eq ne i32 1, 2^  ret void }
Form 2: define void @f() {^  %v = icmp i32 1, 2^  ret void }
Form 2: define void @f() {^  %v = icmp lt i32 1, 2^  ret void }
Form 2: define void @f() {^  %v = load i32 ptr %p^  ret void }
Form 2: define void @f() {^  %v = load i32, ptr %p align 4^  ret void }
Form 2: define void @f() {^  %v = load i32, ptr %p, !tbaa !1, align 4^  ret void }
Items 1: define void @f() {^  %v = load i32, ptr %p, align 4, !tbaa !1^  store i32 %v, ptr %p, !dbg !2^  ret void }
Unsupported 2 volatile: define void @f() {^  %v = load volatile i32, ptr %p^  ret void }
Form 2: define void @f() {^  %v = mul nuw exact i32 1, 2^  ret void }
Form 2: define void @f() {^  %v = ret void^  ret void }
Form 2: define void @f() {^  %v = select i1 %c, i32 1, 2^  ret void }
Items 1: define void @f() {^  %v = select i1 %c, i32 1, i32 2^  %w = zext i32 %v to i64^  %x = freeze i64 %w^  ret void }
Form 2: define void @f() {^  %v = sub i32 1 2^  ret void }
Items 1: define void @f() {^  %v = tail call fastcc signext i32 (i32, ptr) @g(i32 noundef 1, ptr align 8 %p) #3, !dbg !4^  ret void }
Form 2: define void @f() {^  %v = trunc i32 1, i8^  ret void }
Form 2: define void @f() {^  %v = udiv nsw i32 1, 2^  ret void }
Form 2: define void @f() {^  %v = xor i32, 1^  ret void }
Form 2: define void @f() {^  %v = zext i32 1 i64^  ret void }
Form 2: define void @f() {^  %v add i32 1, 2^  ret void }
Form 2: define void @f() {^  %x = phi i32 [ 0, %e ]^  ret void }
Form 3: define void @f() {^  br %e^}
Form 2: define void @f() {^  br i1 %c, %t, %u^}
Form 3: define void @f() {^  br i1 %c, label %t^}
Items 1: define void @f() {^  br label %b^b:^  %x = phi i32 [ 0, %e ], [ %x, %b ], !dbg !1^  ret void }
Form 4: define void @f() {^  br label %b^b:^  %x = phi i32 [ 1, %e ], !a !b, [ 2, %b ]^  ret void }
Form 4: define void @f() {^  br label %b^b:^  %x = phi i32 [ 1, %e ], [ 2 %b ]^  ret void }
Form 4: define void @f() {^  br label %b^b:^  %x = phi i32 [ 1, label %e ]^  ret void }
Form 5: define void @f() {^  br label %b^b:^  %x = phi i32^  ret void }
Form 5: define void @f() {^  br label %b^b:^  %y = add i32 1, 2^  %x = phi i32 [ 0, %e ]^  ret void }
Items 1: define void @f() {^  br label %b^b:^  phi ptr [ null, %e ], [ @g, %b ], !a !b^  ret void }
Form 2: define void @f() {^  br label @f^}
Form 2: define void @f() {^  call @g()^  ret void }
Form 2: define void @f() {^  call void %p()^  ret void }
Unsupported 2 ...: define void @f() {^  call void (i32, ...) @g(i32 1)^  ret void }
Form 2: define void @f() {^  call void (i32, @g(i32 1)^  ret void }
Form 2: define void @f() {^  call void @g(i32 1 2)^  ret void }
Form 2: define void @f() {^  call void @g(i32 1) [ "deopt"() ]^  ret void }
Form 2: define void @f() {^  call void @g(i32 1,)^  ret void }
Form 2: define void @f() {^  call void @g(i32)^  ret void }
Items 1: define void @f() {^  call void @g(i8 %x, ptr @a, i8 1, i1 true, i1 false, ptr null, i8 undef, i8 poison, ptr getelementptr inbounds (i8, ptr @a, i8 1, i64 -1))^  ret void }
Form 2: define void @f() {^  call void @g(metadata !1)^  ret void }
Unsupported 2 @llvm.ctpop.i65: define void @f() {^  call void @llvm.ctpop.i65(ptr %p)^  ret void }
Items 1: define void @f() {^  call void @llvm.dbg.declare(metadata ptr %p, metadata !1, metadata !DIExpression()), !dbg !2^  ret void }
Form 2: define void @f() {^  call void @llvm.dbg.value(metadata !{ ( })^  ret void }
Items 1: define void @f() {^  call void @llvm.dbg.value(metadata %t undef, i32 1)^  ret void }
Form 2: define void @f() {^  call void @llvm.dbg.value(metadata %x)^  ret void }
Items 1: define void @f() {^  call void @llvm.dbg.value(metadata i32 %x, metadata !1, metadata !DIExpression(DW_OP_plus, 8)), !dbg !4^  call void @llvm.dbg.label(metadata !{!1})^  ret void }
Form 2: define void @f() {^  call void @llvm.dbg.value(metadata i32)^  ret void }
Items 1: define void @f() {^  call void @llvm.lifetime.start.p0(i64 4, ptr %p)^  call void @llvm.memcpy.p0.p0.i64(ptr align 4 %p, ptr %q, i64 8, i1 false)^  ret void }
Unsupported 2 @llvm.va_start: define void @f() {^  call void @llvm.va_start(ptr %p)^  ret void }
Items 1: define void @f() {^  freeze i32 1^  load i8, ptr @g, align 1, !a !b^  select i1 true, i8 1, i8 2^  alloca i8^  ret void }
Unsupported 2 musttail: define void @f() {^  musttail call void @g()^  ret void }
Items 1: define void @f() {^  notail call void @g()^  foo bar(1) align 4^  ret void }
Form 2: define void @f() {^  notail tail call void @g()^  ret void }
Form 2: define void @f() {^  nounwind^  ret void }
Form 2: define void @f() {^  ret i32 void^}
Form 2: define void @f() {^  ret i8 1.0^}
Form 2: define void @f() {^  ret i8 c"a"^}
Form 2: define void @f() {^  ret i8 zeroinitializer^}
Form 2: define void @f() {^  ret ptr inttoptr (i8 1 to ptr)^}
Form 2: define void @f() {^  ret void foo^}
Form 2: define void @f() {^  ret void, align 4^}
Form 5: define void @f() {^  ret void^  ret i32 1, !dbg !1^}^define void @g() { ret }
Items 1: define void @f() {^  ret void^}
Form 2: define void @f() {^  store i32 1 ptr %p^  ret void }
Form 2: define void @f() {^  store i32 1, ptr %p, align %x^  ret void }
Form 2: define void @f() {^  switch i32 1, label %d [ i32 0, label %a, ]^}
Items 1: define void @f() {^  switch i32 1, label %d [ i32 0, label %a^ i32 1, label %b ], !prof !0^}
Items 1: define void @f() {^  switch i8 %x, label %d []^}
Form 2: define void @f() {^  switch i8 1 [ ]^}
Form 2: define void @f() {^  switch i8 1, label %d [ i8 %x, label %a ]^}
Form 2: define void @f() {^  switch i8 1, label %d [ i8 1, label %a i8 2 label %b ]^}
Form 2: define void @f() {^  switch i8 1, label %d, [ ]^}
Form 2: define void @f() {^  tail add i32 1, 2^  ret void }
Form 2: define void @f() {^  unreachable void^}
Items 1: define void @f() {^  unreachable, !a !b, !c !d^}
Items 1: define void @f() {^1:^  br label %"a b"^"a b":^  ret void }
Items 1: define void @f() {^add:^  ret void }
Items 1: define void @f() {^e:^  %c = icmp ult i32 1, 2^  br i1 %c, label %t, label %t^t:^  br label %e^}
Form 3: define void @f() {^e:^e:^  ret void }
Form 3: define void @f() {^e:^}
Items 1: define void @f(i32 %a) {^  %1 = add nsw nuw i32 %a, 1^  %2 = sub i32 %1, -1^  %3 = mul nuw i32 %2, %2^  %4 = shl nsw i32 %3, 1^  %5 = udiv exact i32 %4, 2^  %6 = sdiv i32 %5, 2^  %7 = lshr exact i32 %6, 1^  %8 = ashr i32 %7, 1^  %9 = urem i32 %8, 3^  %10 = srem i32 %9, 3^  %11 = and i32 %10, 7^  %12 = or i32 %11, undef^  %13 = xor i32 %12, poison, !a !b, !c !d^  ret void }
"#;
