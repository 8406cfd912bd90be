//! Operations, phis and terminators.

/// Lines of a body, of which the first is the second of the text, and what is told of the text.
pub(crate) const OPERATIONS: &str = r#"
Form 2: %x = %y = add i8 1, 2
Form 2: %x = 1
Form 2: %x = unreachable
Form 2: %x == add i8 1, 2
Form 2: @x = add i8 1, 2
Unsupported 2 <: add <2 x i8> %x, %y
Form 2: add exact i32 %a, %b
Form 2: add exact i8 1, 2
Form 2: add i8 1, 2 !a !b
Form 3: add i8 1, 2, !a^  , !b
Form 2: add i8 1, 2, 3
Form 2: add i8 1, 2, align 4
Form 3: add i8 1, 2^  , !a !b !c
Items 1: add i8 1, 2^  add nuw i8 1, 2, !a !b^  add nsw i8 1, 2, !a !b, !a !b^  add nsw nuw i8 1, 2^  add nuw nuw i8 1, 2^  sub i8 1, 2^  sub nuw i8 1, 2, !a !b^  sub nsw i8 1, 2, !a !b, !a !b^  sub nsw nuw i8 1, 2^  sub nuw nuw i8 1, 2^  mul i8 1, 2^  mul nuw i8 1, 2, !a !b^  mul nsw i8 1, 2, !a !b, !a !b^  mul nsw nuw i8 1, 2^  mul nuw nuw i8 1, 2^  shl i8 1, 2^  shl nuw i8 1, 2, !a !b^  shl nsw i8 1, 2, !a !b, !a !b^  shl nsw nuw i8 1, 2^  shl nuw nuw i8 1, 2
Form 3: add i8 1, 2^e:
Form 2: add i8 nuw 1, 2
Items 1: add nuw nsw i32 %a, %b
Form 2: alloca 1
Items 1: alloca i32, i64 2, align 8
Form 2: alloca i8 align 1
Form 2: alloca i8, !a !b, align 1
Unsupported 2 addrspace: alloca i8, addrspace(5)
Form 2: alloca i8, align 1, align 1
Form 3: alloca i8, i64
Form 2: alloca i8, i64 1, i64 1
Items 1: alloca i8^  alloca i8, !a !b, !a !b^  alloca i8, i8 -1^  alloca i8, ptr 2, !a !b^  alloca i8, align 8, !a !b^  alloca i8, %t 3, align 9, !a !b, !a !b
Unsupported 2 inalloca: alloca inalloca i8
Form 2: and i8 1 2
Unsupported 2 <: bitcast i8 1 to <1 x i8>
Form 2: br %a, label %b, label %c
Form 2: br i1 %c label %a, label %b
Form 2: br i1 %c, label %a label %b
Form 2: br i1 %c, label %a, %b
Form 2: br i1 %c, label %a, label %b, label %c
Form 2: br i1 %c, label %a, label 1
Form 2: br i1, label %a, label %b
Form 2: br label %a !a !b
Form 2: br label %a, label %b
Unsupported 5 alloca: br label %b^b:^  %x = phi i8 [ 1, %b ]^  alloca i8
Form 5: br label %b^b:^  call void @llvm.dbg.label(metadata !0)^  %x = phi i8 [ 1, %b ]
Form 4: br label %b^b:^  phi [ 1, %b ]
Form 4: br label %b^b:^  phi i8 1, %b
Form 4: br label %b^b:^  phi i8 [ %b ]
Form 4: br label %b^b:^  phi i8 [ 1 %b ]
Form 4: br label %b^b:^  phi i8 [ 1, %b ] [ 2, %c ]
Form 5: br label %b^b:^  phi i8 [ 1, %b ],
Form 5: br label %b^b:^  phi i8 [ 1, %b ], !a
Form 4: br label %b^b:^  phi i8 [ 1, %b ], align 1
Items 1: br label %b^b:^  phi i8 [ 1, %b ]^  %x = phi i8 [ 1, %b ], [ 2, %c ], [ 3, %d ]^  phi i8 [ 1, %b ], !a !b, !c !d^  %y = add i8 1, 2^  br label %c^c:^  %z = phi { i8 } [ undef, %"b c" ], [ @g, %9 ]
Form 4: br label %b^b:^  phi i8 [ 1, %b }
Form 4: br label %b^b:^  phi i8 [ 1, %b, ]
Form 4: br label %b^b:^  phi i8 [ 1, 2 ]
Form 4: br label %b^b:^  phi i8 [ 1, @b ]
Form 4: br label %b^b:^  phi i8 [ 1, b ]
Form 4: br label %b^b:^  phi i8 [ ]
Form 4: br label %b^b:^  phi i8 [ i8 1, %b ]
Form 4: br label %b^b:^  phi void [ 1, %b ]
Items 1: br label %b^b:^  ret void^  phi i8 [ 1, %b ]
Form 5: br label %b^b:^  store i8 1, ptr %p^  phi i8 [ 1, %b ]
Form 2: br label a
Form 2: br void
Unsupported 2 fadd: fadd float %a, %b
Items 1: freeze i32 poison, !dbg !7, !tbaa !8
Form 3: freeze i8
Form 2: freeze i8 1, 2
Form 2: freeze i8 1, i8 2
Form 2: freeze void
Form 2: getelementptr (i8, ptr %p)
Form 2: getelementptr i8 ptr %p
Form 3: getelementptr i8, %p
Form 2: getelementptr i8, ptr %p i64 1
Form 2: getelementptr i8, ptr %p, !dbg !7, i64 1
Unsupported 2 <: getelementptr i8, ptr %p, <2 x i64> %i
Form 2: getelementptr i8, ptr %p, align 1
Form 3: getelementptr i8, ptr %p, i64
Form 2: getelementptr i8, ptr %p, void 1
Items 1: getelementptr i8, ptr null^  getelementptr inbounds i8, ptr null, !a !b, !a !b^  %x = getelementptr i8, ptr null, i8 1, !a !b
Items 1: getelementptr inbounds [4 x i32], ptr %p, i64 0, i64 %i, !dbg !7
Form 2: getelementptr nuw i8, ptr %p
Form 2: icmp eq 1, 2
Form 2: icmp eq i8 1 2
Items 1: icmp eq i8 1, 2^  icmp ne i8 1, 2, !a !b^  icmp ugt i8 1, 2, !a !b, !a !b^  icmp uge i8 1, 2^  icmp ult i8 1, 2, !a !b^  icmp ule i8 1, 2, !a !b, !a !b^  icmp sgt i8 1, 2^  icmp sge i8 1, 2, !a !b^  icmp slt i8 1, 2, !a !b, !a !b^  icmp sle i8 1, 2
Form 2: icmp eq i8 1, i8 2
Form 2: icmp eq void 1, 2
Form 2: icmp eq, i8 1, 2
Form 2: icmp oeq i8 1, 2
Items 1: icmp sle i32 %a, undef
Form 2: icmp true i8 1, 2
Form 2: inttoptr (i64 1 to ptr)
Form 2: inttoptr i64 1 to ptr 2
Unsupported 2 atomic: load atomic i8, ptr %p acquire, align 1
Items 1: load i32, ptr %p, align 4, !tbaa !8
Form 3: load i8, %p
Form 2: load i8, ptr %p monotonic
Form 3: load i8, ptr %p, align
Form 2: load i8, ptr %p, align 1, align 1
Form 2: load i8, ptr %p, align 1.0
Form 2: load i8, ptr %p, i8 1
Items 1: load i8, ptr null^  load i8, ptr null, !a !b, !a !b^  %x = load i8, ptr null, align 2^  load i8, i8 null, align -1, !a !b
Form 2: load ptr %p
Form 2: load void, ptr %p
Form 3: lshr exact i8 1
Form 2: lshr nuw i8 1, 2
Form 2: mul 1, 2
Form 2: mul void 1, 2
Form 2: nuw add i8 1, 2
Form 2: or disjoint i8 1, 2
Items 1: ptrtoint ptr @g to i64
Form 2: ptrtoint ptr null to void
Form 3: ret
Form 2: ret 1
Form 3: ret i8
Form 2: ret i8 1 !a !b
Form 2: ret i8 1, 2
Form 2: ret label %a
Form 2: ret void !a !b
Form 2: ret void 1
Form 3: ret void }
Items 1: ret void^  br label %a^  unreachable^b:
Items 1: ret void^  ret void, !a !b^a:^  ret i8 1^  ret { i8 } undef, !a !b, !c !d^  br label %a^b:^  br label %a, !a !b, !c !d^  br i1 true, label %a, label %b^  br ptr 1, label %a, label %b, !a !b, !c !d^  unreachable^  unreachable, !a !b
Form 2: sdiv exact 1, 2
Items 1: sdiv exact i64 %a, -8
Form 2: select %c, i8 1, i8 2
Form 2: select i1 %c i8 1, i8 2
Items 1: select i1 %c, i32 1, i32 2
Form 3: select i1 %c, i8 1
Form 2: select i1 %c, i8 1 i8 2
Form 2: select i1 %c, i8 1, i8 2, i8 3
Form 2: select i1 %c, label %a, label %b
Items 1: select i1 true, i8 1, i8 2, !a !b, !a !b^  freeze i8 1, !a !b^  freeze ptr null, !a !b, !a !b
Form 2: sext i8 1, i16
Form 2: sext i8 to i16
Form 2: shl exact i8 1, 2
Form 2: shl i8, 2
Items 1: shl nsw nsw i8 %a, 3, !dbg !7
Form 2: srem nsw i8 1, 2
Items 1: store i32 %a, ptr %p, align 4
Form 3: store i8 1
Form 3: store i8 1, %p
Form 2: store i8 1, ptr %p align 1
Form 2: store i8 1, ptr %p, !a !b, align 1
Form 2: store i8 1, ptr %p, align 1, align 1
Items 1: store i8 1, ptr null^  store i8 1, ptr null, !a !b, !a !b^  %x = store i8 1, ptr null, align 2^  store i8 1, i8 null, align 0, !a !b
Form 2: store i8, ptr %p
Form 2: store void 1, ptr %p
Unsupported 2 volatile: store volatile i8 1, ptr %p
Form 2: sub nuw exact i8 1, 2
Form 2: switch i8 1, %a []
Form 3: switch i8 1, label %a
Form 2: switch i8 1, label %a [ 1, label %b ]
Form 2: switch i8 1, label %a [ ] !a !b
Form 2: switch i8 1, label %a [ i8 1 label %b ]
Form 2: switch i8 1, label %a [ i8 1, %b ]
Form 2: switch i8 1, label %a [ i8 1, label %b }
Form 2: switch i8 1, label %a [ i8 1, label %b, i8 2, label %c ]
Form 2: switch i8 1, label %a [ i8 1, label b ]
Items 1: switch i8 1, label %a [ i8 2, label %b ]^  switch i8 1, label %a [ ], !a !b, !c !d^  switch ptr 1, label %a [ i8 -2, label %b ptr 3, label %c { i8 } 4, label %d ], !a !b
Form 2: switch i8 1, label %a [ i8 true, label %b ]
Form 2: switch i8 1, label %a [ i8, label %b ]
Form 2: switch i8 1, label %a { }
Form 2: switch i8 1, label a []
Form 2: switch i8, label %a []
Form 2: switch void 1, label %a []
Items 1: tail call i32 @f(i32 %a)
Form 2: to i8 1
Items 1: trunc i8 1 to i8^  trunc i8 1 to i8, !a !b^  trunc i8 1 to i8, !a !b, !a !b^  zext i8 1 to i8^  zext i8 1 to i8, !a !b^  zext i8 1 to i8, !a !b, !a !b^  sext i8 1 to i8^  sext i8 1 to i8, !a !b^  sext i8 1 to i8, !a !b, !a !b^  ptrtoint i8 1 to i8^  ptrtoint i8 1 to i8, !a !b^  ptrtoint i8 1 to i8, !a !b, !a !b^  inttoptr i8 1 to i8^  inttoptr i8 1 to i8, !a !b^  inttoptr i8 1 to i8, !a !b, !a !b^  bitcast i8 1 to i8^  bitcast i8 1 to i8, !a !b^  bitcast i8 1 to i8, !a !b, !a !b
Form 2: trunc i8 1 to to i1
Form 2: trunc nuw i8 1 to i1
Form 2: udiv exact exact i8 1, 2
Items 1: udiv i8 1, 2, !a !b^  udiv exact i8 1, 2^  udiv exact i8 1, 2, !a !b, !a !b^  sdiv i8 1, 2, !a !b^  sdiv exact i8 1, 2^  sdiv exact i8 1, 2, !a !b, !a !b^  lshr i8 1, 2, !a !b^  lshr exact i8 1, 2^  lshr exact i8 1, 2, !a !b, !a !b^  ashr i8 1, 2, !a !b^  ashr exact i8 1, 2^  ashr exact i8 1, 2, !a !b, !a !b
Form 2: unreachable !a !b
Form 3: unreachable, !a
Form 2: unreachable, a
Form 2: urem exact i8 1, 2
Form 3: urem i8
Items 1: urem i8 1, 2^  urem i8 1, 2, !a !b^  urem i8 1, 2, !a !b, !a !b^  srem i8 1, 2^  srem i8 1, 2, !a !b^  srem i8 1, 2, !a !b, !a !b^  and i8 1, 2^  and i8 1, 2, !a !b^  and i8 1, 2, !a !b, !a !b^  or i8 1, 2^  or i8 1, 2, !a !b^  or i8 1, 2, !a !b, !a !b^  xor i8 1, 2^  xor i8 1, 2, !a !b^  xor i8 1, 2, !a !b, !a !b
Form 2: x = add i8 1, 2
Items 1: xor i1 %a, true
Form 2: zext nneg i8 1 to i16
"#;
