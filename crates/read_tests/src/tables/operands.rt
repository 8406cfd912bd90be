//! Values as operands.

/// Lines of a body, of which the first is the second of the text, and what is told of the text.
pub(crate) const OPERANDS: &str = r#"
Form 2: add i8 !a, 1
Form 2: add i8 #1, 1
Items 1: add i8 %x, @a^  add i8 @a, -1^  add i8 -1, true^  add i8 true, false^  add i8 false, null^  add i8 null, undef^  add i8 undef, poison^  add i8 poison, getelementptr (i8, ptr @a, i64 1)^  add i8 getelementptr (i8, ptr @a, i64 1), %x
Form 2: add i8 1, "a"
Form 2: add i8 1, i8 2
Form 2: add i8 1, zeroinitializer
Form 2: add i8 1.5, 1
Form 2: add i8 add (i8 1, i8 2), 1
Unsupported 2 blockaddress: add i8 blockaddress(@f, %a), 1
Form 2: add i8 c"a", 1
Form 2: add i8 none, 1
Form 2: add i8 zeroinitializer, 1
Form 2: add { i8 } { i8 1 }, undef
Items 1: br i1 %x, label %a, label %b^  br i1 @a, label %a, label %b^  br i1 -1, label %a, label %b^  br i1 true, label %a, label %b^  br i1 false, label %a, label %b^  br i1 null, label %a, label %b^  br i1 undef, label %a, label %b^  br i1 poison, label %a, label %b^  br i1 getelementptr (i8, ptr @a, i64 1), label %a, label %b
Items 1: br label %b^b:^  phi i8 [ %x, %b ], [ @a, %b ], [ -1, %b ], [ true, %b ], [ false, %b ], [ null, %b ], [ undef, %b ], [ poison, %b ], [ getelementptr (i8, ptr @a, i64 1), %b ]
Form 4: br label %b^b:^  phi i8 [ zeroinitializer, %b ]
Items 1: call void @llvm.dbg.value(metadata i8 %x, metadata i8 @a, metadata i8 -1, metadata i8 true, metadata i8 false, metadata i8 null, metadata i8 undef, metadata i8 poison, metadata i8 getelementptr (i8, ptr @a, i64 1))
Items 1: freeze i8 %x^  freeze i8 @a^  freeze i8 -1^  freeze i8 true^  freeze i8 false^  freeze i8 null^  freeze i8 undef^  freeze i8 poison^  freeze i8 getelementptr (i8, ptr @a, i64 1)
Items 1: getelementptr i8, ptr %x, i64 @a^  getelementptr i8, ptr @a, i64 -1^  getelementptr i8, ptr -1, i64 true^  getelementptr i8, ptr true, i64 false^  getelementptr i8, ptr false, i64 null^  getelementptr i8, ptr null, i64 undef^  getelementptr i8, ptr undef, i64 poison^  getelementptr i8, ptr poison, i64 getelementptr (i8, ptr @a, i64 1)^  getelementptr i8, ptr getelementptr (i8, ptr @a, i64 1), i64 %x
Items 1: icmp eq i8 %x, @a^  icmp eq i8 @a, -1^  icmp eq i8 -1, true^  icmp eq i8 true, false^  icmp eq i8 false, null^  icmp eq i8 null, undef^  icmp eq i8 undef, poison^  icmp eq i8 poison, getelementptr (i8, ptr @a, i64 1)^  icmp eq i8 getelementptr (i8, ptr @a, i64 1), %x
Items 1: load i8, ptr %x^  load i8, ptr @a^  load i8, ptr -1^  load i8, ptr true^  load i8, ptr false^  load i8, ptr null^  load i8, ptr undef^  load i8, ptr poison^  load i8, ptr getelementptr (i8, ptr @a, i64 1)
Items 1: ret i8 %x^l:^  ret i8 @a^l:^  ret i8 -1^l:^  ret i8 true^l:^  ret i8 false^l:^  ret i8 null^l:^  ret i8 undef^l:^  ret i8 poison^l:^  ret i8 getelementptr (i8, ptr @a, i64 1)
Items 1: select i1 %x, i8 @a, i8 -1^  select i1 @a, i8 -1, i8 true^  select i1 -1, i8 true, i8 false^  select i1 true, i8 false, i8 null^  select i1 false, i8 null, i8 undef^  select i1 null, i8 undef, i8 poison^  select i1 undef, i8 poison, i8 getelementptr (i8, ptr @a, i64 1)^  select i1 poison, i8 getelementptr (i8, ptr @a, i64 1), i8 %x^  select i1 getelementptr (i8, ptr @a, i64 1), i8 %x, i8 @a
Form 2: select i1 icmp eq (i8 1, i8 2), i8 1, i8 2
Items 1: store i8 %x, ptr @a^  store i8 @a, ptr -1^  store i8 -1, ptr true^  store i8 true, ptr false^  store i8 false, ptr null^  store i8 null, ptr undef^  store i8 undef, ptr poison^  store i8 poison, ptr getelementptr (i8, ptr @a, i64 1)^  store i8 getelementptr (i8, ptr @a, i64 1), ptr %x
Form 2: store i8 1, ptr void
Form 2: store ptr zeroinitializer, ptr %p
Items 1: switch i8 %x, label %a []^  switch i8 @a, label %a []^  switch i8 -1, label %a []^  switch i8 true, label %a []^  switch i8 false, label %a []^  switch i8 null, label %a []^  switch i8 undef, label %a []^  switch i8 poison, label %a []^  switch i8 getelementptr (i8, ptr @a, i64 1), label %a []
Items 1: zext i8 %x to i16^  zext i8 @a to i16^  zext i8 -1 to i16^  zext i8 true to i16^  zext i8 false to i16^  zext i8 null to i16^  zext i8 undef to i16^  zext i8 poison to i16^  zext i8 getelementptr (i8, ptr @a, i64 1) to i16
"#;
