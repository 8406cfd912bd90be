//! Global variables and aliases.

/// Whole texts, and what is told of them.
pub(crate) const GLOBALS: &str = r#"
Items 2: @0 = global i8 0^@"a b" = external constant %t #3
Unsupported 1 addrspace: @a = addrspace(1) constant i8 0
Form 1: @a = alias
Form 1: @a = alias (i8), ptr @b
Form 1: @a = alias @b
Unsupported 1 half: @a = alias half, ptr @b
Form 1: @a = alias hidden i8, ptr @b
Form 1: @a = alias i32 ptr @b
Items 1: @a = alias i32, ptr @b
Form 1: @a = alias i8
Form 1: @a = alias i8 () (), ptr @b
Form 1: @a = alias i8 (), ptr %b
Form 1: @a = alias i8 (, i8), ptr @b
Form 1: @a = alias i8 (i8 %x), ptr @b
Form 1: @a = alias i8 (i8 i8), ptr @b
Unsupported 1 ...: @a = alias i8 (i8, ...), ptr @b
Form 1: @a = alias i8 (i8, i8,), ptr @b
Form 1: @a = alias i8 (i8], ptr @b
Form 1: @a = alias i8 (void), ptr @b
Form 1: @a = alias i8,
Form 1: @a = alias i8, @b
Form 1: @a = alias i8, i8 @b
Form 1: @a = alias i8, i8* @b
Form 1: @a = alias i8, ptr 1
Form 1: @a = alias i8, ptr @b #0
Form 1: @a = alias i8, ptr @b, align 4
Form 1: @a = alias i8, ptr @b, partition "p"
Unsupported 1 @llvm.foo: @a = alias i8, ptr @llvm.foo
Unsupported 1 addrspacecast: @a = alias i8, ptr addrspacecast (ptr @b to ptr)
Form 1: @a = alias i8, ptr bitcast (ptr @b to ptr)
Items 1: @a = alias i8, ptr getelementptr (i8, ptr @b)
Form 1: @a = alias i8, ptr null
Form 1: @a = alias i8, ptr ptr @b
Form 1: @a = alias ptr @b
Form 1: @a = alias type, ptr @b
Form 1: @a = constant
Form 1: @a = constant 1
Form 1: @a = constant i8
Items 1: @a = dso_local global [4 x i32] [i32 1, i32 2, i32 3, i32 4], align 4
Form 1: @a = dso_local private global i8 0
Items 1: @a = dso_preemptable default externally_initialized local_unnamed_addr fastcc coldcc ccc constant i8 1
Unsupported 1 addrspace: @a = external addrspace(1) global i8
Form 1: @a = external alias i32, ptr @b
Form 1: @a = external constant i8 zeroinitializer
Items 1: @a = external dso_local dso_preemptable default hidden protected unnamed_addr local_unnamed_addr externally_initialized ccc fastcc coldcc global i8
Unsupported 1 extern_weak: @a = external extern_weak global i8
Form 1: @a = external external global i8
Form 1: @a = external global
Form 1: @a = external global #0
Form 1: @a = external global i32 0
Items 1: @a = external global i32, align 4
Form 1: @a = external global i8 !a !b
Items 1: @a = external global i8 #0, align 4, !a !b, align 8 #1, !"a b" !0
Form 1: @a = external global i8, align 4 0
Form 1: @a = external hidden alias i8, ptr @b
Form 1: @a = external i8
Unsupported 1 <: @a = global <2 x i8> zeroinitializer
Form 1: @a = global <{ i8 }> <{ i8 1 }
Form 1: @a = global [ -1 x i8 ] undef
Form 1: @a = global [1 x i8] [i8 1,]
Form 1: @a = global [1 x i8] [i8]
Items 1: @a = global [2 x [2 x i8]] [[2 x i8] c"ab", [2 x i8] zeroinitializer]
Form 1: @a = global [2 x i8] [i8 1 i8 2]
Items 1: @a = global [4294967295 x i8] undef
Form 1: @a = global [4294967296 x i8] undef
Form 1: @a = global constant i8 0
Unsupported 1 float: @a = global float 0.0
Form 1: @a = global hidden i8 0
Unsupported 1 i08: @a = global i08 0
Items 3: @a = global i1 true^@b = global i1 false^@c = global i8 poison
Form 1: @a = global i32
Items 1: @a = global i32 %x
Items 1: @a = global i32 0
Unsupported 1 section: @a = global i32 0, section "s"
Form 2: @a = global i32 0,^align x
Items 2: @a = global i32 zeroinitializer^@0 = global ptr null
Unsupported 1 i65: @a = global i65 0
Form 1: @a = global i8 0 !a !b
Form 1: @a = global i8 0 "a"
Items 1: @a = global i8 0 #0 #1, align 1, align 2, !a !b
Form 1: @a = global i8 0 0
Form 1: @a = global i8 0 align 4
Form 1: @a = global i8 0 nounwind
Form 1: @a = global i8 0, !a 1
Form 1: @a = global i8 0, !a, !b
Form 2: @a = global i8 0, !dbg^@b = global i8 0
Form 1: @a = global i8 0, "a"
Form 1: @a = global i8 0, #1
Form 1: @a = global i8 0, , align 4
Form 1: @a = global i8 0, 1
Items 1: @a = global i8 0, align -1
Form 1: @a = global i8 0, align 4 align 8
Form 1: @a = global i8 0, align 4,
Form 1: @a = global i8 0, align 4.0
Form 1: @a = global i8 0, align(4)
Form 1: @a = global i8 0, code_model "tiny"
Form 1: @a = global ptr getelementptr (i8, i64 @b)
Form 1: @a = global ptr getelementptr (i8, ptr %b)
Form 1: @a = global ptr getelementptr (i8, ptr @b, i64 %x)
Form 1: @a = global ptr getelementptr (ptr @b)
Items 1: @a = global ptr getelementptr inbounds (i8, ptr @b, i64 1)
Items 1: @a = global ptr getelementptr inbounds ({ i8, i64 }, ptr @b, i64 0, i32 1), align 8
Form 1: @a = global ptr inttoptr (i64 1 to ptr)
Form 2: @a = global ptr {ptr {ptr {ptr {ptr {ptr {ptr {ptr {ptr {ptr {ptr {ptr {ptr {ptr {ptr {ptr {ptr {ptr {ptr {ptr {ptr {ptr {ptr {ptr {ptr {ptr {ptr {ptr {ptr {ptr {ptr {ptr {ptr {ptr {ptr {ptr {ptr {ptr {ptr {ptr {ptr {ptr {ptr {ptr {ptr {ptr {ptr {ptr {ptr {ptr {ptr {ptr {ptr {ptr {ptr {ptr {ptr {ptr {ptr {ptr {ptr {ptr {ptr {ptr {^{
Form 2: @a = global ptr {ptr {ptr {ptr {ptr {ptr {ptr {ptr {ptr {ptr {ptr {ptr {ptr {ptr {ptr {ptr {ptr {ptr {ptr {ptr {ptr {ptr {ptr {ptr {ptr {ptr {ptr {ptr {ptr {ptr {ptr {ptr {ptr {ptr {ptr {ptr {ptr {ptr {ptr {ptr {ptr {ptr {ptr {ptr {ptr {ptr {ptr {ptr {ptr {ptr {ptr {ptr {ptr {ptr {ptr {ptr {ptr {ptr {ptr {ptr {ptr {ptr {ptr {ptr {ptr ^getelementptr (i8, ptr @b)
Form 2: @a = global ptr {ptr {ptr {ptr {ptr {ptr {ptr {ptr {ptr {ptr {ptr {ptr {ptr {ptr {ptr {ptr {ptr {ptr {ptr {ptr {ptr {ptr {ptr {ptr {ptr {ptr {ptr {ptr {ptr {ptr {ptr {ptr {ptr {ptr {ptr {ptr {ptr {ptr {ptr {ptr {ptr {ptr {ptr {ptr {ptr {ptr {ptr {ptr {ptr {ptr {ptr {ptr {ptr {ptr {ptr {ptr {ptr {ptr {ptr {ptr {ptr {ptr {ptr {ptr {ptr ^{
Items 1: @a = global ptr {ptr {ptr {ptr {ptr {ptr {ptr {ptr {ptr {ptr {ptr {ptr {ptr {ptr {ptr {ptr {ptr {ptr {ptr {ptr {ptr {ptr {ptr {ptr {ptr {ptr {ptr {ptr {ptr {ptr {ptr {ptr {ptr {ptr {ptr {ptr {ptr {ptr {ptr {ptr {ptr {ptr {ptr {ptr {ptr {ptr {ptr {ptr {ptr {ptr {ptr {ptr {ptr {ptr {ptr {ptr {ptr {ptr {ptr {ptr {ptr {ptr {ptr {ptr {}}}}}}}}}}}}}}}}}}}}}}}}}}}}}}}}}}}}}}}}}}}}}}}}}}}}}}}}}}}}}}}}
Form 1: @a = global void 0
Form 1: @a = global { i8, ptr } { i8 1 ]
Form 2: @a = global {{{{{{{{{{{{{{{{{{{{{{{{{{{{{{{{{{{{{{{{{{{{{{{{{{{{{{{{{{{{{{{{^{
Items 2: @a = global {} {}^@b = global [0 x i8] []
Items 1: @a = hidden alias void (i32, ptr), ptr @b
Form 1: @a = hidden external global i8
Form 1: @a = hidden i8 0
Form 1: @a = hidden internal global i8 0
Unsupported 1 thread_local: @a = hidden thread_local(localdynamic) global i8 0
Form 1: @a = i8 0
Unsupported 1 ifunc: @a = ifunc i32, ptr @b
Items 1: @a = internal alias i8, getelementptr (i8, ptr @b, i64 -4)
Form 1: @a = internal external global i8
Items 1: @a = internal hidden global { i8, ptr } { i8 1, ptr @b }
Form 1: @a = noalias global i32 0
Items 6: @a = private constant i8 0^@b = internal constant i8 0^@c = constant i8 0^@d = external constant i8^@e = private alias i8, ptr @a^@f = internal alias i8, ptr @a
Items 1: @a = private dso_local alias { i8, i8 }, getelementptr inbounds (i8, ptr @b, i32 1)
Items 1: @a = private dso_local dso_preemptable default hidden protected unnamed_addr local_unnamed_addr externally_initialized ccc fastcc coldcc alias i8, ptr @b
Items 5: @a = private hidden alias { i8 }, getelementptr (i8, ptr @b, i64 1, i64 2)^@b = alias [2 x i8] (), ptr @c^@c = alias i8 (i8), ptr @d^@d = alias ptr (i8, ptr, [2 x %t]), ptr getelementptr inbounds (i8, ptr @b)^@e = alias void, ptr @a
Form 1: @a = private i8 0
Form 1: @a = private internal global i8 0
Items 1: @a = private unnamed_addr constant [3 x i8] c"a\00b", align 1, !dbg !0 #1
Items 1: @a = protected global <{ i8, i64 }> <{ i8 1, i64 undef }>
Unsupported 1 thread_local: @a = thread_local global i32 0
Unsupported 1 weak: @a = weak alias i8, ptr @b
Unsupported 1 weak: @a = weak global i32 0
Form 1: @a global i8 0
Items 11: @dso_local = dso_local global i8 0^@dso_preemptable = dso_preemptable global i8 0^@default = default global i8 0^@hidden = hidden global i8 0^@protected = protected global i8 0^@unnamed_addr = unnamed_addr global i8 0^@local_unnamed_addr = local_unnamed_addr global i8 0^@externally_initialized = externally_initialized global i8 0^@ccc = ccc global i8 0^@fastcc = fastcc global i8 0^@coldcc = coldcc global i8 0
Unsupported 1 @llvm.fabs.f64: @llvm.fabs.f64 = global i32 0
Items 3: @llvm.trap = global i8 0^@llvm.dbg.value = external global i8^@llvm.assume = alias i8, ptr @llvm.donothing
"#;
