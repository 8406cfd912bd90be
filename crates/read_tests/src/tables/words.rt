//! Words of the language that are left out, where they may stand in it.

/// Whole texts, and what is told of them.
pub(crate) const WORDS: &str = r#"
Unsupported 2 nest: !0 = distinct^nest
Unsupported 1 $any: $any
Unsupported 1 module: %t = module
Unsupported 1 vscale: %t = type { i8, vscale }
Unsupported 1 x86_fp80: %t = type { x86_fp80 }
Unsupported 1 ...: ...
Unsupported 1 <: <
Unsupported 1 appending: @a = appending global i8 0
Unsupported 1 common: @a = common global i8 0
Unsupported 1 bfloat: @a = global bfloat 0
Unsupported 1 half: @a = global half 0
Unsupported 1 i128: @a = global i128 0
Form 1: @a = global i8 )^half
Unsupported 1 resume: @a = global i8 0, !a resume
Unsupported 2 prefix: @a = global i8 0, align^prefix
Unsupported 1 comdat: @a = global i8 0, comdat
Unsupported 1 partition: @a = global i8 0, partition "p"
Unsupported 1 blockaddress: @a = global ptr blockaddress(@f, %b)
Unsupported 1 dso_local_equivalent: @a = global ptr dso_local_equivalent @f
Unsupported 1 linkonce_odr: @a = linkonce_odr constant i8 0
Unsupported 1 weak_odr: @a = weak_odr global i8 0
Unsupported 2 addrspace: @a =^addrspace(1) global i8 0
Unsupported 1 @llvm.va_start: @llvm.va_start
Form 1: add
Unsupported 1 addrspace: addrspace
Unsupported 1 addrspacecast: addrspacecast
Form 1: alias
Form 1: align
Form 1: and
Unsupported 1 appending: appending
Form 1: ashr
Unsupported 1 asm: asm
Unsupported 1 atomic: atomic
Unsupported 1 atomicrmw: atomicrmw
Form 1: attributes
Form 1: attributes #0 = { ] half
Unsupported 1 common: attributes common
Unsupported 1 available_externally: available_externally
Unsupported 1 bfloat: bfloat
Form 1: bitcast
Unsupported 1 blockaddress: blockaddress
Form 1: br
Unsupported 1 byval: byval
Form 1: call
Unsupported 1 callbr: callbr
Unsupported 1 catchpad: catchpad
Unsupported 1 catchret: catchret
Unsupported 1 catchswitch: catchswitch
Form 1: ccc
Unsupported 1 cleanuppad: cleanuppad
Unsupported 1 cleanupret: cleanupret
Unsupported 1 cmpxchg: cmpxchg
Form 1: coldcc
Unsupported 1 comdat: comdat
Unsupported 1 common: common
Form 1: constant
Form 1: datalayout
Form 1: declare
Unsupported 1 double: declare double @f()
Unsupported 1 extern_weak: declare extern_weak void @f()
Unsupported 1 fp128: declare fp128 @f()
Unsupported 1 token: declare token @f()
Unsupported 1 ppc_fp128: declare void @f(ppc_fp128)
Unsupported 1 byval: declare void @f(ptr byval(i32) %p)
Unsupported 1 inalloca: declare void @f(ptr inalloca(i8))
Unsupported 1 nest: declare void @f(ptr nest, ptr swifterror)
Unsupported 1 preallocated: declare void @f(ptr preallocated(i8) %x)
Unsupported 1 swiftasync: declare void @f(ptr swiftasync)
Unsupported 1 swifterror: declare void @f(ptr swifterror)
Unsupported 1 swiftself: declare void @f(ptr swiftself)
Unsupported 1 x86_amx: declare void @f(x86_amx)
Unsupported 1 x86_mmx: declare x86_mmx @f()
Form 1: default
Unsupported 1 available_externally: define available_externally void @f() { ret void }
Unsupported 1 linkonce: define linkonce void @f() { ret void }^
Unsupported 1 naked: define void @f() naked { ret void }
Unsupported 1 personality: define void @f() personality ptr @p { ret void }
Unsupported 1 prefix: define void @f() prefix i32 1 { ret void }
Unsupported 1 prologue: define void @f() prologue i8 1 {^
Unsupported 2 catchswitch: define void @f() {^  %c = catchswitch within none [label %a] unwind to caller^}
Unsupported 2 half: define void @f() {^  %v = add half 1, 2^  ret void }
Unsupported 2 i65: define void @f() {^  %v = add i65 1, 2^  ret void }
Unsupported 2 addrspacecast: define void @f() {^  %v = addrspacecast ptr %p to ptr addrspace(1)^  ret void }
Unsupported 2 opaque: define void @f() {^  %v = alloca opaque^  ret void }
Unsupported 2 atomicrmw: define void @f() {^  %v = atomicrmw add ptr %p, i32 1 seq_cst^  ret void }
Unsupported 2 cmpxchg: define void @f() {^  %v = cmpxchg ptr %p, i8 1, i8 2 monotonic monotonic^  ret void }
Unsupported 2 extractelement: define void @f() {^  %v = extractelement <2 x i8> %x, i8 0^  ret void }
Unsupported 2 extractvalue: define void @f() {^  %v = extractvalue { i8, i8 } %x, 0^  ret void }
Unsupported 2 fcmp: define void @f() {^  %v = fcmp oeq float %x, %y^  ret void }
Unsupported 2 fmul: define void @f() {^  %v = fmul float 1.0, 2.0^  ret void }
Unsupported 2 fneg: define void @f() {^  %v = fneg float %x^  ret void }
Unsupported 2 fpext: define void @f() {^  %v = fpext float 1.0 to double^  ret void }
Unsupported 2 fptosi: define void @f() {^  %v = fptosi float %x to i32^  ret void }
Unsupported 2 fptoui: define void @f() {^  %v = fptoui float 1.0 to i8^  ret void }
Unsupported 2 fptrunc: define void @f() {^  %v = fptrunc double 1.0 to float^  ret void }
Unsupported 2 fsub: define void @f() {^  %v = fsub float 1.0, 2.0^  ret void }
Unsupported 2 token: define void @f() {^  %v = icmp eq token none, none^  ret void }
Unsupported 2 insertelement: define void @f() {^  %v = insertelement <2 x i8> %x, i8 0, i8 1^  ret void }
Unsupported 2 insertvalue: define void @f() {^  %v = insertvalue { i8 } undef, i8 1, 0^  ret void }
Unsupported 2 landingpad: define void @f() {^  %v = landingpad { ptr, i32 } cleanup^  ret void }
Unsupported 2 atomic: define void @f() {^  %v = load atomic i32, ptr %p seq_cst, align 4^  ret void }
Unsupported 2 shufflevector: define void @f() {^  %v = shufflevector <2 x i8> %x, <2 x i8> %y, <2 x i32> undef^  ret void }
Unsupported 2 sitofp: define void @f() {^  %v = sitofp i8 1 to float^  ret void }
Unsupported 2 uitofp: define void @f() {^  %v = uitofp i32 %x to float^  ret void }
Unsupported 2 va_arg: define void @f() {^  %v = va_arg ptr %p, i8^  ret void }
Unsupported 2 i128: define void @f() {^  %v = zext i8 1 to i128^  ret void }
Unsupported 2 section: define void @f() {^  add section i8 1, 2^  ret void }
Unsupported 4 catchpad: define void @f() {^  br label %b^b:^  %c = catchpad within %d []^  ret void }
Unsupported 4 cleanuppad: define void @f() {^  br label %b^b:^  %c = cleanuppad within none []^  ret void }
Unsupported 4 fadd: define void @f() {^  br label %b^b:^  fadd fast float 1.0, 2.0^  ret void }
Unsupported 4 gc: define void @f() {^  br label %b^b:^  phi i8 [ 1, gc^  ret void }
Unsupported 4 asm: define void @f() {^  br label %b^b:^  phi i8 [ asm^  ret void }
Unsupported 2 vscale: define void @f() {^  br vscale^  ret void }
Unsupported 2 asm: define void @f() {^  call void asm sideeffect "nop", ""()^  ret void }
Unsupported 2 sideeffect: define void @f() {^  call void sideeffect "", ""()^  ret void }
Unsupported 2 callbr: define void @f() {^  callbr void @f() to label %a []^}
Unsupported 2 catchret: define void @f() {^  catchret from %c to label %a^}
Unsupported 2 cleanupret: define void @f() {^  cleanupret from %c unwind to caller^}
Unsupported 2 fdiv: define void @f() {^  fdiv float 1.0, 2.0^  ret void }
Unsupported 2 fence: define void @f() {^  fence seq_cst^  ret void }
Unsupported 2 frem: define void @f() {^  frem float 1.0, 2.0^  ret void }
Unsupported 2 indirectbr: define void @f() {^  indirectbr ptr %p, [label %a]^}
Unsupported 2 invoke: define void @f() {^  invoke void @g() to label %a unwind label %b^}
Unsupported 2 volatile: define void @f() {^  load i8, ptr volatile^  ret void }
Unsupported 2 resume: define void @f() {^  resume i32 1^}
Unsupported 2 bfloat: define void @f() {^  ret bfloat 1.0^}
Unsupported 2 no_cfi: define void @f() {^  ret ptr no_cfi @f^}
Unsupported 2 comdat: define void @f() {^  switch i8 1, label comdat^  ret void }
Items 1: define void @f() {^weak:^  ret void }
Form 1: distinct
Unsupported 1 double: double
Form 1: dso_local
Unsupported 1 dso_local_equivalent: dso_local_equivalent
Form 1: dso_preemptable
Form 1: eq
Form 1: exact
Unsupported 1 extern_weak: extern_weak
Form 1: external
Form 1: externally_initialized
Unsupported 1 extractelement: extractelement
Unsupported 1 extractvalue: extractvalue
Unsupported 1 fadd: fadd
Form 1: false
Form 1: fastcc
Unsupported 1 fcmp: fcmp
Unsupported 1 fdiv: fdiv
Unsupported 1 fence: fence
Unsupported 1 float: float
Unsupported 1 fmul: fmul
Unsupported 1 fneg: fneg
Unsupported 1 fp128: fp128
Unsupported 1 fpext: fpext
Unsupported 1 fptosi: fptosi
Unsupported 1 fptoui: fptoui
Unsupported 1 fptrunc: fptrunc
Form 1: freeze
Unsupported 1 frem: frem
Unsupported 1 fsub: fsub
Unsupported 1 gc: gc
Form 1: getelementptr
Form 1: global
Unsupported 1 half: half
Form 1: hidden
Unsupported 1 i0: i0
Unsupported 1 i08: i08
Form 1: i1
Unsupported 1 i128: i128
Form 1: i64
Unsupported 1 i65: i65
Form 1: icmp
Unsupported 1 ifunc: ifunc
Unsupported 1 inalloca: inalloca
Form 1: inbounds
Unsupported 1 indirectbr: indirectbr
Unsupported 1 insertelement: insertelement
Unsupported 1 insertvalue: insertvalue
Form 1: internal
Form 1: inttoptr
Unsupported 1 invoke: invoke
Form 1: label
Unsupported 1 landingpad: landingpad
Unsupported 1 linkonce: linkonce
Unsupported 1 linkonce_odr: linkonce_odr
Form 1: load
Form 1: local_unnamed_addr
Form 1: lshr
Form 1: metadata
Unsupported 1 module: module
Form 1: mul
Unsupported 1 musttail: musttail
Unsupported 1 naked: naked
Form 1: ne
Unsupported 1 nest: nest
Unsupported 1 no_cfi: no_cfi
Form 1: notail
Form 1: nounwind
Form 1: nsw
Form 1: null
Form 1: nuw
Unsupported 1 opaque: opaque
Form 1: or
Unsupported 1 partition: partition
Unsupported 1 personality: personality
Form 1: phi
Form 1: poison
Unsupported 1 ppc_fp128: ppc_fp128
Unsupported 1 preallocated: preallocated
Unsupported 1 prefix: prefix
Form 1: private
Unsupported 1 prologue: prologue
Form 1: protected
Form 1: ptr
Form 1: ptrtoint
Unsupported 1 resume: resume
Form 1: ret
Form 1: sdiv
Unsupported 1 section: section
Form 1: select
Form 1: sext
Form 1: sge
Form 1: sgt
Form 1: shl
Unsupported 1 shufflevector: shufflevector
Unsupported 1 sideeffect: sideeffect
Unsupported 1 sitofp: sitofp
Form 1: sle
Form 1: slt
Form 1: source_filename
Unsupported 1 naked: source_filename = naked
Form 1: srem
Form 1: store
Form 1: sub
Unsupported 1 swiftasync: swiftasync
Unsupported 1 swifterror: swifterror
Unsupported 1 swiftself: swiftself
Form 1: switch
Form 1: tail
Form 1: target
Unsupported 1 atomic: target atomic
Unsupported 1 thread_local: thread_local
Form 1: to
Unsupported 1 token: token
Form 1: triple
Form 1: true
Form 1: trunc
Form 1: type
Form 1: udiv
Form 1: uge
Form 1: ugt
Unsupported 1 uitofp: uitofp
Form 1: ule
Form 1: ult
Form 1: undef
Form 1: unnamed_addr
Form 1: unreachable
Form 1: urem
Unsupported 1 va_arg: va_arg
Form 1: void
Unsupported 1 volatile: volatile
Unsupported 1 vscale: vscale
Unsupported 1 weak: weak
Unsupported 1 weak_odr: weak_odr
Unsupported 1 x86_amx: x86_amx
Unsupported 1 x86_fp80: x86_fp80
Unsupported 1 x86_mmx: x86_mmx
Form 1: xor
Form 1: zeroinitializer
Form 1: zext
"#;
