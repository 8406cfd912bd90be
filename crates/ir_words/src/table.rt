//! The words of LLVM IR and their classes, by the byte that they begin with.

use crate::class::Class;

/// The words that begin with `a`.
pub(crate) const IN_A: &[(&[u8], Class)] = &[
    (b"attributes", Class::Attributes),
    (b"alias", Class::Alias),
    (b"align", Class::Align),
    (b"add", Class::Add),
    (b"ashr", Class::Ashr),
    (b"and", Class::And),
    (b"alloca", Class::Alloca),
    (b"atomic", Class::Unsupported),
    (b"addrspace", Class::Unsupported),
    (b"available_externally", Class::Unsupported),
    (b"appending", Class::Unsupported),
    (b"asm", Class::Unsupported),
    (b"addrspacecast", Class::Unsupported),
    (b"atomicrmw", Class::Unsupported),
];

/// The words that begin with `b`.
pub(crate) const IN_B: &[(&[u8], Class)] = &[
    (b"bitcast", Class::Bitcast),
    (b"br", Class::Br),
    (b"bfloat", Class::Unsupported),
    (b"byval", Class::Unsupported),
    (b"blockaddress", Class::Unsupported),
];

/// The words that begin with `c`.
pub(crate) const IN_C: &[(&[u8], Class)] = &[
    (b"constant", Class::Constant),
    (b"ccc", Class::Ccc),
    (b"coldcc", Class::Coldcc),
    (b"call", Class::Call),
    (b"comdat", Class::Unsupported),
    (b"common", Class::Unsupported),
    (b"callbr", Class::Unsupported),
    (b"cleanupret", Class::Unsupported),
    (b"catchret", Class::Unsupported),
    (b"catchswitch", Class::Unsupported),
    (b"catchpad", Class::Unsupported),
    (b"cleanuppad", Class::Unsupported),
    (b"cmpxchg", Class::Unsupported),
];

/// The words that begin with `d`.
pub(crate) const IN_D: &[(&[u8], Class)] = &[
    (b"datalayout", Class::Datalayout),
    (b"declare", Class::Declare),
    (b"define", Class::Define),
    (b"distinct", Class::Distinct),
    (b"dso_local", Class::DsoLocal),
    (b"dso_preemptable", Class::DsoPreemptable),
    (b"default", Class::Default),
    (b"double", Class::Unsupported),
    (b"dso_local_equivalent", Class::Unsupported),
];

/// The words that begin with `e`.
pub(crate) const IN_E: &[(&[u8], Class)] = &[
    (b"external", Class::External),
    (b"externally_initialized", Class::ExternallyInitialized),
    (b"exact", Class::Exact),
    (b"eq", Class::Eq),
    (b"extern_weak", Class::Unsupported),
    (b"extractvalue", Class::Unsupported),
    (b"extractelement", Class::Unsupported),
];

/// The words that begin with `f`.
pub(crate) const IN_F: &[(&[u8], Class)] = &[
    (b"fastcc", Class::Fastcc),
    (b"false", Class::False),
    (b"freeze", Class::Freeze),
    (b"float", Class::Unsupported),
    (b"fp128", Class::Unsupported),
    (b"fneg", Class::Unsupported),
    (b"fadd", Class::Unsupported),
    (b"fsub", Class::Unsupported),
    (b"fmul", Class::Unsupported),
    (b"fdiv", Class::Unsupported),
    (b"frem", Class::Unsupported),
    (b"fcmp", Class::Unsupported),
    (b"fptrunc", Class::Unsupported),
    (b"fpext", Class::Unsupported),
    (b"fptoui", Class::Unsupported),
    (b"fptosi", Class::Unsupported),
    (b"fence", Class::Unsupported),
];

/// The words that begin with `g`.
pub(crate) const IN_G: &[(&[u8], Class)] = &[
    (b"global", Class::GlobalWord),
    (b"getelementptr", Class::Getelementptr),
    (b"gc", Class::Unsupported),
];

/// The words that begin with `h`.
pub(crate) const IN_H: &[(&[u8], Class)] = &[
    (b"hidden", Class::Hidden),
    (b"half", Class::Unsupported),
];

/// The words that begin with `i`.
pub(crate) const IN_I: &[(&[u8], Class)] = &[
    (b"internal", Class::Internal),
    (b"inbounds", Class::Inbounds),
    (b"icmp", Class::Icmp),
    (b"inttoptr", Class::Inttoptr),
    (b"ifunc", Class::Unsupported),
    (b"invoke", Class::Unsupported),
    (b"inalloca", Class::Unsupported),
    (b"insertvalue", Class::Unsupported),
    (b"insertelement", Class::Unsupported),
    (b"indirectbr", Class::Unsupported),
];

/// The words that begin with `l`.
pub(crate) const IN_L: &[(&[u8], Class)] = &[
    (b"local_unnamed_addr", Class::LocalUnnamedAddr),
    (b"lshr", Class::Lshr),
    (b"load", Class::Load),
    (b"label", Class::LabelWord),
    (b"linkonce", Class::Unsupported),
    (b"linkonce_odr", Class::Unsupported),
    (b"landingpad", Class::Unsupported),
];

/// The words that begin with `m`.
pub(crate) const IN_M: &[(&[u8], Class)] = &[
    (b"metadata", Class::Metadata),
    (b"mul", Class::Mul),
    (b"module", Class::Unsupported),
    (b"musttail", Class::Unsupported),
];

/// The words that begin with `n`.
pub(crate) const IN_N: &[(&[u8], Class)] = &[
    (b"null", Class::Null),
    (b"nuw", Class::Nuw),
    (b"nsw", Class::Nsw),
    (b"ne", Class::Ne),
    (b"notail", Class::Notail),
    (b"nest", Class::Unsupported),
    (b"naked", Class::Unsupported),
    (b"no_cfi", Class::Unsupported),
];

/// The words that begin with `o`.
pub(crate) const IN_O: &[(&[u8], Class)] = &[(b"or", Class::Or), (b"opaque", Class::Unsupported)];

/// The words that begin with `p`.
pub(crate) const IN_P: &[(&[u8], Class)] = &[
    (b"private", Class::Private),
    (b"protected", Class::Protected),
    (b"ptr", Class::Ptr),
    (b"poison", Class::Poison),
    (b"phi", Class::Phi),
    (b"ptrtoint", Class::Ptrtoint),
    (b"ppc_fp128", Class::Unsupported),
    (b"partition", Class::Unsupported),
    (b"personality", Class::Unsupported),
    (b"prefix", Class::Unsupported),
    (b"prologue", Class::Unsupported),
    (b"preallocated", Class::Unsupported),
];

/// The words that begin with `r`.
pub(crate) const IN_R: &[(&[u8], Class)] = &[(b"ret", Class::Ret), (b"resume", Class::Unsupported)];

/// The words that begin with `s`.
pub(crate) const IN_S: &[(&[u8], Class)] = &[
    (b"source_filename", Class::SourceFilename),
    (b"sub", Class::Sub),
    (b"shl", Class::Shl),
    (b"sdiv", Class::Sdiv),
    (b"srem", Class::Srem),
    (b"sgt", Class::Sgt),
    (b"sge", Class::Sge),
    (b"slt", Class::Slt),
    (b"sle", Class::Sle),
    (b"select", Class::Select),
    (b"sext", Class::Sext),
    (b"store", Class::Store),
    (b"switch", Class::Switch),
    (b"section", Class::Unsupported),
    (b"sideeffect", Class::Unsupported),
    (b"swiftself", Class::Unsupported),
    (b"swiftasync", Class::Unsupported),
    (b"swifterror", Class::Unsupported),
    (b"sitofp", Class::Unsupported),
    (b"shufflevector", Class::Unsupported),
];

/// The words that begin with `t`.
pub(crate) const IN_T: &[(&[u8], Class)] = &[
    (b"target", Class::Target),
    (b"triple", Class::Triple),
    (b"type", Class::TypeWord),
    (b"true", Class::True),
    (b"trunc", Class::Trunc),
    (b"to", Class::To),
    (b"tail", Class::Tail),
    (b"token", Class::Unsupported),
    (b"thread_local", Class::Unsupported),
];

/// The words that begin with `u`.
pub(crate) const IN_U: &[(&[u8], Class)] = &[
    (b"unnamed_addr", Class::UnnamedAddr),
    (b"undef", Class::Undef),
    (b"udiv", Class::Udiv),
    (b"urem", Class::Urem),
    (b"ugt", Class::Ugt),
    (b"uge", Class::Uge),
    (b"ult", Class::Ult),
    (b"ule", Class::Ule),
    (b"unreachable", Class::Unreachable),
    (b"uitofp", Class::Unsupported),
];

/// The words that begin with `v`.
pub(crate) const IN_V: &[(&[u8], Class)] = &[
    (b"void", Class::Void),
    (b"vscale", Class::Unsupported),
    (b"volatile", Class::Unsupported),
    (b"va_arg", Class::Unsupported),
];

/// The words that begin with `w`.
pub(crate) const IN_W: &[(&[u8], Class)] = &[
    (b"weak", Class::Unsupported),
    (b"weak_odr", Class::Unsupported),
];

/// The words that begin with `x`.
pub(crate) const IN_X: &[(&[u8], Class)] = &[
    (b"x", Class::Times),
    (b"xor", Class::Xor),
    (b"x86_fp80", Class::Unsupported),
    (b"x86_mmx", Class::Unsupported),
    (b"x86_amx", Class::Unsupported),
];

/// The words that begin with `z`.
pub(crate) const IN_Z: &[(&[u8], Class)] = &[
    (b"zeroinitializer", Class::Zeroinitializer),
    (b"zext", Class::Zext),
];
