//! What a token is to the grammar.

/// What a token is to the grammar, by its kind and its text alone.
#[derive(Clone, Copy, PartialEq, Eq)]
pub enum Class {
    /// No token: the text has ended.
    End,
    /// A label: a name or a string, and `:` (LangRef, "Functions").
    Label,
    /// An integer literal (LangRef, "Simple Constants").
    Int,
    /// A floating-point literal (LangRef, "Simple Constants").
    Real,
    /// `"..."` (LangRef, "String constants").
    Str,
    /// `c"..."` (LangRef, "Complex Constants").
    CStr,
    /// A name after `%` (LangRef, "Identifiers").
    Local,
    /// A name or a string after `!` (LangRef, "Metadata").
    Meta,
    /// Digits after `#` (LangRef, "Attribute Groups").
    Attr,
    /// `=`
    Equal,
    /// `,`
    Comma,
    /// `*`
    Star,
    /// `(`
    OpenRound,
    /// `)`
    CloseRound,
    /// `[`
    OpenSquare,
    /// `]`
    CloseSquare,
    /// `{`
    OpenCurly,
    /// `}`
    CloseCurly,
    /// `<{`
    OpenPacked,
    /// `}>`
    ClosePacked,
    /// `<`
    Less,
    /// `>`
    Greater,
    /// `|`
    Bar,
    /// `!`
    Bang,
    /// `...`
    Ellipsis,
    /// A name after `@` that does not begin with `llvm.` (LangRef, "Identifiers").
    Global,
    /// An intrinsic that only carries metadata: `@llvm.dbg.` and more, or
    /// `@llvm.experimental.noalias.scope.decl`.
    MetadataIntrinsic,
    /// An intrinsic that does nothing: `@llvm.lifetime.` and more, `@llvm.assume` or
    /// `@llvm.donothing` (LangRef, "Memory Use Markers" and "General Intrinsics").
    DroppedIntrinsic,
    /// An intrinsic that is compiled (LangRef, "Intrinsic Functions").
    Intrinsic,
    /// Any other name after `@` that begins with `llvm.`.
    UnknownIntrinsic,
    /// `source_filename`
    SourceFilename,
    /// `target`
    Target,
    /// `triple`
    Triple,
    /// `datalayout`
    Datalayout,
    /// `attributes`
    Attributes,
    /// `type`
    TypeWord,
    /// `global`
    GlobalWord,
    /// `constant`
    Constant,
    /// `external`
    External,
    /// `alias`
    Alias,
    /// `declare`
    Declare,
    /// `define`
    Define,
    /// `metadata`
    Metadata,
    /// `distinct`
    Distinct,
    /// `private`
    Private,
    /// `internal`
    Internal,
    /// `dso_local`
    DsoLocal,
    /// `dso_preemptable`
    DsoPreemptable,
    /// `default`
    Default,
    /// `hidden`
    Hidden,
    /// `protected`
    Protected,
    /// `unnamed_addr`
    UnnamedAddr,
    /// `local_unnamed_addr`
    LocalUnnamedAddr,
    /// `externally_initialized`
    ExternallyInitialized,
    /// `ccc`
    Ccc,
    /// `fastcc`
    Fastcc,
    /// `coldcc`
    Coldcc,
    /// `align`
    Align,
    /// `void`
    Void,
    /// `ptr`
    Ptr,
    /// `x`
    Times,
    /// `zeroinitializer`
    Zeroinitializer,
    /// `true`
    True,
    /// `false`
    False,
    /// `null`
    Null,
    /// `undef`
    Undef,
    /// `poison`
    Poison,
    /// `getelementptr`
    Getelementptr,
    /// `inbounds`
    Inbounds,
    /// `phi`
    Phi,
    /// `add`
    Add,
    /// `sub`
    Sub,
    /// `mul`
    Mul,
    /// `shl`
    Shl,
    /// `nuw`
    Nuw,
    /// `nsw`
    Nsw,
    /// `udiv`
    Udiv,
    /// `sdiv`
    Sdiv,
    /// `lshr`
    Lshr,
    /// `ashr`
    Ashr,
    /// `exact`
    Exact,
    /// `urem`
    Urem,
    /// `srem`
    Srem,
    /// `and`
    And,
    /// `or`
    Or,
    /// `xor`
    Xor,
    /// `icmp`
    Icmp,
    /// `eq`
    Eq,
    /// `ne`
    Ne,
    /// `ugt`
    Ugt,
    /// `uge`
    Uge,
    /// `ult`
    Ult,
    /// `ule`
    Ule,
    /// `sgt`
    Sgt,
    /// `sge`
    Sge,
    /// `slt`
    Slt,
    /// `sle`
    Sle,
    /// `select`
    Select,
    /// `trunc`
    Trunc,
    /// `zext`
    Zext,
    /// `sext`
    Sext,
    /// `ptrtoint`
    Ptrtoint,
    /// `inttoptr`
    Inttoptr,
    /// `bitcast`
    Bitcast,
    /// `to`
    To,
    /// `freeze`
    Freeze,
    /// `load`
    Load,
    /// `store`
    Store,
    /// `alloca`
    Alloca,
    /// `tail`
    Tail,
    /// `notail`
    Notail,
    /// `call`
    Call,
    /// `ret`
    Ret,
    /// `br`
    Br,
    /// `label`
    LabelWord,
    /// `switch`
    Switch,
    /// `unreachable`
    Unreachable,
    /// `i` and a width from 1 to 64, written without a leading zero (LangRef, "Integer Type").
    IntType,
    /// A word of LLVM IR that is not compiled.
    Unsupported,
    /// Any other word.
    Attribute,
}
