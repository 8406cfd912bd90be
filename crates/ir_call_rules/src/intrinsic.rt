//! Intrinsics (LangRef, "Intrinsic Functions").

use cg_num::IntegerFunction;

/// A function that LLVM IR defines.
#[derive(Clone, Copy, PartialEq, Eq)]
pub enum Intrinsic {
    /// One of integers of this many bits, from 1 to 64.
    Integer(IntegerFunction, u8),
    /// `llvm.trap`.
    Trap,
    /// `llvm.memcpy.p0.p0.i64`.
    Memcpy,
    /// `llvm.memmove.p0.p0.i64`.
    Memmove,
    /// `llvm.memset.p0.i64`.
    Memset,
}
