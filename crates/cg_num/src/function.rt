//! Functions of integers that LLVM IR defines (LangRef, "Standard C/C++ Library Intrinsics" and "Bit Manipulation
//! Intrinsics").

/// A function of one to three integers of one width that gives an integer of that width.
#[derive(Clone, Copy, Debug, PartialEq, Eq)]
pub enum IntegerFunction {
    /// The number of bits that are set (`llvm.ctpop`).
    Ctpop,
    /// The bytes in the other order (`llvm.bswap`).
    Bswap,
    /// The number of zeros above the highest bit that is set (`llvm.ctlz`).
    Ctlz,
    /// The number of zeros below the lowest bit that is set (`llvm.cttz`).
    Cttz,
    /// The number without its sign (`llvm.abs`).
    Abs,
    /// Two numbers as one of twice the width, shifted to the left, of which the high half is taken (`llvm.fshl`).
    Fshl,
    /// Two numbers as one of twice the width, shifted to the right, of which the low half is taken (`llvm.fshr`).
    Fshr,
    /// The greater, as signed numbers (`llvm.smax`).
    Smax,
    /// The lesser, as signed numbers (`llvm.smin`).
    Smin,
    /// The greater, as unsigned numbers (`llvm.umax`).
    Umax,
    /// The lesser, as unsigned numbers (`llvm.umin`).
    Umin,
}
