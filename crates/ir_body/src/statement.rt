//! What stands in a block before its terminator (LangRef, "Functions").
use ir_syntax::{Instr, Op, Phi, PhiEntries, TyText};

/// A phi or an operation, without its line and its name.
#[derive(Drop)]
pub(crate) enum PhiOrOp {
    /// A phi: its type and its entries.
    Phi(TyText, PhiEntries),
    /// An operation; none for a call that is dropped.
    Op(Option<Op>),
}

/// What stands before the terminator.
#[derive(Drop)]
pub(crate) enum Statement {
    /// A phi.
    Phi(Phi),
    /// An instruction.
    Instr(Instr),
    /// A call that is dropped.
    Dropped,
}

/// Which block it is, and what stood in it so far.
#[derive(Clone, Copy)]
pub(crate) enum Place {
    /// The first block of a function.
    Entry,
    /// Another block, in which only phis stood so far.
    PhisOnly,
    /// Another block, behind its phis.
    AfterPhis,
}
