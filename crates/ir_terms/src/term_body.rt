//! Terminators without their lines (LangRef, "Terminator Instructions").
use ir_ident::NameUse;
use ir_syntax::{Cases, TypedOperand};

/// A terminator without its line. What the text has of one, in order.
#[derive(Drop)]
pub(crate) enum TermBody {
    /// `ret void`.
    ReturnVoid,
    /// `ret` and a value.
    Return(TypedOperand),
    /// `br` and a target.
    Jump(NameUse),
    /// `br`, a condition, the target if it holds and the other one.
    Branch(TypedOperand, NameUse, NameUse),
    /// `switch`, a value, the default target and the cases.
    Switch(TypedOperand, NameUse, Cases),
    /// `unreachable`.
    Unreachable,
}
