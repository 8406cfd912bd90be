//! What an operation on two integers gives (LangRef, "Poison Values" and "Undefined Values").

/// What an operation on two integers gives.
#[derive(Clone, Copy, Debug, PartialEq, Eq)]
pub enum BinEnd {
    /// A number.
    Value(u128),
    /// Poison: a flag was broken, or a shift was by as many bits as there are, or more.
    Poison,
    /// Undefined behaviour: a division by zero, or one whose signed quotient does not fit.
    Undefined,
}
