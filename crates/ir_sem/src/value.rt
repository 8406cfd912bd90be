//! Values (LangRef, "Poison Values").

/// The value of an integer or a pointer.
#[derive(Clone, Copy, PartialEq, Eq)]
pub enum Value {
    /// A number below 2 to the type's bits; a pointer has 64.
    Number(u64),
    /// What an operation gives that was promised not to happen.
    Poison,
}
