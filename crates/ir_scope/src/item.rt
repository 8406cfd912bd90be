//! Items that have global names (LangRef, "Module Structure").

/// What a global name stands for, by its place in the module's list of such items, counted from 0.
#[derive(Clone, Copy, PartialEq, Eq)]
pub enum GlobalItem {
    /// A global variable.
    Variable(usize),
    /// A function.
    Function(usize),
    /// An alias.
    Alias(usize),
}
