//! Who sees a name, and how.

/// Who sees a name (LangRef, "Linkage Types").
#[derive(Clone, Copy, PartialEq, Eq)]
pub enum Linkage {
    /// Every part of the program.
    External,
    /// This module alone.
    Internal,
}

/// How a name is seen from outside the linked image (LangRef, "Visibility Styles").
#[derive(Clone, Copy, PartialEq, Eq)]
pub enum Visibility {
    /// As the object format has it by default.
    Default,
    /// Not at all.
    Hidden,
    /// Seen, but uses inside the image mean this definition.
    Protected,
}
