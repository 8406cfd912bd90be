//! Why a text is not assembled.

/// Why a text is not assembled.
#[derive(Clone, Copy)]
pub enum AsmRefusal {
    /// The text is no assembly.
    Line {
        /// The number of its first line that is refused, counted from 1.
        line: u64,
    },
    /// Memory ran out.
    NoMemory,
}
