//! Why names are not resolved.

/// Why the names of a module are not resolved.
#[derive(Clone, Copy, PartialEq, Eq)]
pub enum NamesEnd {
    /// A name is used that is not defined, or a number is written that is not the next one.
    Name {
        /// The least line of such a name.
        line: u32,
    },
    /// Memory ran out.
    NoMemory,
}
