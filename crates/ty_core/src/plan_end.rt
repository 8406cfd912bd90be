//! Why types are not planned.

/// Why there is no plan of some types.
#[derive(Clone, Copy, Debug, PartialEq, Eq)]
pub enum PlanEnd {
    /// The types have more than 4,194,304 places.
    TooMany {
        /// The number of their places, at most 2^64 - 1.
        places: u64,
    },
    /// Memory ran out.
    NoMemory,
}
