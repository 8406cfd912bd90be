//! Which blocks of functions are asked for.

/// Which blocks of functions are asked for.
#[derive(Clone, Copy)]
pub enum Which {
    /// Those that some path from the first block of their function reaches.
    Reachable,
    /// All.
    Every,
}
