//! Where a chain of aliases stands.
use ir_scope::GlobalItem;

/// The definition that a chain of aliases ends in.
#[derive(Clone, Copy)]
pub struct End {
    /// A defined variable or function, by its place in the module.
    pub item: GlobalItem,
    /// The bytes from its begin, modulo 2^64.
    pub offset: u64,
}

/// Where the following of a chain stands.
#[derive(Clone, Copy)]
pub(crate) enum Position {
    /// At an end; none where the chain comes to no definition, or at an offset that there isn't.
    Ended(Option<End>),
    /// At the alias at a place, at an offset.
    At(usize, u64),
}
