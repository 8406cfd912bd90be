//! Where bytes lie.

/// Where bytes lie: the index of the first of them.
#[derive(Clone, Copy)]
pub(crate) enum Place {
    /// In the image.
    Image(usize),
    /// In the stack.
    Stack(usize),
}
