use thiserror::Error;

/// A read or a write failed. The stream's count of faults rose with it.
#[derive(Clone, Copy, Debug, PartialEq, Eq)]
pub struct Failed;

/// Why [`read_all`](crate::read_all) gave no bytes.
#[derive(Clone, Copy, Debug, PartialEq, Eq, Error)]
pub enum ReadEnd {
    /// A read failed.
    #[error("a read failed")]
    Fault,
    /// The source has more bytes than were allowed. `taken` were read, one more than the limit.
    #[error("the input is too long: {taken} bytes were read")]
    TooLong { taken: usize },
    /// There was no memory for the bytes.
    #[error("out of memory")]
    NoMemory,
}

/// A write failed after the first `written` bytes.
#[derive(Clone, Copy, Debug, PartialEq, Eq, Error)]
#[error("a write failed after {written} bytes")]
pub struct WriteFault {
    /// How many bytes were written.
    pub written: usize,
}
