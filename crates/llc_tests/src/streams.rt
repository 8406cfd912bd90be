//! Reads and writes that fail.
use crate::compiling::ARGUMENT;
use crate::memory::{COMPILE, outcome_of};
use llc_top::Status;
use std::alloc::Global;

/// Which reads of a text and writes of its assembly fail, which status comes of it, and what is told.
const FAULTS: &[(&[u64], &[u64], Status, &str)] = &[
    (&[2], &[], Status::ReadFault, "llc: read fault\n"),
    (&[], &[1], Status::WriteFault, ""),
];

/// Whether these reads and writes of a text and its assembly end in one fault and this status, nothing is put, and
/// this is told.
fn is_told(
    alloc: Global,
    reads: &[u64],
    writes: &[u64],
    status: Status,
    told: &'static str,
) -> bool {
    let wanted = (b"".as_slice(), told.as_bytes());
    match outcome_of(alloc, COMPILE, ARGUMENT.as_bytes(), (reads, writes), wanted) {
        Ok(found) => (found.status == status) & found.is_put & found.is_told & (found.faults == 1),
        Err(_) => false,
    }
}

/// The number of the first of these faults that is told otherwise, or 0.
fn wrong_fault(alloc: Global) -> usize {
    for at in 0..FAULTS.len() {
        let (reads, writes, status, told) = FAULTS[at];
        if !is_told(alloc, reads, writes, status, told) {
            return at + 1;
        }
    }
    0
}

#[test]
fn faults_of_the_streams_are_told(rt: HostRuntime) {
    assert_eq!(rt; wrong_fault(rt.alloc()), 0);
}
