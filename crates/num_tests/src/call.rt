//! What a function is expected to give.
use cg_num::{BinEnd, IntegerFunction, apply, wrap};

/// A function, the width, the numbers that it takes, and what it gives.
pub(crate) type Call = (IntegerFunction, u8, u128, u128, u128, BinEnd);

fn gives(row: Call) -> bool {
    let (function, bits, a, b, c, end) = row;
    if bits == 0 || bits > 128 {
        return false;
    }
    apply(function, bits, wrap(bits, a), wrap(bits, b), c) == end
}

/// The number of the first row that is wrong, or 0.
pub(crate) fn wrong_call(rows: &[Call]) -> usize {
    for at in 0..rows.len() {
        if !gives(rows[at]) {
            return at + 1;
        }
    }
    0
}
