//! What an operation is expected to give.
use cg_num::{BinEnd, BinOp, Flags, bin, wrap};

pub(crate) const NONE: Flags = Flags {
    nuw: false,
    nsw: false,
    exact: false,
};

pub(crate) const NUW: Flags = Flags {
    nuw: true,
    nsw: false,
    exact: false,
};

pub(crate) const NSW: Flags = Flags {
    nuw: false,
    nsw: true,
    exact: false,
};

pub(crate) const EXACT: Flags = Flags {
    nuw: false,
    nsw: false,
    exact: true,
};

/// An operation, its flags, the width of its operands, the operands, and what it gives.
pub(crate) type Row = (BinOp, Flags, u8, u128, u128, BinEnd);

fn gives(row: Row) -> bool {
    let (op, flags, bits, a, b, end) = row;
    if bits == 0 || bits > 128 || bits > op.widest() {
        return false;
    }
    bin(op, flags, bits, wrap(bits, a), wrap(bits, b)) == end
}

/// The number of the first row that is wrong, or 0.
pub(crate) fn wrong_row(rows: &[Row]) -> usize {
    for at in 0..rows.len() {
        if !gives(rows[at]) {
            return at + 1;
        }
    }
    0
}
