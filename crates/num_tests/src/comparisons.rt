//! When conditions on two integers hold, and which integers they are. The values are from another implementation.
use cg_num::Pred::{Eq, Ne, Sge, Sgt, Sle, Slt, Uge, Ugt, Ule, Ult};
use cg_num::{Pred, compare, to_signed, wrap};

/// A condition, the width of the operands, the operands, and whether it holds.
type Row = (Pred, u8, u128, u128, bool);

const ROWS: &[Row] = &[
    (Eq, 1, 1, 0, false),
    (Eq, 1, 1, 1, true),
    (Eq, 1, 0, 1, false),
    (Eq, 8, 0xff, 0x7f, false),
    (Eq, 8, 0x80, 0x80, true),
    (Eq, 8, 0, 0xff, false),
    (Eq, 33, 0x1ffffffff, 0xffffffff, false),
    (Eq, 33, 0x100000000, 0x100000000, true),
    (Eq, 33, 0, 0x1ffffffff, false),
    (Eq, 64, 0xffffffffffffffff, 0x7fffffffffffffff, false),
    (Eq, 64, 0x8000000000000000, 0x8000000000000000, true),
    (Eq, 64, 0, 0xffffffffffffffff, false),
    (
        Eq,
        128,
        0xffffffffffffffffffffffffffffffff,
        0x7fffffffffffffffffffffffffffffff,
        false,
    ),
    (
        Eq,
        128,
        0x80000000000000000000000000000000,
        0x80000000000000000000000000000000,
        true,
    ),
    (Eq, 128, 0, 0xffffffffffffffffffffffffffffffff, false),
    (Ne, 1, 1, 0, true),
    (Ne, 1, 1, 1, false),
    (Ne, 1, 0, 1, true),
    (Ne, 8, 0xff, 0x7f, true),
    (Ne, 8, 0x80, 0x80, false),
    (Ne, 8, 0, 0xff, true),
    (Ne, 33, 0x1ffffffff, 0xffffffff, true),
    (Ne, 33, 0x100000000, 0x100000000, false),
    (Ne, 33, 0, 0x1ffffffff, true),
    (Ne, 64, 0xffffffffffffffff, 0x7fffffffffffffff, true),
    (Ne, 64, 0x8000000000000000, 0x8000000000000000, false),
    (Ne, 64, 0, 0xffffffffffffffff, true),
    (
        Ne,
        128,
        0xffffffffffffffffffffffffffffffff,
        0x7fffffffffffffffffffffffffffffff,
        true,
    ),
    (
        Ne,
        128,
        0x80000000000000000000000000000000,
        0x80000000000000000000000000000000,
        false,
    ),
    (Ne, 128, 0, 0xffffffffffffffffffffffffffffffff, true),
    (Ugt, 1, 1, 0, true),
    (Ugt, 1, 1, 1, false),
    (Ugt, 1, 0, 1, false),
    (Ugt, 8, 0xff, 0x7f, true),
    (Ugt, 8, 0x80, 0x80, false),
    (Ugt, 8, 0, 0xff, false),
    (Ugt, 33, 0x1ffffffff, 0xffffffff, true),
    (Ugt, 33, 0x100000000, 0x100000000, false),
    (Ugt, 33, 0, 0x1ffffffff, false),
    (Ugt, 64, 0xffffffffffffffff, 0x7fffffffffffffff, true),
    (Ugt, 64, 0x8000000000000000, 0x8000000000000000, false),
    (Ugt, 64, 0, 0xffffffffffffffff, false),
    (
        Ugt,
        128,
        0xffffffffffffffffffffffffffffffff,
        0x7fffffffffffffffffffffffffffffff,
        true,
    ),
    (
        Ugt,
        128,
        0x80000000000000000000000000000000,
        0x80000000000000000000000000000000,
        false,
    ),
    (Ugt, 128, 0, 0xffffffffffffffffffffffffffffffff, false),
    (Uge, 1, 1, 0, true),
    (Uge, 1, 1, 1, true),
    (Uge, 1, 0, 1, false),
    (Uge, 8, 0xff, 0x7f, true),
    (Uge, 8, 0x80, 0x80, true),
    (Uge, 8, 0, 0xff, false),
    (Uge, 33, 0x1ffffffff, 0xffffffff, true),
    (Uge, 33, 0x100000000, 0x100000000, true),
    (Uge, 33, 0, 0x1ffffffff, false),
    (Uge, 64, 0xffffffffffffffff, 0x7fffffffffffffff, true),
    (Uge, 64, 0x8000000000000000, 0x8000000000000000, true),
    (Uge, 64, 0, 0xffffffffffffffff, false),
    (
        Uge,
        128,
        0xffffffffffffffffffffffffffffffff,
        0x7fffffffffffffffffffffffffffffff,
        true,
    ),
    (
        Uge,
        128,
        0x80000000000000000000000000000000,
        0x80000000000000000000000000000000,
        true,
    ),
    (Uge, 128, 0, 0xffffffffffffffffffffffffffffffff, false),
    (Ult, 1, 1, 0, false),
    (Ult, 1, 1, 1, false),
    (Ult, 1, 0, 1, true),
    (Ult, 8, 0xff, 0x7f, false),
    (Ult, 8, 0x80, 0x80, false),
    (Ult, 8, 0, 0xff, true),
    (Ult, 33, 0x1ffffffff, 0xffffffff, false),
    (Ult, 33, 0x100000000, 0x100000000, false),
    (Ult, 33, 0, 0x1ffffffff, true),
    (Ult, 64, 0xffffffffffffffff, 0x7fffffffffffffff, false),
    (Ult, 64, 0x8000000000000000, 0x8000000000000000, false),
    (Ult, 64, 0, 0xffffffffffffffff, true),
    (
        Ult,
        128,
        0xffffffffffffffffffffffffffffffff,
        0x7fffffffffffffffffffffffffffffff,
        false,
    ),
    (
        Ult,
        128,
        0x80000000000000000000000000000000,
        0x80000000000000000000000000000000,
        false,
    ),
    (Ult, 128, 0, 0xffffffffffffffffffffffffffffffff, true),
    (Ule, 1, 1, 0, false),
    (Ule, 1, 1, 1, true),
    (Ule, 1, 0, 1, true),
    (Ule, 8, 0xff, 0x7f, false),
    (Ule, 8, 0x80, 0x80, true),
    (Ule, 8, 0, 0xff, true),
    (Ule, 33, 0x1ffffffff, 0xffffffff, false),
    (Ule, 33, 0x100000000, 0x100000000, true),
    (Ule, 33, 0, 0x1ffffffff, true),
    (Ule, 64, 0xffffffffffffffff, 0x7fffffffffffffff, false),
    (Ule, 64, 0x8000000000000000, 0x8000000000000000, true),
    (Ule, 64, 0, 0xffffffffffffffff, true),
    (
        Ule,
        128,
        0xffffffffffffffffffffffffffffffff,
        0x7fffffffffffffffffffffffffffffff,
        false,
    ),
    (
        Ule,
        128,
        0x80000000000000000000000000000000,
        0x80000000000000000000000000000000,
        true,
    ),
    (Ule, 128, 0, 0xffffffffffffffffffffffffffffffff, true),
    (Sgt, 1, 1, 0, false),
    (Sgt, 1, 1, 1, false),
    (Sgt, 1, 0, 1, true),
    (Sgt, 8, 0xff, 0x7f, false),
    (Sgt, 8, 0x80, 0x80, false),
    (Sgt, 8, 0, 0xff, true),
    (Sgt, 33, 0x1ffffffff, 0xffffffff, false),
    (Sgt, 33, 0x100000000, 0x100000000, false),
    (Sgt, 33, 0, 0x1ffffffff, true),
    (Sgt, 64, 0xffffffffffffffff, 0x7fffffffffffffff, false),
    (Sgt, 64, 0x8000000000000000, 0x8000000000000000, false),
    (Sgt, 64, 0, 0xffffffffffffffff, true),
    (
        Sgt,
        128,
        0xffffffffffffffffffffffffffffffff,
        0x7fffffffffffffffffffffffffffffff,
        false,
    ),
    (
        Sgt,
        128,
        0x80000000000000000000000000000000,
        0x80000000000000000000000000000000,
        false,
    ),
    (Sgt, 128, 0, 0xffffffffffffffffffffffffffffffff, true),
    (Sge, 1, 1, 0, false),
    (Sge, 1, 1, 1, true),
    (Sge, 1, 0, 1, true),
    (Sge, 8, 0xff, 0x7f, false),
    (Sge, 8, 0x80, 0x80, true),
    (Sge, 8, 0, 0xff, true),
    (Sge, 33, 0x1ffffffff, 0xffffffff, false),
    (Sge, 33, 0x100000000, 0x100000000, true),
    (Sge, 33, 0, 0x1ffffffff, true),
    (Sge, 64, 0xffffffffffffffff, 0x7fffffffffffffff, false),
    (Sge, 64, 0x8000000000000000, 0x8000000000000000, true),
    (Sge, 64, 0, 0xffffffffffffffff, true),
    (
        Sge,
        128,
        0xffffffffffffffffffffffffffffffff,
        0x7fffffffffffffffffffffffffffffff,
        false,
    ),
    (
        Sge,
        128,
        0x80000000000000000000000000000000,
        0x80000000000000000000000000000000,
        true,
    ),
    (Sge, 128, 0, 0xffffffffffffffffffffffffffffffff, true),
    (Slt, 1, 1, 0, true),
    (Slt, 1, 1, 1, false),
    (Slt, 1, 0, 1, false),
    (Slt, 8, 0xff, 0x7f, true),
    (Slt, 8, 0x80, 0x80, false),
    (Slt, 8, 0, 0xff, false),
    (Slt, 33, 0x1ffffffff, 0xffffffff, true),
    (Slt, 33, 0x100000000, 0x100000000, false),
    (Slt, 33, 0, 0x1ffffffff, false),
    (Slt, 64, 0xffffffffffffffff, 0x7fffffffffffffff, true),
    (Slt, 64, 0x8000000000000000, 0x8000000000000000, false),
    (Slt, 64, 0, 0xffffffffffffffff, false),
    (
        Slt,
        128,
        0xffffffffffffffffffffffffffffffff,
        0x7fffffffffffffffffffffffffffffff,
        true,
    ),
    (
        Slt,
        128,
        0x80000000000000000000000000000000,
        0x80000000000000000000000000000000,
        false,
    ),
    (Slt, 128, 0, 0xffffffffffffffffffffffffffffffff, false),
    (Sle, 1, 1, 0, true),
    (Sle, 1, 1, 1, true),
    (Sle, 1, 0, 1, false),
    (Sle, 8, 0xff, 0x7f, true),
    (Sle, 8, 0x80, 0x80, true),
    (Sle, 8, 0, 0xff, false),
    (Sle, 33, 0x1ffffffff, 0xffffffff, true),
    (Sle, 33, 0x100000000, 0x100000000, true),
    (Sle, 33, 0, 0x1ffffffff, false),
    (Sle, 64, 0xffffffffffffffff, 0x7fffffffffffffff, true),
    (Sle, 64, 0x8000000000000000, 0x8000000000000000, true),
    (Sle, 64, 0, 0xffffffffffffffff, false),
    (
        Sle,
        128,
        0xffffffffffffffffffffffffffffffff,
        0x7fffffffffffffffffffffffffffffff,
        true,
    ),
    (
        Sle,
        128,
        0x80000000000000000000000000000000,
        0x80000000000000000000000000000000,
        true,
    ),
    (Sle, 128, 0, 0xffffffffffffffffffffffffffffffff, false),
];

/// Numbers of a width, and the integers that they write in two's complement.
const SIGNED: &[(u8, u128, i128)] = &[
    (1, 0, 0),
    (1, 1, -1),
    (8, 127, 127),
    (8, 128, -128),
    (64, 0x8000_0000_0000_0000, -0x8000_0000_0000_0000),
    (127, 0x7fff_ffff_ffff_ffff_ffff_ffff_ffff_ffff, -1),
    (128, 0xffff_ffff_ffff_ffff_ffff_ffff_ffff_fffe, -2),
];

fn holds(row: Row) -> bool {
    let (pred, bits, a, b, wanted) = row;
    if bits == 0 || bits > 128 {
        return false;
    }
    compare(pred, bits, wrap(bits, a), wrap(bits, b)) == wanted
}

fn is_signed(row: (u8, u128, i128)) -> bool {
    let (bits, a, wanted) = row;
    if bits == 0 || bits > 128 {
        return false;
    }
    to_signed(bits, wrap(bits, a)) == wanted
}

/// The number of the first row that is wrong, or 0.
fn wrong_row() -> usize {
    for at in 0..ROWS.len() {
        if !holds(ROWS[at]) {
            return at + 1;
        }
    }
    0
}

/// The number of the first integer that is wrong, or 0.
fn wrong_integer() -> usize {
    for at in 0..SIGNED.len() {
        if !is_signed(SIGNED[at]) {
            return at + 1;
        }
    }
    0
}

#[test]
fn conditions_hold_with_and_without_signs(rt: HostRuntime) {
    assert_eq!(rt; wrong_row(), 0);
}

#[test]
fn numbers_write_integers_in_twos_complement(rt: HostRuntime) {
    assert_eq!(rt; wrong_integer(), 0);
}
