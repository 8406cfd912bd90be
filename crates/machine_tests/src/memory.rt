//! Loads and stores that are run on the machine.
use crate::operations::{end_of, high, low};
use rv_mach::Stop;
use std::alloc::Global;

/// The words of a store and of a load at one address, in the stack or in the image, that LLVM's assembler gives; the
/// number that is stored, and the one that is loaded.
type Row = (u32, u32, u64, u64);

const ROWS: &[Row] = &[
    (
        0xfea1_0c23,
        0xff81_0503,
        0x8182_8384_8586_8788,
        0xffff_ffff_ffff_ff88,
    ),
    (0xfea1_0c23, 0xff81_4503, 0x8182_8384_8586_8788, 136),
    (0xfea1_0c23, 0xff81_3503, 0x8182_8384_8586_8788, 136),
    (
        0xfea1_1c23,
        0xff81_1503,
        0x8182_8384_8586_8788,
        0xffff_ffff_ffff_8788,
    ),
    (0xfea1_1c23, 0xff81_5503, 0x8182_8384_8586_8788, 0x8788),
    (
        0xfea1_2c23,
        0xff81_2503,
        0x8182_8384_8586_8788,
        0xffff_ffff_8586_8788,
    ),
    (0xfea1_2c23, 0xff81_6503, 0x8182_8384_8586_8788, 0x8586_8788),
    (
        0xfea1_3c23,
        0xff81_3503,
        0x8182_8384_8586_8788,
        0x8182_8384_8586_8788,
    ),
    (
        0xfea1_3c23,
        0xff81_2503,
        0x8182_8384_8586_8788,
        0xffff_ffff_8586_8788,
    ),
    (0xfea1_3c23, 0xff81_5503, 0x8182_8384_8586_8788, 0x8788),
    (
        0x04a2_8023,
        0x0402_8503,
        0x8182_8384_8586_8788,
        0xffff_ffff_ffff_ff88,
    ),
    (0x04a2_8023, 0x0402_c503, 0x8182_8384_8586_8788, 136),
    (0x04a2_8023, 0x0402_b503, 0x8182_8384_8586_8788, 136),
    (
        0x04a2_9023,
        0x0402_9503,
        0x8182_8384_8586_8788,
        0xffff_ffff_ffff_8788,
    ),
    (0x04a2_9023, 0x0402_d503, 0x8182_8384_8586_8788, 0x8788),
    (
        0x04a2_a023,
        0x0402_a503,
        0x8182_8384_8586_8788,
        0xffff_ffff_8586_8788,
    ),
    (0x04a2_a023, 0x0402_e503, 0x8182_8384_8586_8788, 0x8586_8788),
    (
        0x04a2_b023,
        0x0402_b503,
        0x8182_8384_8586_8788,
        0x8182_8384_8586_8788,
    ),
    (
        0x04a2_b023,
        0x0402_a503,
        0x8182_8384_8586_8788,
        0xffff_ffff_8586_8788,
    ),
    (0x04a2_b023, 0x0402_d503, 0x8182_8384_8586_8788, 0x8788),
];

/// Whether a store and a load give the result: the program exits with 0 where a0 has it.
fn gives(alloc: Global, row: Row) -> bool {
    let (store, load, number, result) = row;
    let words = [
        0x0001_02b7, // lui t0, 16
        0x0302_b503, // ld a0, 48(t0)
        store,
        load,
        0x0382_b603, // ld a2, 56(t0)
        0x00c5_4533, // xor a0, a0, a2
        0x0205_5693, // srli a3, a0, 32
        0x00d5_6533, // or a0, a0, a3
        0x05d0_0893, // li a7, 93
        0x0000_0073, // ecall
        0,
        0,
        low(number),
        high(number),
        low(result),
        high(result),
        0,
        0,
    ];
    end_of(alloc, &words, 10) == Ok(Some(Stop::Exited(0)))
}

/// The number of the first row whose load gives something else, or 0.
fn wrong_row(alloc: Global) -> usize {
    for at in 0..ROWS.len() {
        if !gives(alloc, ROWS[at]) {
            return at + 1;
        }
    }
    0
}

#[test]
fn what_is_stored_is_loaded(rt: HostRuntime) {
    assert_eq!(rt; wrong_row(rt.alloc()), 0);
}
