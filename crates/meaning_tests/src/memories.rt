//! Blocks at the edges of others and of all addresses, numbers byte by byte, and blocks that are sealed and freed. The
//! answers are worked out by hand from the rules.
use crate::script::Act::{Count, Free, Live, Load, Place, Seal, Store};
use crate::script::Answer::{Done, NoMemory, Nothing, Number, Taken};
use crate::script::{Step, wrong_act};

const PLACES: &[Step] = &[
    (Place(0, 1, 1, 0), Taken),
    (Place(0, 0, 1, 0), Taken),
    (Place(16, 8, 16, 0), Done),
    (Place(24, 8, 16, 0), Taken),
    (Place(24, 8, 8, 0), Done),
    (Place(8, 8, 8, 0), Done),
    (Place(7, 2, 1, 0), Taken),
    (Place(15, 1, 1, 0), Taken),
    (Place(16, 1, 1, 0), Taken),
    (Place(23, 1, 1, 0), Taken),
    (Place(4, 64, 1, 0), Taken),
    (Place(32, 1, 1, 0), Done),
    (Place(0xffff_ffff_ffff_ffff, 2, 1, 0), Taken),
    (Place(0xffff_ffff_ffff_fff8, 9, 8, 0), Taken),
    (Place(0xffff_ffff_ffff_fff8, 8, 8, 0), Done),
    (Place(0xffff_ffff_ffff_fff0, 16, 16, 0), Taken),
    (Place(0xffff_ffff_ffff_fff0, 8, 16, 0), Done),
    (Place(0xffff_ffff_ffff_ffff, 0, 1, 0), Done),
    (Load(0xffff_ffff_ffff_fff8, 8), Number(0)),
    (Load(0xffff_ffff_ffff_fff9, 8), Nothing),
    (Live, Number(7)),
    (Place(64, 0xffff_ffff_ffff_ffb0, 64, 0), NoMemory),
    (Place(64, 0xffff_ffff_ffff_ffb1, 64, 0), Taken),
    (Free(0xffff_ffff_ffff_fff0), Done),
    (Place(64, 0xffff_ffff_ffff_ffb1, 64, 0), NoMemory),
    (Free(0xffff_ffff_ffff_fff0), Nothing),
    (Live, Number(6)),
];

const EMPTY: &[Step] = &[
    (Place(20, 0, 4, 0), Done),
    (Place(16, 8, 8, 3), Done),
    (Place(16, 0, 1, 0), Done),
    (Place(22, 0, 1, 0), Done),
    (Place(24, 0, 1, 0), Done),
    (Place(24, 4, 4, 5), Done),
    (Live, Number(6)),
    (Load(20, 4), Number(0x0303_0303)),
    (Load(20, 5), Nothing),
    (Load(23, 1), Number(3)),
    (Load(24, 4), Number(0x0505_0505)),
    (Place(20, 1, 1, 0), Taken),
    (Place(22, 1, 1, 0), Taken),
    (Store(22, 2, 0x0807), Done),
    (Load(20, 4), Number(0x0807_0303)),
    (Count(16, 8), Number(8)),
    (Count(16, 9), Nothing),
    (Free(20), Done),
    (Free(20), Nothing),
];

const NUMBERS: &[Step] = &[
    (Load(64, 1), Nothing),
    (Place(64, 16, 16, 0x11), Done),
    (Store(64, 8, 0x0807_0605_0403_0201), Done),
    (Load(64, 1), Number(1)),
    (Load(64, 3), Number(0x03_0201)),
    (Load(65, 2), Number(0x0302)),
    (Load(64, 8), Number(0x0807_0605_0403_0201)),
    (Load(68, 8), Number(0x1111_1111_0807_0605)),
    (Load(72, 8), Number(0x1111_1111_1111_1111)),
    (Load(73, 8), Nothing),
    (Load(63, 1), Nothing),
    (Load(63, 2), Nothing),
    (Load(80, 1), Nothing),
    (Store(79, 1, 0x1ff), Done),
    (Load(78, 2), Number(0xff11)),
    (Store(79, 2, 0), Nothing),
    (Load(79, 1), Number(0xff)),
    (Place(80, 8, 8, 0), Done),
    (Load(79, 2), Nothing),
    (Store(79, 2, 0), Nothing),
    (Load(79, 1), Number(0xff)),
    (Load(80, 8), Number(0)),
    (Store(80, 8, 0xffff_ffff_ffff_ffff), Done),
    (Load(80, 8), Number(0xffff_ffff_ffff_ffff)),
    (Load(78, 2), Number(0xff11)),
];

const SEALS: &[Step] = &[
    (Seal(64), Nothing),
    (Place(64, 8, 8, 0x22), Done),
    (Store(64, 1, 0x33), Done),
    (Seal(65), Nothing),
    (Seal(64), Done),
    (Store(64, 1, 0), Nothing),
    (Load(64, 2), Number(0x2233)),
    (Seal(64), Done),
    (Free(63), Nothing),
    (Free(64), Done),
    (Load(64, 1), Nothing),
    (Place(64, 8, 8, 1), Done),
    (Store(64, 1, 2), Done),
    (Load(64, 2), Number(0x0102)),
];

const ONE_BASE: &[Step] = &[
    (Place(64, 0, 1, 0), Done),
    (Place(64, 4, 4, 7), Done),
    (Load(64, 1), Number(7)),
    (Free(64), Done),
    (Load(64, 1), Nothing),
    (Place(64, 4, 4, 8), Done),
    (Place(64, 0, 1, 0), Done),
    (Seal(64), Done),
    (Store(64, 1, 9), Done),
    (Free(64), Done),
    (Load(64, 2), Number(0x0809)),
    (Free(64), Done),
    (Free(64), Done),
    (Free(64), Nothing),
    (Live, Number(0)),
];

#[test]
fn blocks_have_places_where_no_others_are(rt: HostRuntime) {
    assert_eq!(rt; wrong_act(rt.alloc(), PLACES), 0);
}

#[test]
fn empty_blocks_stand_anywhere(rt: HostRuntime) {
    assert_eq!(rt; wrong_act(rt.alloc(), EMPTY), 0);
}

#[test]
fn numbers_are_bytes_of_one_block_the_lowest_first(rt: HostRuntime) {
    assert_eq!(rt; wrong_act(rt.alloc(), NUMBERS), 0);
}

#[test]
fn nothing_is_stored_into_sealed_blocks(rt: HostRuntime) {
    assert_eq!(rt; wrong_act(rt.alloc(), SEALS), 0);
}

#[test]
fn of_one_base_the_last_placed_goes_first(rt: HostRuntime) {
    assert_eq!(rt; wrong_act(rt.alloc(), ONE_BASE), 0);
}
