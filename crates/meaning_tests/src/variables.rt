//! The blocks of variables at given addresses. The bytes are those that `clang` lays out for a RISC-V processor of 64 bits, where
//! a pointer has the address that its variable has here.
use check_tests::modules::{Piece, read_pieces};
use ir_data::first_memory;
use ir_loaded::LoadedModule;
use ir_mem::{Block, PlaceEnd};
use ir_syntax::Module;
use std::alloc::Global;

/// A block: its address, its bytes, and whether a store may change it.
type Expected = (u64, &'static [u8], bool);

/// Texts, the addresses of the variables that they define, the one that is refused, 0 where none is, and the blocks.
const ROWS: &[(&[Piece], &[u64], u64, &[Expected])] = &[
    // Numbers of one byte and of several, arrays, structs with gaps and without, and types that are no multiple of a byte.
    (
        &[
            (1, "@a = global i32 258\n"),
            (1, "@b = constant [2 x i16] [i16 1, i16 -1]\n"),
            (1, "@c = global { i8, i32, i8 } { i8 7, i32 5, i8 9 }\n"),
            (1, "@d = global <{ i8, i32, i8 }> <{ i8 7, i32 5, i8 9 }>\n"),
            (1, "@g = global [3 x i8] c\"ab\\00\"\n"),
            (1, "@h = global i17 -1\n"),
            (1, "@i = global [2 x i17] [i17 1, i17 65536]\n"),
        ],
        &[
            0x10000, 0x10010, 0x10020, 0x10030, 0x10040, 0x10044, 0x10048,
        ],
        0,
        &[
            (0x10000, b"\x02\x01\x00\x00", true),
            (0x10010, b"\x01\x00\xff\xff", false),
            (
                0x10020,
                b"\x07\x00\x00\x00\x05\x00\x00\x00\x09\x00\x00\x00",
                true,
            ),
            (0x10030, b"\x07\x05\x00\x00\x00\x09", true),
            (0x10040, b"ab\x00", true),
            (0x10044, b"\xff\xff\x01", true),
            (0x10048, b"\x01\x00\x00\x00\x00\x00\x01\x00", true),
        ],
    ),
    // Zeros of any type, a struct in a struct and in an array, and no value.
    (
        &[
            (1, "@j = constant { i64, [2 x i8] } zeroinitializer\n"),
            (1, "@k = global { i1, i64, { i8, i16 } } "),
            (1, "{ i1 true, i64 -2, { i8, i16 } { i8 3, i16 4 } }\n"),
            (1, "@l = global [2 x { i8, i16 }] "),
            (1, "[{ i8, i16 } { i8 1, i16 2 }, { i8, i16 } undef]\n"),
            (1, "@m = global ptr null\n"),
        ],
        &[0x10000, 0x10010, 0x10030, 0x10038],
        0,
        &[
            (0x10000, &[0; 16], false),
            (
                0x10010,
                b"\x01\x00\x00\x00\x00\x00\x00\x00\xfe\xff\xff\xff\xff\xff\xff\xff\x03\x00\x04\x00\x00\x00\x00\x00",
                true,
            ),
            (0x10030, b"\x01\x00\x02\x00\x00\x00\x00\x00", true),
            (0x10038, &[0; 8], true),
        ],
    ),
    // Addresses: of a variable, behind one, through an alias, and none of a variable that is declared.
    (
        &[
            (1, "@x = external global i8\n@a = global i32 1\n"),
            (1, "@e = global ptr @a\n"),
            (1, "@f = global ptr getelementptr (i32, ptr @a, i64 2)\n"),
            (1, "@n = alias i32, getelementptr (i8, ptr @e, i64 4)\n"),
            (1, "@o = global ptr @n\n"),
        ],
        &[0x10000, 0x10008, 0x10010, 0x10018],
        0,
        &[
            (0x10000, b"\x01\x00\x00\x00", true),
            (0x10008, b"\x00\x00\x01\x00\x00\x00\x00\x00", true),
            (0x10010, b"\x08\x00\x01\x00\x00\x00\x00\x00", true),
            (0x10018, b"\x0c\x00\x01\x00\x00\x00\x00\x00", true),
        ],
    ),
    // An address that is no multiple of the alignment, and one that another block has.
    (
        &[(1, "@a = global i32 1\n@b = global i16 2, align 8\n")],
        &[0x10000, 0x10004],
        0x10004,
        &[],
    ),
    (
        &[(1, "@a = global i32 1\n@b = global i8 2\n")],
        &[0x10000, 0x10003],
        0x10003,
        &[],
    ),
];

fn is_expected(block: &Block, expected: &Expected) -> bool {
    let (base, bytes, writable) = *expected;
    block.base == base && block.writable == writable && block.bytes.as_slice() == bytes
}

fn are_expected(blocks: &[Block], expected: &[Expected]) -> bool {
    if blocks.len() != expected.len() {
        return false;
    }
    for (place, block) in blocks.iter().enumerate() {
        if !is_expected(block, &expected[place]) {
            return false;
        }
    }
    true
}

fn is_right(alloc: Global, m: &Module, bases: &[u64], taken: u64, expected: &[Expected]) -> bool {
    let Ok(loaded) = LoadedModule::new(alloc, m, bases) else {
        return false;
    };
    match first_memory(alloc, &loaded) {
        Ok(memory) => taken == 0 && are_expected(memory.blocks(), expected),
        Err(PlaceEnd::Taken { at }) => at == taken,
        Err(PlaceEnd::NoMemory) => false,
    }
}

/// The number of the first row that is wrong, counted from 1; 0 if none is.
fn wrong_row(alloc: Global) -> usize {
    for (place, row) in ROWS.iter().enumerate() {
        let (pieces, bases, taken, expected) = *row;
        let right = match read_pieces(alloc, pieces) {
            Some(m) => is_right(alloc, &m, bases, taken, expected),
            None => false,
        };
        if !right {
            return place + 1;
        }
    }
    0
}

#[test]
fn variables_have_their_bytes_at_their_addresses(rt: HostRuntime) {
    assert_eq!(rt; wrong_row(rt.alloc()), 0);
}
