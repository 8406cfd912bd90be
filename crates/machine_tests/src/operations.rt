//! Operations and branches that are run on the machine. What they give is from another implementation, on integers
//! without a width.
use crate::running::machine_of;
use cg_io::MemSink;
use rv_mach::{Stop, TrapKind};
use std::alloc::{AllocError, Global};

/// A word that LLVM's assembler gives, its assembly, what a0 and a1 have, and what a0 has after it.
type Operation = (u32, &'static str, u64, u64, u64);

const OPERATIONS: &[Operation] = &[
    (
        0x00b5_0533,
        "add a0, a0, a1",
        0x7fff_ffff_ffff_ffff,
        1,
        0x8000_0000_0000_0000,
    ),
    (
        0x00b5_0533,
        "add a0, a0, a1",
        0xffff_ffff_ffff_ffff,
        0x123_4567_89ab_cdef,
        0x123_4567_89ab_cdee,
    ),
    (0x40b5_0533, "sub a0, a0, a1", 0, 1, 0xffff_ffff_ffff_ffff),
    (
        0x40b5_0533,
        "sub a0, a0, a1",
        0x8000_0000_0000_0000,
        1,
        0x7fff_ffff_ffff_ffff,
    ),
    (
        0x00b5_1533,
        "sll a0, a0, a1",
        0x123_4567_89ab_cdef,
        4,
        0x1234_5678_9abc_def0,
    ),
    (
        0x00b5_1533,
        "sll a0, a0, a1",
        0x123_4567_89ab_cdef,
        127,
        0x8000_0000_0000_0000,
    ),
    (0x00b5_2533, "slt a0, a0, a1", 0x8000_0000_0000_0000, 0, 1),
    (0x00b5_2533, "slt a0, a0, a1", 0, 0xffff_ffff_ffff_ffff, 0),
    (0x00b5_3533, "sltu a0, a0, a1", 0x8000_0000_0000_0000, 0, 0),
    (0x00b5_3533, "sltu a0, a0, a1", 0, 0xffff_ffff_ffff_ffff, 1),
    (
        0x00b5_4533,
        "xor a0, a0, a1",
        0x123_4567_89ab_cdef,
        0xfedc_ba98_7654_3210,
        0xffff_ffff_ffff_ffff,
    ),
    (
        0x00b5_5533,
        "srl a0, a0, a1",
        0xfedc_ba98_7654_3210,
        4,
        0xfed_cba9_8765_4321,
    ),
    (0x00b5_5533, "srl a0, a0, a1", 0xffff_ffff_ffff_ffff, 63, 1),
    (
        0x40b5_5533,
        "sra a0, a0, a1",
        0xfedc_ba98_7654_3210,
        4,
        0xffed_cba9_8765_4321,
    ),
    (
        0x40b5_5533,
        "sra a0, a0, a1",
        0x123_4567_89ab_cdef,
        68,
        0x12_3456_789a_bcde,
    ),
    (
        0x40b5_5533,
        "sra a0, a0, a1",
        0x8000_0000_0000_0000,
        63,
        0xffff_ffff_ffff_ffff,
    ),
    (
        0x00b5_6533,
        "or a0, a0, a1",
        0x123_4567_89ab_cdef,
        0xfedc_ba98_7654_3210,
        0xffff_ffff_ffff_ffff,
    ),
    (
        0x00b5_7533,
        "and a0, a0, a1",
        0x123_4567_89ab_cdef,
        0xfedc_ba98_7654_3210,
        0,
    ),
    (
        0x02b5_0533,
        "mul a0, a0, a1",
        0x123_4567_89ab_cdef,
        0xfedc_ba98_7654_3210,
        0x2236_d88f_e561_8cf0,
    ),
    (
        0x02b5_0533,
        "mul a0, a0, a1",
        0xffff_ffff_ffff_ffff,
        0xffff_ffff_ffff_ffff,
        1,
    ),
    (
        0x02b5_1533,
        "mulh a0, a0, a1",
        0xfedc_ba98_7654_3210,
        0x123_4567_89ab_cdef,
        0xfffe_b499_23cc_0953,
    ),
    (
        0x02b5_1533,
        "mulh a0, a0, a1",
        0x123_4567_89ab_cdef,
        0xfedc_ba98_7654_3210,
        0xfffe_b499_23cc_0953,
    ),
    (
        0x02b5_1533,
        "mulh a0, a0, a1",
        0xfedc_ba98_7654_3210,
        0xfedc_ba98_7654_3210,
        0x1_4b66_dc33_f6ac,
    ),
    (
        0x02b5_1533,
        "mulh a0, a0, a1",
        0x123_4567_89ab_cdef,
        0x123_4567_89ab_cdef,
        0x1_4b66_dc33_f6ac,
    ),
    (
        0x02b5_1533,
        "mulh a0, a0, a1",
        0x8000_0000_0000_0000,
        0x8000_0000_0000_0000,
        0x4000_0000_0000_0000,
    ),
    (
        0x02b5_1533,
        "mulh a0, a0, a1",
        0xffff_ffff_ffff_ffff,
        1,
        0xffff_ffff_ffff_ffff,
    ),
    (
        0x02b5_2533,
        "mulhsu a0, a0, a1",
        0xfedc_ba98_7654_3210,
        0xfedc_ba98_7654_3210,
        0xfede_05ff_5288_28bc,
    ),
    (
        0x02b5_2533,
        "mulhsu a0, a0, a1",
        0x123_4567_89ab_cdef,
        0xfedc_ba98_7654_3210,
        0x121_fa00_ad77_d742,
    ),
    (
        0x02b5_2533,
        "mulhsu a0, a0, a1",
        0x8000_0000_0000_0000,
        0xffff_ffff_ffff_ffff,
        0x8000_0000_0000_0000,
    ),
    (
        0x02b5_3533,
        "mulhu a0, a0, a1",
        0xfedc_ba98_7654_3210,
        0xfedc_ba98_7654_3210,
        0xfdba_c097_c8dc_5acc,
    ),
    (
        0x02b5_3533,
        "mulhu a0, a0, a1",
        0xffff_ffff_ffff_ffff,
        0xffff_ffff_ffff_ffff,
        0xffff_ffff_ffff_fffe,
    ),
    (
        0x02b5_4533,
        "div a0, a0, a1",
        0xfedc_ba98_7654_3210,
        7,
        0xffd6_63cc_a330_9970,
    ),
    (
        0x02b5_4533,
        "div a0, a0, a1",
        7,
        0xffff_ffff_ffff_fffe,
        0xffff_ffff_ffff_fffd,
    ),
    (
        0x02b5_4533,
        "div a0, a0, a1",
        0x123_4567_89ab_cdef,
        0,
        0xffff_ffff_ffff_ffff,
    ),
    (
        0x02b5_4533,
        "div a0, a0, a1",
        0x8000_0000_0000_0000,
        0xffff_ffff_ffff_ffff,
        0x8000_0000_0000_0000,
    ),
    (
        0x02b5_4533,
        "div a0, a0, a1",
        0xffff_ffff_ffff_fff9,
        2,
        0xffff_ffff_ffff_fffd,
    ),
    (
        0x02b5_5533,
        "divu a0, a0, a1",
        0xfedc_ba98_7654_3210,
        7,
        0x2468_acf1_3579_be02,
    ),
    (
        0x02b5_5533,
        "divu a0, a0, a1",
        0x123_4567_89ab_cdef,
        0,
        0xffff_ffff_ffff_ffff,
    ),
    (
        0x02b5_5533,
        "divu a0, a0, a1",
        0x8000_0000_0000_0000,
        0xffff_ffff_ffff_ffff,
        0,
    ),
    (
        0x02b5_6533,
        "rem a0, a0, a1",
        0xffff_ffff_ffff_fff9,
        2,
        0xffff_ffff_ffff_ffff,
    ),
    (0x02b5_6533, "rem a0, a0, a1", 7, 0xffff_ffff_ffff_fffd, 1),
    (
        0x02b5_6533,
        "rem a0, a0, a1",
        0x123_4567_89ab_cdef,
        0,
        0x123_4567_89ab_cdef,
    ),
    (
        0x02b5_6533,
        "rem a0, a0, a1",
        0x8000_0000_0000_0000,
        0xffff_ffff_ffff_ffff,
        0,
    ),
    (0x02b5_7533, "remu a0, a0, a1", 0xfedc_ba98_7654_3210, 7, 2),
    (
        0x02b5_7533,
        "remu a0, a0, a1",
        0x123_4567_89ab_cdef,
        0,
        0x123_4567_89ab_cdef,
    ),
    (
        0x02b5_7533,
        "remu a0, a0, a1",
        0x8000_0000_0000_0000,
        0xffff_ffff_ffff_ffff,
        0x8000_0000_0000_0000,
    ),
    (
        0x00b5_053b,
        "addw a0, a0, a1",
        0x7fff_ffff,
        1,
        0xffff_ffff_8000_0000,
    ),
    (
        0x00b5_053b,
        "addw a0, a0, a1",
        0x123_4567_89ab_cdef,
        0xfedc_ba98_7654_3210,
        0xffff_ffff_ffff_ffff,
    ),
    (0x40b5_053b, "subw a0, a0, a1", 0x8000_0000, 1, 0x7fff_ffff),
    (0x40b5_053b, "subw a0, a0, a1", 0, 1, 0xffff_ffff_ffff_ffff),
    (
        0x00b5_153b,
        "sllw a0, a0, a1",
        0x123_4567_89ab_cdef,
        4,
        0xffff_ffff_9abc_def0,
    ),
    (0x00b5_153b, "sllw a0, a0, a1", 1, 63, 0xffff_ffff_8000_0000),
    (
        0x00b5_553b,
        "srlw a0, a0, a1",
        0xfedc_ba98_7654_3210,
        4,
        0x765_4321,
    ),
    (
        0x00b5_553b,
        "srlw a0, a0, a1",
        0xffff_ffff_ffff_ffff,
        32,
        0xffff_ffff_ffff_ffff,
    ),
    (
        0x40b5_553b,
        "sraw a0, a0, a1",
        0x123_4567_89ab_cdef,
        4,
        0xffff_ffff_f89a_bcde,
    ),
    (
        0x40b5_553b,
        "sraw a0, a0, a1",
        0x8000_0000,
        63,
        0xffff_ffff_ffff_ffff,
    ),
    (
        0x02b5_053b,
        "mulw a0, a0, a1",
        0x123_4567_89ab_cdef,
        0xfedc_ba98_7654_3210,
        0xffff_ffff_e561_8cf0,
    ),
    (
        0x02b5_053b,
        "mulw a0, a0, a1",
        0x1_0001,
        0xffff,
        0xffff_ffff_ffff_ffff,
    ),
    (
        0x02b5_453b,
        "divw a0, a0, a1",
        0x8000_0000,
        0xffff_ffff_ffff_ffff,
        0xffff_ffff_8000_0000,
    ),
    (
        0x02b5_453b,
        "divw a0, a0, a1",
        0x123_4567_89ab_cdef,
        0x1_0000_0000,
        0xffff_ffff_ffff_ffff,
    ),
    (
        0x02b5_453b,
        "divw a0, a0, a1",
        0xffff_ffff_ffff_fff9,
        2,
        0xffff_ffff_ffff_fffd,
    ),
    (
        0x02b5_553b,
        "divuw a0, a0, a1",
        0x123_4567_89ab_cdef,
        7,
        0x13aa_d446,
    ),
    (
        0x02b5_553b,
        "divuw a0, a0, a1",
        0x123_4567_89ab_cdef,
        0x1_0000_0000,
        0xffff_ffff_ffff_ffff,
    ),
    (
        0x02b5_553b,
        "divuw a0, a0, a1",
        0x8000_0000,
        1,
        0xffff_ffff_8000_0000,
    ),
    (
        0x02b5_653b,
        "remw a0, a0, a1",
        0x8000_0000,
        0xffff_ffff_ffff_ffff,
        0,
    ),
    (
        0x02b5_653b,
        "remw a0, a0, a1",
        0x123_4567_89ab_cdef,
        0x1_0000_0000,
        0xffff_ffff_89ab_cdef,
    ),
    (
        0x02b5_653b,
        "remw a0, a0, a1",
        0xffff_ffff_ffff_fff9,
        2,
        0xffff_ffff_ffff_ffff,
    ),
    (0x02b5_753b, "remuw a0, a0, a1", 0x123_4567_89ab_cdef, 7, 5),
    (
        0x02b5_753b,
        "remuw a0, a0, a1",
        0x123_4567_89ab_cdef,
        0x1_0000_0000,
        0xffff_ffff_89ab_cdef,
    ),
    (
        0x02b5_753b,
        "remuw a0, a0, a1",
        0x8000_0005,
        0x8000_0006,
        0xffff_ffff_8000_0005,
    ),
    (
        0x0015_0513,
        "addi a0, a0, 1",
        0x7fff_ffff_ffff_ffff,
        0,
        0x8000_0000_0000_0000,
    ),
    (
        0x8005_0513,
        "addi a0, a0, -2048",
        0,
        0,
        0xffff_ffff_ffff_f800,
    ),
    (0x0005_2513, "slti a0, a0, 0", 0xffff_ffff_ffff_ffff, 0, 1),
    (0xfff5_2513, "slti a0, a0, -1", 0, 0, 0),
    (0xfff5_3513, "sltiu a0, a0, -1", 5, 0, 1),
    (
        0x7ff5_3513,
        "sltiu a0, a0, 2047",
        0xffff_ffff_ffff_ffff,
        0,
        0,
    ),
    (
        0xfff5_4513,
        "xori a0, a0, -1",
        0x123_4567_89ab_cdef,
        0,
        0xfedc_ba98_7654_3210,
    ),
    (
        0x8005_6513,
        "ori a0, a0, -2048",
        0x123_4567_89ab_cdef,
        0,
        0xffff_ffff_ffff_fdef,
    ),
    (
        0xff05_7513,
        "andi a0, a0, -16",
        0x123_4567_89ab_cdef,
        0,
        0x123_4567_89ab_cde0,
    ),
    (
        0x03f5_1513,
        "slli a0, a0, 63",
        0x123_4567_89ab_cdef,
        0,
        0x8000_0000_0000_0000,
    ),
    (0x03f5_5513, "srli a0, a0, 63", 0xfedc_ba98_7654_3210, 0, 1),
    (
        0x43c5_5513,
        "srai a0, a0, 60",
        0xfedc_ba98_7654_3210,
        0,
        0xffff_ffff_ffff_ffff,
    ),
    (
        0x0015_051b,
        "addiw a0, a0, 1",
        0x7fff_ffff,
        0,
        0xffff_ffff_8000_0000,
    ),
    (
        0x0005_051b,
        "addiw a0, a0, 0",
        0x123_4567_89ab_cdef,
        0,
        0xffff_ffff_89ab_cdef,
    ),
    (
        0x01f5_151b,
        "slliw a0, a0, 31",
        0x123_4567_89ab_cdef,
        0,
        0xffff_ffff_8000_0000,
    ),
    (0x01f5_551b, "srliw a0, a0, 31", 0xfedc_ba98_7654_3210, 0, 0),
    (
        0x41c5_551b,
        "sraiw a0, a0, 28",
        0x123_4567_89ab_cdef,
        0,
        0xffff_ffff_ffff_fff8,
    ),
    (0x8000_0537, "lui a0, 524288", 0, 0, 0xffff_ffff_8000_0000),
    (0x7fff_f517, "auipc a0, 524287", 0, 0, 0x8000_f00c),
    (0xffff_f517, "auipc a0, 1048575", 0, 0, 0xf00c),
    (
        0x0ff0_000f,
        "fence",
        0x123_4567_89ab_cdef,
        0,
        0x123_4567_89ab_cdef,
    ),
];

/// A word that LLVM's assembler gives, its assembly, what a0 and a1 have, and whether the branch is taken.
type Branch = (u32, &'static str, u64, u64, bool);

const BRANCHES: &[Branch] = &[
    (0x00b5_0663, "beq a0, a1, .+12", 1, 1, true),
    (0x00b5_0663, "beq a0, a1, .+12", 1, 2, false),
    (0x00b5_1663, "bne a0, a1, .+12", 1, 1, false),
    (0x00b5_1663, "bne a0, a1, .+12", 1, 2, true),
    (
        0x00b5_4663,
        "blt a0, a1, .+12",
        0xffff_ffff_ffff_ffff,
        0,
        true,
    ),
    (
        0x00b5_4663,
        "blt a0, a1, .+12",
        0,
        0xffff_ffff_ffff_ffff,
        false,
    ),
    (0x00b5_4663, "blt a0, a1, .+12", 3, 3, false),
    (
        0x00b5_5663,
        "bge a0, a1, .+12",
        0xffff_ffff_ffff_ffff,
        0,
        false,
    ),
    (
        0x00b5_5663,
        "bge a0, a1, .+12",
        0,
        0xffff_ffff_ffff_ffff,
        true,
    ),
    (0x00b5_5663, "bge a0, a1, .+12", 3, 3, true),
    (
        0x00b5_6663,
        "bltu a0, a1, .+12",
        0xffff_ffff_ffff_ffff,
        0,
        false,
    ),
    (
        0x00b5_6663,
        "bltu a0, a1, .+12",
        0,
        0xffff_ffff_ffff_ffff,
        true,
    ),
    (0x00b5_6663, "bltu a0, a1, .+12", 3, 3, false),
    (
        0x00b5_7663,
        "bgeu a0, a1, .+12",
        0xffff_ffff_ffff_ffff,
        0,
        true,
    ),
    (
        0x00b5_7663,
        "bgeu a0, a1, .+12",
        0,
        0xffff_ffff_ffff_ffff,
        false,
    ),
    (0x00b5_7663, "bgeu a0, a1, .+12", 3, 3, true),
];

/// How a program of these words ends in so many steps without input, if there is memory for it.
pub(crate) fn end_of(alloc: Global, words: &[u32], steps: u64) -> Result<Option<Stop>, AllocError> {
    let mut out = MemSink::new(alloc, 0, Vec::new(alloc))?;
    match machine_of(alloc, words) {
        Ok(mut machine) => Ok(machine.run(steps, b"", &mut out).ok()),
        Err(end) => Err(end),
    }
}

/// The low half of a number.
pub(crate) fn low(number: u64) -> u32 {
    (number % 0x1_0000_0000) as u32
}

/// The high half of a number.
pub(crate) fn high(number: u64) -> u32 {
    (number >> 32) as u32
}

/// Whether a word gives the result: the program exits with 0 where a0 has it.
fn gives(alloc: Global, operation: Operation) -> bool {
    let (word, _, a, b, result) = operation;
    let words = [
        0x0001_02b7, // lui t0, 16
        0x0282_b503, // ld a0, 40(t0)
        0x0302_b583, // ld a1, 48(t0)
        word,
        0x0382_b603, // ld a2, 56(t0)
        0x00c5_4533, // xor a0, a0, a2
        0x0205_5693, // srli a3, a0, 32
        0x00d5_6533, // or a0, a0, a3
        0x05d0_0893, // li a7, 93
        0x0000_0073, // ecall
        low(a),
        high(a),
        low(b),
        high(b),
        low(result),
        high(result),
    ];
    end_of(alloc, &words, 10) == Ok(Some(Stop::Exited(0)))
}

/// The number of the first operation that gives something else, or 0.
fn wrong_operation(alloc: Global) -> usize {
    for at in 0..OPERATIONS.len() {
        if !gives(alloc, OPERATIONS[at]) {
            return at + 1;
        }
    }
    0
}

#[test]
fn operations_give_their_results(rt: HostRuntime) {
    assert_eq!(rt; wrong_operation(rt.alloc()), 0);
}

/// Whether a branch goes where it is to go: to an `ebreak`, or on to an exit.
fn goes(alloc: Global, branch: Branch) -> bool {
    let (word, _, a, b, taken) = branch;
    let words = [
        0x0001_02b7, // lui t0, 16
        0x0202_b503, // ld a0, 32(t0)
        0x0282_b583, // ld a1, 40(t0)
        word,
        0x05d0_0893, // li a7, 93
        0x0000_0073, // ecall
        0x0010_0073, // ebreak
        0,
        low(a),
        high(a),
        low(b),
        high(b),
    ];
    let end = if taken {
        Stop::Trapped(TrapKind::Break)
    } else {
        Stop::Exited(low(a))
    };
    end_of(alloc, &words, 6) == Ok(Some(end))
}

/// The number of the first branch that goes elsewhere, or 0.
fn wrong_branch(alloc: Global) -> usize {
    for at in 0..BRANCHES.len() {
        if !goes(alloc, BRANCHES[at]) {
            return at + 1;
        }
    }
    0
}

#[test]
fn branches_go_where_they_are_to_go(rt: HostRuntime) {
    assert_eq!(rt; wrong_branch(rt.alloc()), 0);
}
