//! Words, and the instructions that they encode.
use crate::code::{Code, RET, is_code};
use rv_isa::{Inst, Op, decode, encode};

/// Words that LLVM's assembler gives, their assembly, and their instructions.
pub(crate) const ENCODED: &[(u32, &str, Code)] = &[
    (0x00c5_8533, "add a0, a1, a2", (Op::Add, 10, 11, 12, 0)),
    (0x41f0_0fb3, "sub t6, zero, t6", (Op::Sub, 31, 0, 31, 0)),
    (0x010f_90b3, "sll ra, t6, a6", (Op::Sll, 1, 31, 16, 0)),
    (0x00c5_a533, "slt a0, a1, a2", (Op::Slt, 10, 11, 12, 0)),
    (0x01f0_3fb3, "sltu t6, zero, t6", (Op::Sltu, 31, 0, 31, 0)),
    (0x010f_c0b3, "xor ra, t6, a6", (Op::Xor, 1, 31, 16, 0)),
    (0x00c5_d533, "srl a0, a1, a2", (Op::Srl, 10, 11, 12, 0)),
    (0x41f0_5fb3, "sra t6, zero, t6", (Op::Sra, 31, 0, 31, 0)),
    (0x010f_e0b3, "or ra, t6, a6", (Op::Or, 1, 31, 16, 0)),
    (0x00c5_f533, "and a0, a1, a2", (Op::And, 10, 11, 12, 0)),
    (0x03f0_0fb3, "mul t6, zero, t6", (Op::Mul, 31, 0, 31, 0)),
    (0x030f_90b3, "mulh ra, t6, a6", (Op::Mulh, 1, 31, 16, 0)),
    (
        0x02c5_a533,
        "mulhsu a0, a1, a2",
        (Op::Mulhsu, 10, 11, 12, 0),
    ),
    (0x03f0_3fb3, "mulhu t6, zero, t6", (Op::Mulhu, 31, 0, 31, 0)),
    (0x030f_c0b3, "div ra, t6, a6", (Op::Div, 1, 31, 16, 0)),
    (0x02c5_d533, "divu a0, a1, a2", (Op::Divu, 10, 11, 12, 0)),
    (0x03f0_6fb3, "rem t6, zero, t6", (Op::Rem, 31, 0, 31, 0)),
    (0x030f_f0b3, "remu ra, t6, a6", (Op::Remu, 1, 31, 16, 0)),
    (0x00c5_853b, "addw a0, a1, a2", (Op::Addw, 10, 11, 12, 0)),
    (0x41f0_0fbb, "subw t6, zero, t6", (Op::Subw, 31, 0, 31, 0)),
    (0x010f_90bb, "sllw ra, t6, a6", (Op::Sllw, 1, 31, 16, 0)),
    (0x00c5_d53b, "srlw a0, a1, a2", (Op::Srlw, 10, 11, 12, 0)),
    (0x41f0_5fbb, "sraw t6, zero, t6", (Op::Sraw, 31, 0, 31, 0)),
    (0x030f_80bb, "mulw ra, t6, a6", (Op::Mulw, 1, 31, 16, 0)),
    (0x02c5_c53b, "divw a0, a1, a2", (Op::Divw, 10, 11, 12, 0)),
    (0x03f0_5fbb, "divuw t6, zero, t6", (Op::Divuw, 31, 0, 31, 0)),
    (0x030f_e0bb, "remw ra, t6, a6", (Op::Remw, 1, 31, 16, 0)),
    (0x02c5_f53b, "remuw a0, a1, a2", (Op::Remuw, 10, 11, 12, 0)),
    (0x0005_0293, "mv t0, a0", (Op::Addi, 5, 10, 0, 0)),
    (0x0005_8313, "mv t1, a1", (Op::Addi, 6, 11, 0, 0)),
    (0x0000_0513, "li a0, 0", (Op::Addi, 10, 0, 0, 0)),
    (0xff90_0293, "li t0, -7", (Op::Addi, 5, 0, 0, -7)),
    (0x7ff1_0113, "addi sp, sp, 2047", (Op::Addi, 2, 2, 0, 2047)),
    (
        0x800f_a093,
        "slti ra, t6, -2048",
        (Op::Slti, 1, 31, 0, -2048),
    ),
    (
        0x7ff5_b513,
        "sltiu a0, a1, 2047",
        (Op::Sltiu, 10, 11, 0, 2047),
    ),
    (0xfff0_4f93, "xori t6, zero, -1", (Op::Xori, 31, 0, 0, -1)),
    (0x800f_e093, "ori ra, t6, -2048", (Op::Ori, 1, 31, 0, -2048)),
    (
        0x7ff5_f513,
        "andi a0, a1, 2047",
        (Op::Andi, 10, 11, 0, 2047),
    ),
    (0x0000_1f93, "slli t6, zero, 0", (Op::Slli, 31, 0, 0, 0)),
    (0x03f0_1f93, "slli t6, zero, 63", (Op::Slli, 31, 0, 0, 63)),
    (0x000f_d093, "srli ra, t6, 0", (Op::Srli, 1, 31, 0, 0)),
    (0x03ff_d093, "srli ra, t6, 63", (Op::Srli, 1, 31, 0, 63)),
    (0x4005_d513, "srai a0, a1, 0", (Op::Srai, 10, 11, 0, 0)),
    (0x43f5_d513, "srai a0, a1, 63", (Op::Srai, 10, 11, 0, 63)),
    (0xfff0_0f9b, "addiw t6, zero, -1", (Op::Addiw, 31, 0, 0, -1)),
    (0x000f_909b, "slliw ra, t6, 0", (Op::Slliw, 1, 31, 0, 0)),
    (0x01ff_909b, "slliw ra, t6, 31", (Op::Slliw, 1, 31, 0, 31)),
    (0x0005_d51b, "srliw a0, a1, 0", (Op::Srliw, 10, 11, 0, 0)),
    (0x01f5_d51b, "srliw a0, a1, 31", (Op::Srliw, 10, 11, 0, 31)),
    (0x4000_5f9b, "sraiw t6, zero, 0", (Op::Sraiw, 31, 0, 0, 0)),
    (0x41f0_5f9b, "sraiw t6, zero, 31", (Op::Sraiw, 31, 0, 0, 31)),
    (0x800f_8083, "lb ra, -2048(t6)", (Op::Lb, 1, 31, 0, -2048)),
    (0x7ff5_9503, "lh a0, 2047(a1)", (Op::Lh, 10, 11, 0, 2047)),
    (0xff80_2f83, "lw t6, -8(zero)", (Op::Lw, 31, 0, 0, -8)),
    (0x800f_b083, "ld ra, -2048(t6)", (Op::Ld, 1, 31, 0, -2048)),
    (0x7ff5_c503, "lbu a0, 2047(a1)", (Op::Lbu, 10, 11, 0, 2047)),
    (0xff80_5f83, "lhu t6, -8(zero)", (Op::Lhu, 31, 0, 0, -8)),
    (0x800f_e083, "lwu ra, -2048(t6)", (Op::Lwu, 1, 31, 0, -2048)),
    (0x7ec5_8fa3, "sb a2, 2047(a1)", (Op::Sb, 0, 11, 12, 2047)),
    (0xfff0_1c23, "sh t6, -8(zero)", (Op::Sh, 0, 0, 31, -8)),
    (0x810f_a023, "sw a6, -2048(t6)", (Op::Sw, 0, 31, 16, -2048)),
    (0x7ec5_bfa3, "sd a2, 2047(a1)", (Op::Sd, 0, 11, 12, 2047)),
    (0x00b5_0463, "beq a0, a1, .+8", (Op::Beq, 0, 10, 11, 8)),
    (
        0x7ff0_0fe3,
        "beq zero, t6, .+4094",
        (Op::Beq, 0, 0, 31, 4094),
    ),
    (0xff0f_9fe3, "bne t6, a6, .-2", (Op::Bne, 0, 31, 16, -2)),
    (0x00c5_c863, "blt a1, a2, .+16", (Op::Blt, 0, 11, 12, 16)),
    (
        0x81f0_5063,
        "bge zero, t6, .-4096",
        (Op::Bge, 0, 0, 31, -4096),
    ),
    (
        0x7f0f_efe3,
        "bltu t6, a6, .+4094",
        (Op::Bltu, 0, 31, 16, 4094),
    ),
    (0xfec5_ffe3, "bgeu a1, a2, .-2", (Op::Bgeu, 0, 11, 12, -2)),
    (0x0000_1fb7, "lui t6, 1", (Op::Lui, 31, 0, 0, 1)),
    (0xffff_ffb7, "lui t6, 1048575", (Op::Lui, 31, 0, 0, 1048575)),
    (0x0000_1097, "auipc ra, 1", (Op::Auipc, 1, 0, 0, 1)),
    (
        0xffff_f097,
        "auipc ra, 1048575",
        (Op::Auipc, 1, 0, 0, 1048575),
    ),
    (
        0x8000_056f,
        "jal a0, .-1048576",
        (Op::Jal, 10, 0, 0, -1048576),
    ),
    (
        0x7fff_f56f,
        "jal a0, .+1048574",
        (Op::Jal, 10, 0, 0, 1048574),
    ),
    (0xffff_f56f, "jal a0, .-2", (Op::Jal, 10, 0, 0, -2)),
    (0x0010_056f, "jal a0, .+2048", (Op::Jal, 10, 0, 0, 2048)),
    (0x0000_80e7, "jalr ra, 0(ra)", (Op::Jalr, 1, 1, 0, 0)),
    (
        0x8000_0fe7,
        "jalr t6, -2048(zero)",
        (Op::Jalr, 31, 0, 0, -2048),
    ),
    (0x0000_8067, "ret", RET),
    (0x0ff0_000f, "fence", (Op::Fence, 0, 0, 0, 255)),
    (0x0210_000f, "fence r, w", (Op::Fence, 0, 0, 0, 33)),
    (0x0000_0073, "ecall", (Op::Ecall, 0, 0, 0, 0)),
    (0x0010_0073, "ebreak", (Op::Ebreak, 0, 0, 0, 0)),
];

/// Words that encode no instruction of the machine.
const OTHER: &[u32] = &[
    0,
    0xffff_ffff,
    0x0020_0073, // whole words
    0x0000_00f3,
    0x0000_1073,
    0x0400_1013, // shifts by amounts
    0x4000_1013,
    0x8000_5013,
    0x0200_101b,
    0x0200_501b,
    0x0000_201b,
    0x4000_1033, // operations on registers
    0x0400_0033,
    0x0000_203b,
    0x0200_103b,
    0x0000_7003, // loads, stores and branches
    0x0000_4023,
    0x0000_2063,
    0x0000_90e7, // jumps and fences
    0x0000_100f,
];

/// Whether a word encodes this instruction, and is its word.
fn encodes(word: u32, code: Code) -> bool {
    match decode(word) {
        Some(inst) => is_code(inst, code) & (encode(inst) == word),
        None => false,
    }
}

/// The number of the first word that encodes another instruction than the one beside it, or 0.
fn wrong_word() -> usize {
    for at in 0..ENCODED.len() {
        if !encodes(ENCODED[at].0, ENCODED[at].2) {
            return at + 1;
        }
    }
    0
}

/// The number of the first of the other words that encodes an instruction, or 0.
fn wrong_other() -> usize {
    for at in 0..OTHER.len() {
        if decode(OTHER[at]).is_some() {
            return at + 1;
        }
    }
    0
}

#[test]
fn words_encode_their_instructions(rt: HostRuntime) {
    assert_eq!(rt; wrong_word(), 0);
    assert_eq!(rt; wrong_other(), 0);
}

#[test]
fn a_negative_immediate_is_encoded(rt: HostRuntime) {
    let inst = Inst {
        op: Op::Addi,
        rd: 5,
        rs1: 0,
        rs2: 0,
        imm: -7,
    };
    assert_eq!(rt; encode(inst), 0xff90_0293);
}
