//! Which instruction a word has, by its opcode, and then by its other fields.
ghost use Rattle.std.specs.Prelude.{◌≡◌};
ghost use Rattle.rv_isa.specs.Encoding.{op_of, op_under};

use crate::entries::{
    AUIPC, BRANCH, EBREAK, ECALL, JAL, JALR, LOAD, LUI, MISC_MEM, OP, OP_32, OP_IMM, OP_IMM_32,
    STORE, SYSTEM,
};
use crate::op::Op;

/// Which instruction a word has.
pub(crate) fn op_of_word(word: u32) -> Option<Op>
    ensures { result ≡ op_of word }
{
    match word % 0x80 {
        OP => register_op(word),
        OP_32 => register_op_32(word),
        OP_IMM => immediate_op(word),
        OP_IMM_32 => immediate_op_32(word),
        LOAD => load_op(word),
        STORE => store_op(word),
        BRANCH => branch_op(word),
        LUI => Some(Op::Lui),
        AUIPC => Some(Op::Auipc),
        JAL => Some(Op::Jal),
        JALR => jalr_op(word),
        MISC_MEM => fence_op(word),
        SYSTEM => system_op(word),
        _ => None,
    }
}

/// Operations on two registers.
fn register_op(word: u32) -> Option<Op>
    ensures { result ≡ op_under 0x33 word }
{
    match (word / 0x200_0000 % 0x80, word / 0x1000 % 8) {
        (0, 0) => Some(Op::Add),
        (0, 1) => Some(Op::Sll),
        (0, 2) => Some(Op::Slt),
        (0, 3) => Some(Op::Sltu),
        (0, 4) => Some(Op::Xor),
        (0, 5) => Some(Op::Srl),
        (0, 6) => Some(Op::Or),
        (0, 7) => Some(Op::And),
        (0x20, 0) => Some(Op::Sub),
        (0x20, 5) => Some(Op::Sra),
        (1, 0) => Some(Op::Mul),
        (1, 1) => Some(Op::Mulh),
        (1, 2) => Some(Op::Mulhsu),
        (1, 3) => Some(Op::Mulhu),
        (1, 4) => Some(Op::Div),
        (1, 5) => Some(Op::Divu),
        (1, 6) => Some(Op::Rem),
        (1, 7) => Some(Op::Remu),
        _ => None,
    }
}

/// Operations on two registers, of 32 bits.
fn register_op_32(word: u32) -> Option<Op>
    ensures { result ≡ op_under 0x3b word }
{
    match (word / 0x200_0000 % 0x80, word / 0x1000 % 8) {
        (0, 0) => Some(Op::Addw),
        (0, 1) => Some(Op::Sllw),
        (0, 5) => Some(Op::Srlw),
        (0x20, 0) => Some(Op::Subw),
        (0x20, 5) => Some(Op::Sraw),
        (1, 0) => Some(Op::Mulw),
        (1, 4) => Some(Op::Divw),
        (1, 5) => Some(Op::Divuw),
        (1, 6) => Some(Op::Remw),
        (1, 7) => Some(Op::Remuw),
        _ => None,
    }
}

/// Operations on a register and an immediate.
fn immediate_op(word: u32) -> Option<Op>
    ensures { result ≡ op_under 0x13 word }
{
    match (word / 0x1000 % 8, word / 0x400_0000 % 0x40) {
        (0, _) => Some(Op::Addi),
        (1, 0) => Some(Op::Slli),
        (2, _) => Some(Op::Slti),
        (3, _) => Some(Op::Sltiu),
        (4, _) => Some(Op::Xori),
        (5, 0) => Some(Op::Srli),
        (5, 0x10) => Some(Op::Srai),
        (6, _) => Some(Op::Ori),
        (7, _) => Some(Op::Andi),
        _ => None,
    }
}

/// Operations on a register and an immediate, of 32 bits.
fn immediate_op_32(word: u32) -> Option<Op>
    ensures { result ≡ op_under 0x1b word }
{
    match (word / 0x1000 % 8, word / 0x200_0000 % 0x80) {
        (0, _) => Some(Op::Addiw),
        (1, 0) => Some(Op::Slliw),
        (5, 0) => Some(Op::Srliw),
        (5, 0x20) => Some(Op::Sraiw),
        _ => None,
    }
}

/// Loads.
fn load_op(word: u32) -> Option<Op>
    ensures { result ≡ op_under 0x03 word }
{
    match word / 0x1000 % 8 {
        0 => Some(Op::Lb),
        1 => Some(Op::Lh),
        2 => Some(Op::Lw),
        3 => Some(Op::Ld),
        4 => Some(Op::Lbu),
        5 => Some(Op::Lhu),
        6 => Some(Op::Lwu),
        _ => None,
    }
}

/// Stores.
fn store_op(word: u32) -> Option<Op>
    ensures { result ≡ op_under 0x23 word }
{
    match word / 0x1000 % 8 {
        0 => Some(Op::Sb),
        1 => Some(Op::Sh),
        2 => Some(Op::Sw),
        3 => Some(Op::Sd),
        _ => None,
    }
}

/// Branches.
fn branch_op(word: u32) -> Option<Op>
    ensures { result ≡ op_under 0x63 word }
{
    match word / 0x1000 % 8 {
        0 => Some(Op::Beq),
        1 => Some(Op::Bne),
        4 => Some(Op::Blt),
        5 => Some(Op::Bge),
        6 => Some(Op::Bltu),
        7 => Some(Op::Bgeu),
        _ => None,
    }
}

/// The jump to a register.
fn jalr_op(word: u32) -> Option<Op>
    ensures { result ≡ op_under 0x67 word }
{
    match word / 0x1000 % 8 {
        0 => Some(Op::Jalr),
        _ => None,
    }
}

/// The fence.
fn fence_op(word: u32) -> Option<Op>
    ensures { result ≡ op_under 0x0f word }
{
    match word / 0x1000 % 8 {
        0 => Some(Op::Fence),
        _ => None,
    }
}

/// Calls of the environment and of a debugger.
fn system_op(word: u32) -> Option<Op>
    ensures { result ≡ op_under 0x73 word }
{
    match word {
        ECALL => Some(Op::Ecall),
        EBREAK => Some(Op::Ebreak),
        _ => None,
    }
}
