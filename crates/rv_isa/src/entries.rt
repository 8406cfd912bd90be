//! The table of the instructions of RV64IM: the mnemonic of each, the operands that it is written with, and what is fixed
//! in its words (chapter "RV32/64G Instruction Set Listings", and RISC-V Assembly Programmer's Manual).
ghost use Rattle.std.specs.Prelude.{◌≡◌};
ghost use Rattle.rv_isa.specs.Table.{mnemonic, row, shape};

use crate::op::Op;
use crate::row::Row;
use crate::shape::Shape;

// Opcodes by their names in the base opcode map (chapter "RV32/64G Instruction Set Listings").
pub(crate) const OP: u32 = 0x33;

pub(crate) const OP_32: u32 = 0x3b;

pub(crate) const OP_IMM: u32 = 0x13;

pub(crate) const OP_IMM_32: u32 = 0x1b;

pub(crate) const LOAD: u32 = 0x03;

pub(crate) const STORE: u32 = 0x23;

pub(crate) const BRANCH: u32 = 0x63;

pub(crate) const LUI: u32 = 0x37;

pub(crate) const AUIPC: u32 = 0x17;

pub(crate) const JAL: u32 = 0x6f;

pub(crate) const JALR: u32 = 0x67;

pub(crate) const MISC_MEM: u32 = 0x0f;

pub(crate) const SYSTEM: u32 = 0x73;

/// The whole word of `ecall`.
pub(crate) const ECALL: u32 = 0x73;

/// The whole word of `ebreak`.
pub(crate) const EBREAK: u32 = 0x10_0073;

/// The mnemonic, the operands and the row of an instruction.
fn entry_of(op: Op) -> (&'static str, Shape, Row)
    ensures mnemonic { result.0.now ≡ mnemonic op }
    ensures shape { result.1 ≡ shape op }
    ensures row { result.2 ≡ row op }
{
    match op {
        Op::Add => ("add", Shape::Registers, Row::RType(OP, 0, 0)),
        Op::Sub => ("sub", Shape::Registers, Row::RType(OP, 0, 0x20)),
        Op::Sll => ("sll", Shape::Registers, Row::RType(OP, 1, 0)),
        Op::Slt => ("slt", Shape::Registers, Row::RType(OP, 2, 0)),
        Op::Sltu => ("sltu", Shape::Registers, Row::RType(OP, 3, 0)),
        Op::Xor => ("xor", Shape::Registers, Row::RType(OP, 4, 0)),
        Op::Srl => ("srl", Shape::Registers, Row::RType(OP, 5, 0)),
        Op::Sra => ("sra", Shape::Registers, Row::RType(OP, 5, 0x20)),
        Op::Or => ("or", Shape::Registers, Row::RType(OP, 6, 0)),
        Op::And => ("and", Shape::Registers, Row::RType(OP, 7, 0)),
        Op::Mul => ("mul", Shape::Registers, Row::RType(OP, 0, 1)),
        Op::Mulh => ("mulh", Shape::Registers, Row::RType(OP, 1, 1)),
        Op::Mulhsu => ("mulhsu", Shape::Registers, Row::RType(OP, 2, 1)),
        Op::Mulhu => ("mulhu", Shape::Registers, Row::RType(OP, 3, 1)),
        Op::Div => ("div", Shape::Registers, Row::RType(OP, 4, 1)),
        Op::Divu => ("divu", Shape::Registers, Row::RType(OP, 5, 1)),
        Op::Rem => ("rem", Shape::Registers, Row::RType(OP, 6, 1)),
        Op::Remu => ("remu", Shape::Registers, Row::RType(OP, 7, 1)),
        Op::Addw => ("addw", Shape::Registers, Row::RType(OP_32, 0, 0)),
        Op::Subw => ("subw", Shape::Registers, Row::RType(OP_32, 0, 0x20)),
        Op::Sllw => ("sllw", Shape::Registers, Row::RType(OP_32, 1, 0)),
        Op::Srlw => ("srlw", Shape::Registers, Row::RType(OP_32, 5, 0)),
        Op::Sraw => ("sraw", Shape::Registers, Row::RType(OP_32, 5, 0x20)),
        Op::Mulw => ("mulw", Shape::Registers, Row::RType(OP_32, 0, 1)),
        Op::Divw => ("divw", Shape::Registers, Row::RType(OP_32, 4, 1)),
        Op::Divuw => ("divuw", Shape::Registers, Row::RType(OP_32, 5, 1)),
        Op::Remw => ("remw", Shape::Registers, Row::RType(OP_32, 6, 1)),
        Op::Remuw => ("remuw", Shape::Registers, Row::RType(OP_32, 7, 1)),
        Op::Addi => ("addi", Shape::AddImmediate, Row::IType(OP_IMM, 0)),
        Op::Slti => ("slti", Shape::Immediate, Row::IType(OP_IMM, 2)),
        Op::Sltiu => ("sltiu", Shape::Immediate, Row::IType(OP_IMM, 3)),
        Op::Xori => ("xori", Shape::Immediate, Row::IType(OP_IMM, 4)),
        Op::Ori => ("ori", Shape::Immediate, Row::IType(OP_IMM, 6)),
        Op::Andi => ("andi", Shape::Immediate, Row::IType(OP_IMM, 7)),
        Op::Slli => ("slli", Shape::Immediate, Row::Shift(OP_IMM, 1, 0)),
        Op::Srli => ("srli", Shape::Immediate, Row::Shift(OP_IMM, 5, 0)),
        Op::Srai => ("srai", Shape::Immediate, Row::Shift(OP_IMM, 5, 0x10)),
        Op::Addiw => ("addiw", Shape::Immediate, Row::IType(OP_IMM_32, 0)),
        Op::Slliw => ("slliw", Shape::Immediate, Row::ShiftW(OP_IMM_32, 1, 0)),
        Op::Srliw => ("srliw", Shape::Immediate, Row::ShiftW(OP_IMM_32, 5, 0)),
        Op::Sraiw => ("sraiw", Shape::Immediate, Row::ShiftW(OP_IMM_32, 5, 0x20)),
        Op::Lb => ("lb", Shape::Load, Row::IType(LOAD, 0)),
        Op::Lh => ("lh", Shape::Load, Row::IType(LOAD, 1)),
        Op::Lw => ("lw", Shape::Load, Row::IType(LOAD, 2)),
        Op::Ld => ("ld", Shape::Load, Row::IType(LOAD, 3)),
        Op::Lbu => ("lbu", Shape::Load, Row::IType(LOAD, 4)),
        Op::Lhu => ("lhu", Shape::Load, Row::IType(LOAD, 5)),
        Op::Lwu => ("lwu", Shape::Load, Row::IType(LOAD, 6)),
        Op::Sb => ("sb", Shape::Store, Row::SType(STORE, 0)),
        Op::Sh => ("sh", Shape::Store, Row::SType(STORE, 1)),
        Op::Sw => ("sw", Shape::Store, Row::SType(STORE, 2)),
        Op::Sd => ("sd", Shape::Store, Row::SType(STORE, 3)),
        Op::Beq => ("beq", Shape::Branch, Row::BType(BRANCH, 0)),
        Op::Bne => ("bne", Shape::Branch, Row::BType(BRANCH, 1)),
        Op::Blt => ("blt", Shape::Branch, Row::BType(BRANCH, 4)),
        Op::Bge => ("bge", Shape::Branch, Row::BType(BRANCH, 5)),
        Op::Bltu => ("bltu", Shape::Branch, Row::BType(BRANCH, 6)),
        Op::Bgeu => ("bgeu", Shape::Branch, Row::BType(BRANCH, 7)),
        Op::Lui => ("lui", Shape::Upper, Row::UType(LUI)),
        Op::Auipc => ("auipc", Shape::Upper, Row::UType(AUIPC)),
        Op::Jal => ("jal", Shape::Jump, Row::JType(JAL)),
        Op::Jalr => ("jalr", Shape::JumpRegister, Row::IType(JALR, 0)),
        Op::Fence => ("fence", Shape::Nothing, Row::IType(MISC_MEM, 0)),
        Op::Ecall => ("ecall", Shape::Nothing, Row::Whole(ECALL)),
        Op::Ebreak => ("ebreak", Shape::Nothing, Row::Whole(EBREAK)),
    }
}

/// The word of an instruction in assembly.
pub fn mnemonic(op: Op) -> &'static str
    ensures { result.now ≡ mnemonic op }
{
    entry_of(op).0
}

/// The operands that an instruction has.
pub fn shape_of(op: Op) -> Shape
    ensures { result ≡ shape op }
{
    entry_of(op).1
}

/// What is fixed in the words of an instruction.
pub fn row_of(op: Op) -> Row
    ensures { result ≡ row op }
{
    entry_of(op).2
}
