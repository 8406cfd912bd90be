//! An instruction and a line of code.
ghost use Rattle.std.specs.Prelude.{◌≡◌};
ghost use Rattle.rv_isa.specs.Instructions.{addi, ecall, jalr, li, lui, mv, ret};

use crate::op::Op;
use crate::register::{RA, ZERO};
use crate::symbol::SymName;

/// An instruction with its fields. Fields that its format lacks are 0.
#[derive(Clone, Copy, Debug, PartialEq, Eq)]
pub struct Inst {
    /// Which instruction.
    pub op: Op,
    /// The destination register, 0 to 31.
    pub rd: u8,
    /// The first source register, 0 to 31.
    pub rs1: u8,
    /// The second source register, 0 to 31.
    pub rs2: u8,
    /// The immediate as the assembly writes it; that of `lui` is 0 to 1048575.
    pub imm: i64,
}

impl Inst {
    /// `addi rd, rs1, imm`.
    pub fn addi(rd: u8, rs1: u8, imm: i64) -> Inst
        ensures { result ≡ addi rd rs1 imm }
    {
        Inst {
            op: Op::Addi,
            rd,
            rs1,
            rs2: ZERO,
            imm,
        }
    }

    /// `lui rd, imm`.
    pub fn lui(rd: u8, imm: i64) -> Inst
        ensures { result ≡ lui rd imm }
    {
        Inst {
            op: Op::Lui,
            rd,
            rs1: ZERO,
            rs2: ZERO,
            imm,
        }
    }

    /// `jalr rd, imm(rs1)`.
    pub fn jalr(rd: u8, rs1: u8, imm: i64) -> Inst
        ensures { result ≡ jalr rd rs1 imm }
    {
        Inst {
            op: Op::Jalr,
            rd,
            rs1,
            rs2: ZERO,
            imm,
        }
    }

    /// `ecall`.
    pub fn ecall() -> Inst
        ensures { result ≡ ecall }
    {
        Inst {
            op: Op::Ecall,
            rd: ZERO,
            rs1: ZERO,
            rs2: ZERO,
            imm: 0,
        }
    }

    /// `li rd, imm`.
    pub fn li(rd: u8, imm: i64) -> Inst
        ensures { result ≡ li rd imm }
    {
        Inst::addi(rd, ZERO, imm)
    }

    /// `mv rd, rs`.
    pub fn mv(rd: u8, rs: u8) -> Inst
        ensures { result ≡ mv rd rs }
    {
        Inst::addi(rd, rs, 0)
    }

    /// `ret`.
    pub fn ret() -> Inst
        ensures { result ≡ ret }
    {
        Inst::jalr(ZERO, RA, 0)
    }
}

/// One instruction of a function's code, whose immediate may wait for a symbol's address.
#[derive(Debug, Drop)]
pub enum Line {
    /// An instruction as it stands.
    Plain(Inst),
    /// One that takes the upper 20 bits of a symbol's address plus an offset (`%hi`).
    High {
        /// The instruction, its immediate 0.
        inst: Inst,
        /// The symbol.
        symbol: SymName,
        /// Added to the symbol's address.
        offset: i64,
    },
    /// One that takes the signed low 12 bits of a symbol's address plus an offset (`%lo`).
    Low {
        /// The instruction, its immediate 0.
        inst: Inst,
        /// The symbol.
        symbol: SymName,
        /// Added to the symbol's address.
        offset: i64,
    },
    /// `unimp`, whose word is that of no instruction of the table.
    Unimp,
}

/// The word of `unimp`, which is `csrrw zero, cycle, zero`: a write of a counter that can be read alone
/// (RISC-V Assembly Programmer's Manual, "Pseudoinstructions").
pub const UNIMP: u32 = 0xc000_1073;
