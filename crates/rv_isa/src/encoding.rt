//! The 32-bit words of instructions (sections "Base Instruction Formats" and "Immediate Encoding
//! Variants", and chapter "RV32/64G Instruction Set Listings").
ghost use Rattle.std.specs.Prelude.{◌≡◌, ◌≢◌, ◌+◌, ◌*◌, ◌/◌, ◌%◌, ◌^◌, ◌<◌, ℕ, ℤ, pos, IfSome, IfNone};
ghost use Rattle.rv_isa.specs.Encoding.{IsInst, IsRow, FitsRow, IsSigned12, IsBranchDistance, IsJumpDistance, HasWord, encoded, decoded, word_in, inst_by};
ghost use Rattle.rv_isa.specs.Format.{low_bits, sign_extended, s_bits, b_bits, j_bits};
ghost use Rattle.rv_isa.specs.declared.inst.Inst.{Inst};

use crate::decoding::op_of_word;
use crate::entries::row_of;
use crate::inst::Inst;
use crate::op::Op;
use crate::row::Row;

/// The word of an instruction, as the formats lay its fields out (sections "Base Instruction
/// Formats" and "Immediate Encoding Variants").
#[tactic(auto, using(crate::proofs::Table::is_row))]
pub fn encode(i: Inst) -> u32
    requires { IsInst i }
    ensures { result ≡ encoded i }
{
    word_of_row(row_of(i.op), i)
}

/// The instruction that has this word, or `None` where no instruction of [`Op`] has it.
pub fn decode(word: u32) -> Option<Inst>
    ensures value { result ≡ decoded word }
    ensures on_table { IfSome result (λ i. HasWord i word) }
    ensures off_table { IfNone result ((i : Inst) → IsInst i → encoded i ≢ word) }
{
    let op = op_of_word(word)?;
    Some(inst_of_row(row_of(op), op, word))
}

/// The word of an instruction is read back as that instruction.
pub fn encoding_is_undone()
    ensures { (i : Inst) → IsInst i → decoded (encoded i) ≡ Some i }
{}

/// What is read from a word is an instruction that has that word.
pub fn decoding_is_undone()
    ensures { (word : ℕ) → word < 2 ^ 32 → IfSome (decoded word) (λ i. HasWord i word) }
{}

/// Words have 32 bits.
pub fn words_fit()
    ensures { (i : Inst) → IsInst i → encoded i < 2 ^ 32 }
{}

/// The word that a row makes of the fields of an instruction.
fn word_of_row(row: Row, i: Inst) -> u32
    requires row { IsRow row }
    requires rd { i.rd < 32 }
    requires rs1 { i.rs1 < 32 }
    requires rs2 { i.rs2 < 32 }
    requires fits { FitsRow row i }
    ensures { result ≡ word_in row i }
{
    let rd = 0x80 * u32::from(i.rd);
    let rs1 = 0x8000 * u32::from(i.rs1);
    let rs2 = 0x10_0000 * u32::from(i.rs2);
    match row {
        Row::RType(opcode, funct3, funct7) => {
            opcode + rd + 0x1000 * funct3 + rs1 + rs2 + 0x200_0000 * funct7
        }
        Row::IType(opcode, funct3) => {
            opcode + rd + 0x1000 * funct3 + rs1 + 0x10_0000 * low_bits_12(i.imm)
        }
        Row::Shift(opcode, funct3, funct6) => {
            opcode + rd + 0x1000 * funct3 + rs1 + 0x10_0000 * (i.imm as u32) + 0x400_0000 * funct6
        }
        Row::ShiftW(opcode, funct3, funct7) => {
            opcode + rd + 0x1000 * funct3 + rs1 + 0x10_0000 * (i.imm as u32) + 0x200_0000 * funct7
        }
        Row::SType(opcode, funct3) => {
            opcode + 0x1000 * funct3 + rs1 + rs2 + spread_s(low_bits_12(i.imm))
        }
        Row::BType(opcode, funct3) => {
            opcode + 0x1000 * funct3 + rs1 + rs2 + spread_b(low_bits_13(i.imm))
        }
        Row::UType(opcode) => opcode + rd + 0x1000 * (i.imm as u32),
        Row::JType(opcode) => opcode + rd + spread_j(low_bits_21(i.imm)),
        Row::Whole(word) => word,
    }
}

/// The bits of an immediate where the S format has them.
fn spread_s(bits: u32) -> u32
    requires { bits < 0x1000 }
    ensures { result ≡ 0x80 * (bits % 0x20) + 0x2000000 * (bits / 0x20) }
{
    0x80 * (bits % 0x20) + 0x200_0000 * (bits / 0x20)
}

/// The bits of an immediate where the B format has them.
fn spread_b(bits: u32) -> u32
    requires { bits < 0x2000 }
    ensures { result ≡ 0x80 * (bits / 0x800 % 2) + 0x100 * (bits / 2 % 0x10) + 0x2000000 * (bits / 0x20 % 0x40)
        + 0x80000000 * (bits / 0x1000) }
{
    0x80 * (bits / 0x800 % 2)
        + 0x100 * (bits / 2 % 0x10)
        + 0x200_0000 * (bits / 0x20 % 0x40)
        + 0x8000_0000 * (bits / 0x1000)
}

/// The bits of an immediate where the J format has them.
fn spread_j(bits: u32) -> u32
    requires { bits < 0x200000 }
    ensures { result ≡ 0x1000 * (bits / 0x1000 % 0x100) + 0x100000 * (bits / 0x800 % 2) + 0x200000 * (bits / 2 % 0x400)
        + 0x80000000 * (bits / 0x100000) }
{
    0x1000 * (bits / 0x1000 % 0x100)
        + 0x10_0000 * (bits / 0x800 % 2)
        + 0x20_0000 * (bits / 2 % 0x400)
        + 0x8000_0000 * (bits / 0x10_0000)
}

/// The low twelve bits of a number that they hold.
fn low_bits_12(imm: i64) -> u32
    requires { IsSigned12 imm }
    ensures value { result ≡ low_bits 12 imm }
    ensures bound { result < 0x1000 }
{
    if imm < 0 {
        (imm + 0x1000) as u32
    } else {
        imm as u32
    }
}

/// The low 13 bits of a distance that they hold.
fn low_bits_13(imm: i64) -> u32
    requires { IsBranchDistance imm }
    ensures value { result ≡ low_bits 13 imm }
    ensures bound { result < 0x2000 }
{
    if imm < 0 {
        (imm + 0x2000) as u32
    } else {
        imm as u32
    }
}

/// The low 21 bits of a distance that they hold.
fn low_bits_21(imm: i64) -> u32
    requires { IsJumpDistance imm }
    ensures value { result ≡ low_bits 21 imm }
    ensures bound { result < 0x200000 }
{
    if imm < 0 {
        (imm + 0x20_0000) as u32
    } else {
        imm as u32
    }
}

/// An instruction with the fields that a word gives it, where this is its row.
fn inst_of_row(row: Row, op: Op, word: u32) -> Inst
    ensures { result ≡ inst_by row op word }
{
    let rd = (word / 0x80 % 0x20) as u8;
    let rs1 = (word / 0x8000 % 0x20) as u8;
    let rs2 = (word / 0x10_0000 % 0x20) as u8;
    let (rd, rs1, rs2, imm) = match row {
        Row::RType(..) => (rd, rs1, rs2, 0),
        Row::IType(..) => (rd, rs1, 0, sign_extend_12(word / 0x10_0000 % 0x1000)),
        Row::Shift(..) => (rd, rs1, 0, i64::from(word / 0x10_0000 % 0x40)),
        Row::ShiftW(..) => (rd, rs1, 0, i64::from(rs2)),
        Row::SType(..) => (0, rs1, rs2, store_offset(word)),
        Row::BType(..) => (0, rs1, rs2, branch_distance(word)),
        Row::UType(..) => (rd, 0, 0, i64::from(word / 0x1000 % 0x10_0000)),
        Row::JType(..) => (rd, 0, 0, jump_distance(word)),
        Row::Whole(..) => (0, 0, 0, 0),
    };
    Inst {
        op,
        rd,
        rs1,
        rs2,
        imm,
    }
}

/// The immediate of a word of the S format.
fn store_offset(word: u32) -> i64
    ensures { result ≡ sign_extended 12 (s_bits word) }
{
    sign_extend_12(word / 0x80 % 0x20 + 0x20 * (word / 0x200_0000 % 0x80))
}

/// The immediate of a word of the B format.
fn branch_distance(word: u32) -> i64
    ensures { result ≡ sign_extended 13 (b_bits word) }
{
    let bits = 2 * (word / 0x100 % 0x10)
        + 0x20 * (word / 0x200_0000 % 0x40)
        + 0x800 * (word / 0x80 % 2)
        + 0x1000 * (word / 0x8000_0000 % 2);
    if bits < 0x1000 {
        i64::from(bits)
    } else {
        i64::from(bits) - 0x2000
    }
}

/// The immediate of a word of the J format.
fn jump_distance(word: u32) -> i64
    ensures { result ≡ sign_extended 21 (j_bits word) }
{
    let bits = 2 * (word / 0x20_0000 % 0x400)
        + 0x800 * (word / 0x10_0000 % 2)
        + 0x1000 * (word / 0x1000 % 0x100)
        + 0x10_0000 * (word / 0x8000_0000 % 2);
    if bits < 0x10_0000 {
        i64::from(bits)
    } else {
        i64::from(bits) - 0x20_0000
    }
}

/// The number whose low twelve bits these are, extended by their highest.
fn sign_extend_12(bits: u32) -> i64
    requires { bits < 0x1000 }
    ensures { result ≡ sign_extended 12 bits }
{
    if bits < 0x800 {
        i64::from(bits)
    } else {
        i64::from(bits) - 0x1000
    }
}
