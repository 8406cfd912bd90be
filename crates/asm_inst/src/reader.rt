//! Lines of instructions.
ghost use Rattle.std.specs.Prelude.{◌≡◌, ◌<◌, [], ◌∷◌, true, pos};
ghost use Rattle.std.specs.Fmt.{signed_decimal};
ghost use Rattle.rv_isa.specs.Table.{row, shape};
ghost use Rattle.rv_isa.specs.Text as text;
ghost use Rattle.rv_isa.specs.Text.{instruction_line, register};
ghost use Rattle.asm_inst.specs.Forms.{IsGiven, form, in_full, as_li, as_mv, operands_by};
ghost use Rattle.asm_inst.specs.Grammar.{HasFields, IsAlone, IsBetween, IsRead, IsWith, highest, lowest};
ghost use Rattle.asm_inst.specs.Readings.{Reads};

use crate::bytes::{after, cut_at};
use crate::mnemonic::{is_in_text, op_named};
use crate::number::read_number;
use crate::operands::{one_register, register_and_address, two_registers};
use crate::register::read_register;
use crate::short::is_in_full;
use rv_isa::{Inst, Op, Row, Shape, row_of, shape_of};

/// The instruction of a line, without its line feed, or `None` where the line is none of an instruction. A branch goes by
/// 8, over the next instruction, and there is no jump: lines with labels and symbols are not read.
pub fn read_inst(line: &[u8]) -> Option<Inst>
    ensures { Reads (λ i. IsRead i × (line.now ≡ instruction_line i)) result }
{
    let Some(rest) = after(line, b"\t") else {
        return None;
    };
    match cut_at(rest, b'\t') {
        Some((word, operands)) => read_with(word, operands),
        None => read_alone(rest),
    }
}

/// The instruction whose line has this word alone.
fn read_alone(word: &[u8]) -> Option<Inst>
    ensures { Reads (IsAlone word.now) result }
{
    if word == b"ret".as_slice() {
        return Some(Inst::ret());
    }
    if word == b"ecall".as_slice() {
        return Some(Inst::ecall());
    }
    None
}

/// The instruction whose line has this word and these operands.
fn read_with(word: &[u8], operands: &[u8]) -> Option<Inst>
    ensures { Reads (IsWith word.now operands.now) result }
{
    if word == b"li".as_slice() {
        return read_li(operands);
    }
    if word == b"mv".as_slice() {
        return read_mv(operands);
    }
    match op_named(word) {
        Some(op) => read_in_full(op, operands),
        None => None,
    }
}

/// The `li` of these operands.
fn read_li(operands: &[u8]) -> Option<Inst>
    ensures { Reads (λ i. IsRead i × (form i ≡ as_li)
        × (operands.now ≡ text.operands (register i.rd ∷ signed_decimal i.imm ∷ []))) result }
{
    let Some((rd, last)) = one_register(operands) else {
        return None;
    };
    match read_number(last, -2048, 2047) {
        Some(imm) => Some(Inst::li(rd, imm)),
        None => None,
    }
}

/// The `mv` of these operands. A move from `zero` is spelled as a `li`.
fn read_mv(operands: &[u8]) -> Option<Inst>
    ensures { Reads (λ i. IsRead i × (form i ≡ as_mv)
        × (operands.now ≡ text.operands (register i.rd ∷ register i.rs1 ∷ []))) result }
{
    let Some((rd, last)) = one_register(operands) else {
        return None;
    };
    match read_register(last) {
        Some(rs1) if rs1 != 0 => Some(Inst::mv(rd, rs1)),
        _ => None,
    }
}

/// The instruction that has these operands, and no short form.
fn read_in_full(op: Op, operands: &[u8]) -> Option<Inst>
    ensures { Reads (λ i. IsRead i × (i.op ≡ op) × (form i ≡ in_full)
        × IsGiven (operands_by (shape op) i) × (operands.now ≡ text.operands (operands_by (shape op) i))) result }
{
    if !is_in_text(op) {
        return None;
    }
    match read_fields(op, operands) {
        Some(inst) if is_in_full(inst) => Some(inst),
        _ => None,
    }
}

/// The instruction that has these operands.
fn read_fields(op: Op, operands: &[u8]) -> Option<Inst>
    ensures { Reads (λ i. (i.op ≡ op) × HasFields (shape op) (row op) i
        × (operands.now ≡ text.operands (operands_by (shape op) i))) result }
{
    match shape_of(op) {
        Shape::Registers => read_registers(op, operands),
        Shape::AddImmediate | Shape::Immediate => read_immediate(op, operands),
        Shape::Load | Shape::JumpRegister => read_load(op, operands),
        Shape::Store => read_store(op, operands),
        Shape::Branch => read_branch(op, operands),
        Shape::Upper => read_upper(op, operands),
        Shape::Jump | Shape::Nothing => None,
    }
}

/// Three registers.
fn read_registers(op: Op, operands: &[u8]) -> Option<Inst>
    ensures { Reads (λ i. (i.op ≡ op) × HasFields Shape.Registers (row op) i
        × (operands.now ≡ text.operands (operands_by Shape.Registers i))) result }
{
    let Some((rd, rs1, last)) = two_registers(operands) else {
        return None;
    };
    match read_register(last) {
        Some(rs2) => Some(Inst {
            op,
            rd,
            rs1,
            rs2,
            imm: 0,
        }),
        None => None,
    }
}

/// Two registers and an immediate.
fn read_immediate(op: Op, operands: &[u8]) -> Option<Inst>
    ensures { Reads (λ i. (i.op ≡ op) × HasFields Shape.Immediate (row op) i
        × (operands.now ≡ text.operands (operands_by Shape.Immediate i))) result }
{
    let Some((rd, rs1, last)) = two_registers(operands) else {
        return None;
    };
    match read_bounded(op, last) {
        Some(imm) => Some(Inst {
            op,
            rd,
            rs1,
            rs2: 0,
            imm,
        }),
        None => None,
    }
}

/// The destination and an address.
fn read_load(op: Op, operands: &[u8]) -> Option<Inst>
    ensures { Reads (λ i. (i.op ≡ op) × HasFields Shape.Load (row op) i
        × (operands.now ≡ text.operands (operands_by Shape.Load i))) result }
{
    let Some((rd, offset, rs1)) = register_and_address(operands) else {
        return None;
    };
    match read_bounded(op, offset) {
        Some(imm) => Some(Inst {
            op,
            rd,
            rs1,
            rs2: 0,
            imm,
        }),
        None => None,
    }
}

/// The stored register and an address.
fn read_store(op: Op, operands: &[u8]) -> Option<Inst>
    ensures { Reads (λ i. (i.op ≡ op) × HasFields Shape.Store (row op) i
        × (operands.now ≡ text.operands (operands_by Shape.Store i))) result }
{
    let Some((rs2, offset, rs1)) = register_and_address(operands) else {
        return None;
    };
    match read_bounded(op, offset) {
        Some(imm) => Some(Inst {
            op,
            rd: 0,
            rs1,
            rs2,
            imm,
        }),
        None => None,
    }
}

/// Two registers and a distance.
fn read_branch(op: Op, operands: &[u8]) -> Option<Inst>
    ensures { Reads (λ i. (i.op ≡ op) × HasFields Shape.Branch (row op) i
        × (operands.now ≡ text.operands (operands_by Shape.Branch i))) result }
{
    let Some((rs1, rs2, last)) = two_registers(operands) else {
        return None;
    };
    match read_bounded(op, last) {
        Some(imm) => Some(Inst {
            op,
            rd: 0,
            rs1,
            rs2,
            imm,
        }),
        None => None,
    }
}

/// The destination and an immediate of 20 bits.
fn read_upper(op: Op, operands: &[u8]) -> Option<Inst>
    ensures { Reads (λ i. (i.op ≡ op) × HasFields Shape.Upper (row op) i
        × (operands.now ≡ text.operands (operands_by Shape.Upper i))) result }
{
    let Some((rd, last)) = one_register(operands) else {
        return None;
    };
    match read_bounded(op, last) {
        Some(imm) => Some(Inst {
            op,
            rd,
            rs1: 0,
            rs2: 0,
            imm,
        }),
        None => None,
    }
}

/// The number that the bytes spell, if it may stand as the immediate of an instruction.
fn read_bounded(op: Op, bytes: &[u8]) -> Option<i64>
    ensures { Reads (λ imm. IsBetween (lowest (row op)) (highest (row op)) imm
        × (bytes.now ≡ signed_decimal imm)) result }
{
    match row_of(op) {
        Row::IType(..) | Row::SType(..) => read_number(bytes, -2048, 2047),
        Row::BType(..) => read_number(bytes, 8, 8),
        Row::Shift(..) => read_number(bytes, 0, 63),
        Row::ShiftW(..) => read_number(bytes, 0, 31),
        Row::UType(..) => read_number(bytes, 0, 0xf_ffff),
        Row::RType(..) | Row::JType(..) | Row::Whole(..) => read_number(bytes, 0, 0),
    }
}
