//! Instructions in whose lines something stands for the immediate.
ghost use Rattle.std.specs.Prelude.{◌≡◌, pos};
ghost use Rattle.rv_isa.specs.Table as table;
ghost use Rattle.asm_inst.specs.Readings.{Finds};
ghost use Rattle.asm_inst.specs.Targets as targets;
ghost use Rattle.asm_inst.specs.Targets.{HasOperands, IsLineOf, IsOpenInFull, IsOpenLi, IsOpenWith, stands_open};

use crate::bytes::{after, cut_at};
use crate::mnemonic::op_named;
use crate::operands::{one_register, register_and_address, two_registers};
use rv_isa::{Inst, Op, Row, Shape, ZERO, row_of, shape_of};

/// What stands for the immediate of an instruction.
#[derive(Clone, Copy)]
pub enum Target {
    /// A label.
    Label,
    /// The upper part of an address, `%hi`.
    High,
    /// The lower part of an address, `%lo`.
    Low,
}

/// What may stand for the immediate of an instruction.
pub fn target_of(op: Op) -> Option<Target>
    ensures { result ≡ targets.target op }
{
    if op == Op::Lui {
        return Some(Target::High);
    }
    match shape_of(op) {
        Shape::Branch | Shape::Jump => Some(Target::Label),
        Shape::AddImmediate | Shape::Load | Shape::JumpRegister => Some(Target::Low),
        Shape::Immediate => low_in(row_of(op)),
        _ => None,
    }
}

/// What may stand for the immediate, not the amount of a shift.
fn low_in(row: Row) -> Option<Target>
    ensures { result ≡ targets.target_by Shape.Immediate row }
{
    match row {
        Row::IType(..) => Some(Target::Low),
        _ => None,
    }
}

/// The instruction of a line in which a text stands for the immediate, and this text; or `None` where the line is none of
/// such an instruction.
pub fn read_open(line: &[u8]) -> Option<(Inst, &[u8])>
    ensures { Finds (IsLineOf line.now) result }
{
    let Some(rest) = after(line, b"\t") else {
        return None;
    };
    match cut_at(rest, b'\t') {
        Some((word, operands)) => open_with(word, operands),
        None => None,
    }
}

/// The instruction whose line has this word and these operands.
fn open_with<'a>(word: &[u8], operands: &'a [u8]) -> Option<(Inst, &'a [u8])>
    ensures { Finds (IsOpenWith word.now operands.now) result }
{
    if word == b"li".as_slice() {
        return open_li(operands);
    }
    if word == b"j".as_slice() {
        return Some((open(Op::Jal, ZERO, ZERO, ZERO), operands));
    }
    match op_named(word) {
        Some(op) => open_in_full(op, operands),
        None => None,
    }
}

/// An instruction with these registers, its immediate open.
fn open(op: Op, rd: u8, rs1: u8, rs2: u8) -> Inst
    ensures { result ≡ record { op = op; rd = rd; rs1 = rs1; rs2 = rs2; imm = pos 0 } }
{
    Inst {
        op,
        rd,
        rs1,
        rs2,
        imm: 0,
    }
}

/// The `li` of these operands.
fn open_li(operands: &[u8]) -> Option<(Inst, &[u8])>
    ensures { Finds (IsOpenLi operands.now) result }
{
    match one_register(operands) {
        Some((rd, last)) => Some((open(Op::Addi, rd, ZERO, ZERO), last)),
        None => None,
    }
}

/// Whether the instruction stands with its own mnemonic.
fn is_in_full(inst: Inst) -> bool
    ensures { result ≡ stands_open (table.shape inst.op) inst }
{
    match shape_of(inst.op) {
        Shape::AddImmediate => inst.rs1 != 0,
        Shape::Jump => inst.rd != 0,
        _ => true,
    }
}

/// The instruction that has these operands, and no short form.
fn open_in_full(op: Op, operands: &[u8]) -> Option<(Inst, &[u8])>
    ensures { Finds (IsOpenInFull op operands.now) result }
{
    target_of(op)?;
    match open_fields(op, operands) {
        Some((inst, last)) if is_in_full(inst) => Some((inst, last)),
        _ => None,
    }
}

/// The instruction that has these operands.
fn open_fields(op: Op, operands: &[u8]) -> Option<(Inst, &[u8])>
    ensures { Finds (HasOperands (table.shape op) op operands.now) result }
{
    match shape_of(op) {
        Shape::AddImmediate | Shape::Immediate => open_immediate(op, operands),
        Shape::Load | Shape::JumpRegister => open_address(op, operands),
        Shape::Branch => open_branch(op, operands),
        Shape::Upper | Shape::Jump => open_upper(op, operands),
        Shape::Registers | Shape::Store | Shape::Nothing => None,
    }
}

/// Two registers and what comes after them.
fn open_immediate(op: Op, operands: &[u8]) -> Option<(Inst, &[u8])>
    ensures { Finds (HasOperands Shape.Immediate op operands.now) result }
{
    match two_registers(operands) {
        Some((rd, rs1, last)) => Some((open(op, rd, rs1, ZERO), last)),
        None => None,
    }
}

/// The destination and an address.
fn open_address(op: Op, operands: &[u8]) -> Option<(Inst, &[u8])>
    ensures { Finds (HasOperands Shape.Load op operands.now) result }
{
    match register_and_address(operands) {
        Some((rd, last, rs1)) => Some((open(op, rd, rs1, ZERO), last)),
        None => None,
    }
}

/// Two sources and the target.
fn open_branch(op: Op, operands: &[u8]) -> Option<(Inst, &[u8])>
    ensures { Finds (HasOperands Shape.Branch op operands.now) result }
{
    match two_registers(operands) {
        Some((rs1, rs2, last)) => Some((open(op, ZERO, rs1, rs2), last)),
        None => None,
    }
}

/// The destination and what comes after it.
fn open_upper(op: Op, operands: &[u8]) -> Option<(Inst, &[u8])>
    ensures { Finds (HasOperands Shape.Upper op operands.now) result }
{
    match one_register(operands) {
        Some((rd, last)) => Some((open(op, rd, ZERO, ZERO), last)),
        None => None,
    }
}
