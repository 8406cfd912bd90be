//! What each instruction does (chapters "RV64I Base Integer Instruction Set" and "'M' Extension for Integer Multiplication
//! and Division").
ghost use Rattle.std.specs.Prelude.{◌≡◌};
ghost use Rattle.rv_isa.specs.Format.{low_bits};
ghost use Rattle.rv_mach.specs.Actions.{action_of, IsCall};

use crate::size::Size;
use crate::values::{
    extended_word, high_mixed, high_signed, high_unsigned, is_below, left, left_w, quotient,
    quotient_signed, quotient_signed_w, quotient_w, remainder, remainder_signed,
    remainder_signed_w, remainder_w, right, right_signed, right_signed_w, right_w, upper,
};
use rv_isa::{Inst, Op};

/// What an instruction does, once the numbers in its registers are known.
#[derive(Clone, Copy)]
pub(crate) enum Action {
    /// It sets its destination to a number.
    Set(u64),
    /// It loads from an address, and extends what it loads by its sign where the flag is set.
    Load(Size, bool, u64),
    /// It stores a number at an address.
    Store(Size, u64, u64),
    /// It goes on at an address where the flag is set, else at the next instruction.
    Branch(bool, u64),
    /// It goes on at an address, and sets its destination to the address of the next instruction.
    Jump(u64),
    /// It does nothing.
    Pass,
    /// It calls the environment.
    Call,
    /// It traps as a break does.
    Break,
}

/// What an instruction does, by the numbers in rs1 and rs2 and its own address.
pub(crate) fn action_of(i: Inst, a: u64, b: u64, pc: u64) -> Action
    ensures value { result ≡ action_of i.op a b (low_bits 64 i.imm) pc }
    ensures call { IsCall result → i.op ≡ Op.Ecall }
{
    let imm = i.imm.cast_unsigned();
    let address = a.wrapping_add(imm);
    let target = pc.wrapping_add(imm);
    match i.op {
        Op::Add => Action::Set(a.wrapping_add(b)),
        Op::Sub => Action::Set(a.wrapping_sub(b)),
        Op::Sll => Action::Set(left(a, b)),
        Op::Slt => Action::Set(u64::from(is_below(a, b))),
        Op::Sltu => Action::Set(u64::from(a < b)),
        Op::Xor => Action::Set(a ^ b),
        Op::Srl => Action::Set(right(a, b)),
        Op::Sra => Action::Set(right_signed(a, b)),
        Op::Or => Action::Set(a | b),
        Op::And => Action::Set(a & b),
        Op::Mul => Action::Set(a.wrapping_mul(b)),
        Op::Mulh => Action::Set(high_signed(a, b)),
        Op::Mulhsu => Action::Set(high_mixed(a, b)),
        Op::Mulhu => Action::Set(high_unsigned(a, b)),
        Op::Div => Action::Set(quotient_signed(a, b)),
        Op::Divu => Action::Set(quotient(a, b)),
        Op::Rem => Action::Set(remainder_signed(a, b)),
        Op::Remu => Action::Set(remainder(a, b)),
        Op::Addw => Action::Set(extended_word(a.wrapping_add(b))),
        Op::Subw => Action::Set(extended_word(a.wrapping_sub(b))),
        Op::Sllw => Action::Set(left_w(a, b)),
        Op::Srlw => Action::Set(right_w(a, b)),
        Op::Sraw => Action::Set(right_signed_w(a, b)),
        Op::Mulw => Action::Set(extended_word(a.wrapping_mul(b))),
        Op::Divw => Action::Set(quotient_signed_w(a, b)),
        Op::Divuw => Action::Set(quotient_w(a, b)),
        Op::Remw => Action::Set(remainder_signed_w(a, b)),
        Op::Remuw => Action::Set(remainder_w(a, b)),
        Op::Addi => Action::Set(a.wrapping_add(imm)),
        Op::Slti => Action::Set(u64::from(is_below(a, imm))),
        Op::Sltiu => Action::Set(u64::from(a < imm)),
        Op::Xori => Action::Set(a ^ imm),
        Op::Ori => Action::Set(a | imm),
        Op::Andi => Action::Set(a & imm),
        Op::Slli => Action::Set(left(a, imm)),
        Op::Srli => Action::Set(right(a, imm)),
        Op::Srai => Action::Set(right_signed(a, imm)),
        Op::Addiw => Action::Set(extended_word(a.wrapping_add(imm))),
        Op::Slliw => Action::Set(left_w(a, imm)),
        Op::Srliw => Action::Set(right_w(a, imm)),
        Op::Sraiw => Action::Set(right_signed_w(a, imm)),
        Op::Lb => Action::Load(Size::Byte, true, address),
        Op::Lh => Action::Load(Size::Half, true, address),
        Op::Lw => Action::Load(Size::Word, true, address),
        Op::Ld => Action::Load(Size::Double, false, address),
        Op::Lbu => Action::Load(Size::Byte, false, address),
        Op::Lhu => Action::Load(Size::Half, false, address),
        Op::Lwu => Action::Load(Size::Word, false, address),
        Op::Sb => Action::Store(Size::Byte, b, address),
        Op::Sh => Action::Store(Size::Half, b, address),
        Op::Sw => Action::Store(Size::Word, b, address),
        Op::Sd => Action::Store(Size::Double, b, address),
        Op::Beq => Action::Branch(a == b, target),
        Op::Bne => Action::Branch(a != b, target),
        Op::Blt => Action::Branch(is_below(a, b), target),
        Op::Bge => Action::Branch(!is_below(a, b), target),
        Op::Bltu => Action::Branch(a < b, target),
        Op::Bgeu => Action::Branch(a >= b, target),
        Op::Lui => Action::Set(upper(imm)),
        Op::Auipc => Action::Set(pc.wrapping_add(upper(imm))),
        Op::Jal => Action::Jump(target),
        Op::Jalr => Action::Jump(address - address % 2),
        Op::Fence => Action::Pass,
        Op::Ecall => Action::Call,
        Op::Ebreak => Action::Break,
    }
}
