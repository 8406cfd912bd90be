//! Instructions as rows of tables have them.
use rv_isa::{Inst, Op};

/// An instruction: its operation, rd, rs1, rs2 and its immediate.
pub(crate) type Code = (Op, u8, u8, u8, i64);

/// `ret`.
pub(crate) const RET: Code = (Op::Jalr, 0, 1, 0, 0);

/// Whether an instruction is this one.
pub(crate) fn is_code(inst: Inst, code: Code) -> bool {
    let wanted = Inst {
        op: code.0,
        rd: code.1,
        rs1: code.2,
        rs2: code.3,
        imm: code.4,
    };
    inst == wanted
}
