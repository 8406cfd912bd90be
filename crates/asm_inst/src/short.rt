//! Instructions that have short forms.
ghost use Rattle.std.specs.Prelude.{◌≡◌};
ghost use Rattle.rv_isa.specs.Text.{is_zero};
ghost use Rattle.asm_inst.specs.Forms.{stands_in_full};

use rv_isa::{Inst, Shape, shape_of};

/// Whether the immediate is 0.
fn is_zero_immediate(imm: i64) -> bool
    ensures { result ≡ is_zero imm }
{
    imm == 0
}

/// Whether the instruction stands with its own mnemonic and all operands.
pub fn is_in_full(inst: Inst) -> bool
    ensures { result ≡ stands_in_full inst }
{
    match shape_of(inst.op) {
        Shape::AddImmediate => (inst.rs1 != 0) & !is_zero_immediate(inst.imm),
        Shape::Jump => inst.rd != 0,
        Shape::JumpRegister => { !((inst.rd == 0) & (inst.rs1 == 1) & is_zero_immediate(inst.imm)) }
        _ => true,
    }
}
