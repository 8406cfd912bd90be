//! Lines of code, written at the end of a text.
ghost use Rattle.std.specs.Prelude.{◌≡◌, ◌++◌, ◌<◌, ◌∷◌, [], codes, map, All, OnOk};
ghost use Rattle.std.specs.Fmt.{signed_decimal};
ghost use Rattle.rv_isa.specs.Encoding.{IsInst};
ghost use Rattle.rv_isa.specs.Lines.{ended, text_of_lines};
ghost use Rattle.rv_isa.specs.Text.{register, instruction_line, spelled_by, spelled_line, based, is_zero};

use itoa::Buffer;
use rv_isa::{Inst, Shape, mnemonic, register_name, shape_of};
use std::alloc::AllocError;

/// Writes the lines of code.
pub fn push_code(out: &mut Vec<u8>, code: &[Inst]) -> Result<(), AllocError>
    requires { All IsInst code.now }
    ensures { OnOk result (out.new.items ≡ out.old.items ++ text_of_lines (map instruction_line code.now)) }
{
    for inst in code {
        push_instruction(out, *inst)?;
    }
    Ok(())
}

/// Writes an instruction's line, in its short form where it has one.
fn push_instruction(out: &mut Vec<u8>, inst: Inst) -> Result<(), AllocError>
    requires { IsInst inst }
    ensures { OnOk result (out.new.items ≡ out.old.items ++ ended (instruction_line inst)) }
{
    let word = mnemonic(inst.op);
    match shape_of(inst.op) {
        Shape::Registers => push_registers(out, word, inst),
        Shape::AddImmediate => push_add_immediate(out, word, inst),
        Shape::Immediate => push_immediate(out, word, inst),
        Shape::Load => push_load(out, word, inst),
        Shape::Store => push_store(out, word, inst),
        Shape::Branch => push_branch(out, word, inst),
        Shape::Upper => push_upper(out, word, inst),
        Shape::Jump => push_jump(out, word, inst),
        Shape::JumpRegister => push_jump_register(out, word, inst),
        Shape::Nothing => push_alone(out, word),
    }
}

/// Writes a line with three registers.
fn push_registers(out: &mut Vec<u8>, word: &str, inst: Inst) -> Result<(), AllocError>
    requires { IsInst inst }
    ensures { OnOk result (out.new.items ≡ out.old.items ++ ended (spelled_by Shape.Registers word.now inst)) }
{
    push_first(out, word, inst.rd)?;
    push_register(out, inst.rs1)?;
    push_register(out, inst.rs2)?;
    push_text(out, "\n")
}

/// Writes a line of `addi`, or of `li` or `mv`.
fn push_add_immediate(out: &mut Vec<u8>, word: &str, inst: Inst) -> Result<(), AllocError>
    requires { IsInst inst }
    ensures { OnOk result (out.new.items ≡ out.old.items ++ ended (spelled_by Shape.AddImmediate word.now inst)) }
{
    if inst.rs1 == 0 {
        return push_upper(out, "li", inst);
    }
    if is_zero_immediate(inst.imm) {
        return push_move(out, inst);
    }
    push_immediate(out, word, inst)
}

/// Writes a line of `mv`.
fn push_move(out: &mut Vec<u8>, inst: Inst) -> Result<(), AllocError>
    requires { IsInst inst }
    ensures { OnOk result (out.new.items
        ≡ out.old.items ++ ended (spelled_line (codes "mv") (register inst.rd ∷ register inst.rs1 ∷ []))) }
{
    push_first(out, "mv", inst.rd)?;
    push_register(out, inst.rs1)?;
    push_text(out, "\n")
}

/// Writes a line with two registers and a number.
fn push_immediate(out: &mut Vec<u8>, word: &str, inst: Inst) -> Result<(), AllocError>
    requires { IsInst inst }
    ensures { OnOk result (out.new.items ≡ out.old.items ++ ended (spelled_by Shape.Immediate word.now inst)) }
{
    push_first(out, word, inst.rd)?;
    push_register(out, inst.rs1)?;
    push_number(out, inst.imm)?;
    push_text(out, "\n")
}

/// Writes a line with a register and an address.
fn push_load(out: &mut Vec<u8>, word: &str, inst: Inst) -> Result<(), AllocError>
    requires { IsInst inst }
    ensures { OnOk result (out.new.items ≡ out.old.items ++ ended (spelled_by Shape.Load word.now inst)) }
{
    push_first(out, word, inst.rd)?;
    push_address(out, inst)?;
    push_text(out, "\n")
}

/// Writes a line with a register that is stored and an address.
fn push_store(out: &mut Vec<u8>, word: &str, inst: Inst) -> Result<(), AllocError>
    requires { IsInst inst }
    ensures { OnOk result (out.new.items ≡ out.old.items ++ ended (spelled_by Shape.Store word.now inst)) }
{
    push_first(out, word, inst.rs2)?;
    push_address(out, inst)?;
    push_text(out, "\n")
}

/// Writes a line with two registers and a distance.
fn push_branch(out: &mut Vec<u8>, word: &str, inst: Inst) -> Result<(), AllocError>
    requires { IsInst inst }
    ensures { OnOk result (out.new.items ≡ out.old.items ++ ended (spelled_by Shape.Branch word.now inst)) }
{
    push_first(out, word, inst.rs1)?;
    push_register(out, inst.rs2)?;
    push_number(out, inst.imm)?;
    push_text(out, "\n")
}

/// Writes a line with a register and a number.
fn push_upper(out: &mut Vec<u8>, word: &str, inst: Inst) -> Result<(), AllocError>
    requires { IsInst inst }
    ensures { OnOk result (out.new.items ≡ out.old.items ++ ended (spelled_by Shape.Upper word.now inst)) }
{
    push_first(out, word, inst.rd)?;
    push_number(out, inst.imm)?;
    push_text(out, "\n")
}

/// Writes a line of `jal` or `j`.
fn push_jump(out: &mut Vec<u8>, word: &str, inst: Inst) -> Result<(), AllocError>
    requires { IsInst inst }
    ensures { OnOk result (out.new.items ≡ out.old.items ++ ended (spelled_by Shape.Jump word.now inst)) }
{
    if inst.rd != 0 {
        return push_upper(out, word, inst);
    }
    push_text(out, "\tj\t")?;
    push_decimal(out, inst.imm)?;
    push_text(out, "\n")
}

/// Writes a line of `jalr` or `ret`.
fn push_jump_register(out: &mut Vec<u8>, word: &str, inst: Inst) -> Result<(), AllocError>
    requires { IsInst inst }
    ensures { OnOk result (out.new.items ≡ out.old.items ++ ended (spelled_by Shape.JumpRegister word.now inst)) }
{
    if (inst.rd == 0) & (inst.rs1 == 1) & is_zero_immediate(inst.imm) {
        return push_alone(out, "ret");
    }
    push_load(out, word, inst)
}

/// Writes a line without operands.
fn push_alone(out: &mut Vec<u8>, word: &str) -> Result<(), AllocError>
    ensures { OnOk result (out.new.items ≡ out.old.items ++ ended (spelled_line word.now [])) }
{
    push_text(out, "\t")?;
    push_text(out, word)?;
    push_text(out, "\n")
}

fn is_zero_immediate(imm: i64) -> bool
    ensures { result ≡ is_zero imm }
{
    imm == 0
}

/// Writes a word and the register that is its first operand.
fn push_first(out: &mut Vec<u8>, word: &str, number: u8) -> Result<(), AllocError>
    requires { number < 32 }
    ensures { OnOk result (out.new.items ≡ out.old.items ++ 9 ∷ (word.now ++ 9 ∷ register number)) }
{
    push_text(out, "\t")?;
    push_text(out, word)?;
    push_text(out, "\t")?;
    push_text(out, register_name(number))
}

/// Writes a register behind another operand.
fn push_register(out: &mut Vec<u8>, number: u8) -> Result<(), AllocError>
    requires { number < 32 }
    ensures { OnOk result (out.new.items ≡ out.old.items ++ codes ", " ++ register number) }
{
    push_text(out, ", ")?;
    push_text(out, register_name(number))
}

/// Writes a number behind another operand.
fn push_number(out: &mut Vec<u8>, number: i64) -> Result<(), AllocError>
    ensures { OnOk result (out.new.items ≡ out.old.items ++ codes ", " ++ signed_decimal number) }
{
    push_text(out, ", ")?;
    push_decimal(out, number)
}

/// Writes an address behind another operand.
fn push_address(out: &mut Vec<u8>, inst: Inst) -> Result<(), AllocError>
    requires { inst.rs1 < 32 }
    ensures { OnOk result (out.new.items ≡ out.old.items ++ codes ", " ++ based inst.imm inst.rs1) }
{
    push_number(out, inst.imm)?;
    push_text(out, "(")?;
    push_text(out, register_name(inst.rs1))?;
    push_text(out, ")")
}

/// Writes a text.
pub fn push_text(out: &mut Vec<u8>, text: &str) -> Result<(), AllocError>
    ensures { OnOk result (out.new.items ≡ out.old.items ++ text.now) }
{
    out.extend_from_slice(text.as_bytes())
}

fn push_decimal(out: &mut Vec<u8>, number: i64) -> Result<(), AllocError>
    ensures { OnOk result (out.new.items ≡ out.old.items ++ signed_decimal number) }
{
    let mut digits = Buffer::new();
    push_text(out, digits.format(number))
}
