//! Instructions by their mnemonics.
ghost use Rattle.std.specs.Prelude.{◌≡◌, ◌<◌};
ghost use Rattle.rv_isa.specs.Table as table;
ghost use Rattle.asm_inst.specs.Grammar as grammar;
ghost use Rattle.asm_inst.specs.Mnemonics.{op_at};
ghost use Rattle.asm_inst.specs.Readings.{Reads};

use rv_isa::{Op, mnemonic};

const OPS: [Op; 65] = [
    Op::Add,
    Op::Sub,
    Op::Sll,
    Op::Slt,
    Op::Sltu,
    Op::Xor,
    Op::Srl,
    Op::Sra,
    Op::Or,
    Op::And,
    Op::Mul,
    Op::Mulh,
    Op::Mulhsu,
    Op::Mulhu,
    Op::Div,
    Op::Divu,
    Op::Rem,
    Op::Remu,
    Op::Addw,
    Op::Subw,
    Op::Sllw,
    Op::Srlw,
    Op::Sraw,
    Op::Mulw,
    Op::Divw,
    Op::Divuw,
    Op::Remw,
    Op::Remuw,
    Op::Addi,
    Op::Slti,
    Op::Sltiu,
    Op::Xori,
    Op::Ori,
    Op::Andi,
    Op::Slli,
    Op::Srli,
    Op::Srai,
    Op::Addiw,
    Op::Slliw,
    Op::Srliw,
    Op::Sraiw,
    Op::Lb,
    Op::Lh,
    Op::Lw,
    Op::Ld,
    Op::Lbu,
    Op::Lhu,
    Op::Lwu,
    Op::Sb,
    Op::Sh,
    Op::Sw,
    Op::Sd,
    Op::Beq,
    Op::Bne,
    Op::Blt,
    Op::Bge,
    Op::Bltu,
    Op::Bgeu,
    Op::Lui,
    Op::Auipc,
    Op::Jal,
    Op::Jalr,
    Op::Fence,
    Op::Ecall,
    Op::Ebreak,
];

/// The instruction of this place in the list, 0 to 64.
fn op_numbered(place: usize) -> Op
    requires { place < 65 }
    ensures { result ≡ op_at place }
{
    OPS[place]
}

/// The instruction that has the mnemonic.
pub fn op_named(word: &[u8]) -> Option<Op>
    ensures { Reads (λ op. word.now ≡ table.mnemonic op) result }
{
    for place in 0..65 {
        let op = op_numbered(place);
        if mnemonic(op).as_bytes() == word {
            return Some(op);
        }
    }
    None
}

/// Whether lines of the instruction, with a number as its immediate, stand in a text.
pub fn is_in_text(op: Op) -> bool
    ensures { result ≡ grammar.is_in_text op }
{
    !matches!(op, Op::Auipc | Op::Jal | Op::Fence | Op::Ebreak)
}
