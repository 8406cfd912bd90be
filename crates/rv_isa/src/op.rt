//! The instructions of RV64IM.

/// The instructions, one variant for each (chapter "RV32/64G Instruction Set Listings").
#[derive(Clone, Copy, Debug, PartialEq, Eq)]
pub enum Op {
    /// The sum.
    Add,
    /// The difference.
    Sub,
    /// A shift to the left by the low six bits of the second register.
    Sll,
    /// 1 where the first number is below the second one, with signs, else 0.
    Slt,
    /// 1 where the first number is below the second one, without signs, else 0.
    Sltu,
    /// Exclusive or, bit by bit.
    Xor,
    /// A shift to the right that fills with zeros.
    Srl,
    /// A shift to the right that fills with the sign.
    Sra,
    /// Or, bit by bit.
    Or,
    /// And, bit by bit.
    And,
    /// The low 64 bits of the product.
    Mul,
    /// The high 64 bits of the product of signed numbers.
    Mulh,
    /// The high 64 bits of the product of a signed and an unsigned number.
    Mulhsu,
    /// The high 64 bits of the product of unsigned numbers.
    Mulhu,
    /// The quotient of signed numbers, rounded towards zero.
    Div,
    /// The quotient of unsigned numbers.
    Divu,
    /// The remainder of signed numbers, with the sign of the dividend.
    Rem,
    /// The remainder of unsigned numbers.
    Remu,
    /// The sum of 32 bits, as are all results of W forms, extended by its sign.
    Addw,
    /// The difference of 32 bits.
    Subw,
    /// A shift of 32 bits to the left by the low five bits of the second register.
    Sllw,
    /// A shift of 32 bits to the right that fills with zeros.
    Srlw,
    /// A shift of 32 bits to the right that fills with the sign.
    Sraw,
    /// The low 32 bits of the product.
    Mulw,
    /// The quotient of signed numbers of 32 bits.
    Divw,
    /// The quotient of unsigned numbers of 32 bits.
    Divuw,
    /// The remainder of signed numbers of 32 bits.
    Remw,
    /// The remainder of unsigned numbers of 32 bits.
    Remuw,
    /// Adds a 12-bit immediate to a register.
    Addi,
    /// 1 where a register is below the immediate, with signs, else 0.
    Slti,
    /// 1 where a register is below the immediate, which is extended by its sign, without signs, else 0.
    Sltiu,
    /// Exclusive or with the immediate.
    Xori,
    /// Or with the immediate.
    Ori,
    /// And with the immediate.
    Andi,
    /// A shift to the left by an amount of six bits.
    Slli,
    /// A shift to the right that fills with zeros.
    Srli,
    /// A shift to the right that fills with the sign.
    Srai,
    /// Adds a 12-bit immediate to a register, in 32 bits.
    Addiw,
    /// A shift of 32 bits to the left by an amount of five bits.
    Slliw,
    /// A shift of 32 bits to the right that fills with zeros.
    Srliw,
    /// A shift of 32 bits to the right that fills with the sign.
    Sraiw,
    /// Loads a byte, extended by its sign.
    Lb,
    /// Loads two bytes, extended by their sign.
    Lh,
    /// Loads four bytes, extended by their sign.
    Lw,
    /// Loads eight bytes.
    Ld,
    /// Loads a byte.
    Lbu,
    /// Loads two bytes.
    Lhu,
    /// Loads four bytes.
    Lwu,
    /// Stores the low byte of a register.
    Sb,
    /// Stores the low two bytes.
    Sh,
    /// Stores the low four bytes.
    Sw,
    /// Stores eight bytes.
    Sd,
    /// Branches where two registers are equal.
    Beq,
    /// Branches where they differ.
    Bne,
    /// Branches where the first is below the second, with signs.
    Blt,
    /// Branches where it is not, with signs.
    Bge,
    /// Branches where the first is below the second, without signs.
    Bltu,
    /// Branches where it is not, without signs.
    Bgeu,
    /// Loads the upper 20 bits of a 32-bit number, sign-extended.
    Lui,
    /// Adds such a number to the address of the instruction.
    Auipc,
    /// Jumps by a distance, and links.
    Jal,
    /// Jumps to a register plus a 12-bit immediate, and links.
    Jalr,
    /// Orders memory accesses, which does nothing here. Its other bits have no meaning, and are kept as fields.
    Fence,
    /// Calls the execution environment.
    Ecall,
    /// Stops for a debugger.
    Ebreak,
}
