//! What is fixed in the words of an instruction.

/// What is fixed in the words of an instruction: its format, with the opcode and, where the format has them, funct3 and
/// funct7 or funct6; or the whole word (sections "Base Instruction Formats" and "Integer Register-Immediate Instructions").
#[derive(Clone, Copy)]
pub enum Row {
    /// The R format: opcode, funct3 and funct7.
    RType(u32, u32, u32),
    /// The I format: opcode and funct3.
    IType(u32, u32),
    /// The I format with an amount of six bits, and funct6 above it: opcode, funct3 and funct6.
    Shift(u32, u32, u32),
    /// The I format with an amount of five bits, and funct7 above it: opcode, funct3 and funct7.
    ShiftW(u32, u32, u32),
    /// The S format: opcode and funct3.
    SType(u32, u32),
    /// The B format: opcode and funct3.
    BType(u32, u32),
    /// The U format: the opcode.
    UType(u32),
    /// The J format: the opcode.
    JType(u32),
    /// The whole word.
    Whole(u32),
}
