//! The operands that instructions are written with (RISC-V Assembly Programmer's Manual).

/// The operands of an instruction, in their order.
#[derive(Clone, Copy)]
pub enum Shape {
    /// Three registers: the destination, then the sources.
    Registers,
    /// Those of `addi`: the destination, a source and an immediate. It has the short forms `li` and `mv`.
    AddImmediate,
    /// The destination, a source and an immediate.
    Immediate,
    /// The destination and an address, which is an offset and a base.
    Load,
    /// The stored register and an address.
    Store,
    /// Two sources and the target.
    Branch,
    /// The destination and an immediate of 20 bits.
    Upper,
    /// Those of `jal`: the destination and the target. It has the short form `j`.
    Jump,
    /// Those of `jalr`: the destination and an address. It has the short form `ret`.
    JumpRegister,
    /// None.
    Nothing,
}
