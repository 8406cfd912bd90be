//! Registers by their names in the calling convention (RISC-V ABIs Specification, "Integer Register Convention").
ghost use Rattle.std.specs.Prelude.{◌≡◌, ◌<◌};
ghost use Rattle.rv_isa.specs.Text.{register};

/// Always 0.
pub const ZERO: u8 = 0;

/// The return address.
pub const RA: u8 = 1;

/// The stack pointer.
pub const SP: u8 = 2;

/// The first temporary.
pub const T0: u8 = 5;

/// The second temporary.
pub const T1: u8 = 6;

/// The first argument and the result.
pub const A0: u8 = 10;

/// The second argument.
pub const A1: u8 = 11;

/// The number of a call of the environment.
pub const A7: u8 = 17;

const REGISTER_NAMES: [&str; 32] = [
    "zero", "ra", "sp", "gp", "tp", "t0", "t1", "t2", "s0", "s1", "a0", "a1", "a2", "a3", "a4",
    "a5", "a6", "a7", "s2", "s3", "s4", "s5", "s6", "s7", "s8", "s9", "s10", "s11", "t3", "t4",
    "t5", "t6",
];

/// The name of a register, 0 to 31.
pub fn register_name(number: u8) -> &'static str
    requires { number < 32 }
    ensures { result.now ≡ register number }
{
    REGISTER_NAMES[number as usize]
}
