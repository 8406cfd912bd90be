//! Registers by their names in the calling convention (chapter "RISC-V Assembly Programmer's
//! Handbook" of the RISC-V Instruction Set Manual, Volume I).
ghost use Rattle.std.specs.Prelude.{◌≡◌, ◌<◌};
ghost use Rattle.rv_isa.specs.Text.{register};
ghost use Rattle.asm_inst.specs.Readings.{Reads};

use rv_isa::register_name;

/// The register that has the name.
pub fn read_register(name: &[u8]) -> Option<u8>
    ensures { Reads (λ r. (r < 32) × (name.now ≡ register r)) result }
{
    for number in 0..32 {
        if register_name(number).as_bytes() == name {
            return Some(number);
        }
    }
    None
}
