//! Alignments that are written.
ghost use Rattle.std.specs.Prelude.{◌≡◌};
ghost use Rattle.ir_scope.specs.Alignments.{is_aligned};

/// Whether an alignment is a power of two from 1 to a limit in bytes, if one is written (LangRef, "'load' Instruction" and
/// "Global Variables").
pub fn is_aligned(limit: u64, align: Option<u64>) -> bool
    ensures { result ≡ is_aligned limit align }
{
    match align {
        Some(align) => align.is_power_of_two() & (align <= limit),
        None => true,
    }
}
