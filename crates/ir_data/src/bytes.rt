//! Bytes of numbers, and zeros.
ghost use Rattle.std.specs.Prelude.{◌≡◌, ◌++◌, OnOk, replicate};
ghost use Rattle.ir_mem.specs.Bytes.{to_little};

use std::alloc::AllocError;

#[tactic(auto, using(crate::proofs::ByteLemmas::zero_more))]
/// Adds so many zeros.
pub(crate) fn push_zeros(count: u64, bytes: &mut Vec<u8>) -> Result<(), AllocError>
    ensures { OnOk result (bytes.new.items ≡ bytes.old.items ++ replicate count 0) }
{
    for _ in 0..count {
        bytes.push(0)?;
    }
    Ok(())
}

#[tactic(auto, using(crate::proofs::ByteLemmas::byte_more))]
/// Adds so many bytes of a number, the lowest first.
pub(crate) fn push_little(size: u64, number: u64, bytes: &mut Vec<u8>) -> Result<(), AllocError>
    ensures { OnOk result (bytes.new.items ≡ bytes.old.items ++ to_little size number) }
{
    let mut rest = number;
    for _ in 0..size {
        bytes.push((rest % 256) as u8)?;
        rest /= 256;
    }
    Ok(())
}
