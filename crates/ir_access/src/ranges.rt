//! Ranges of memory: their sizes, and whether they can be accessed.
ghost use Rattle.std.specs.Prelude.{◌≡◌, ◌<◌, ◌≤◌};
ghost use Rattle.ir_eval.specs.Within.{IsValueWidth};
ghost use Rattle.ir_sem.specs.Accesses.{is_aligned, may_access, overlap};
ghost use Rattle.ty_core.specs.Size.{bytes_of};

use ir_mem::Memory;

/// How many bytes a value of so many bits, 1 to 64, has.
pub fn byte_count(bits: u8) -> u8
    requires { IsValueWidth bits }
    ensures value { result ≡ bytes_of bits }
    ensures some { 0 < result }
    ensures few { result ≤ 8 }
{
    bits.div_ceil(8)
}

/// Whether an address is a multiple of an alignment.
pub(crate) fn is_aligned(at: u64, align: u64) -> bool
    requires { 0 < align }
    ensures { result ≡ is_aligned at align }
{
    at % align == 0
}

/// Whether a range, which is not empty, may be read, or written.
pub(crate) fn may_access(memory: &Memory, at: u64, size: u64, align: u64, write: bool) -> bool
    requires some { 0 < size }
    requires align { 0 < align }
    ensures { result ≡ may_access memory.now at size align write }
{
    is_aligned(at, align) && memory.allows(at, size, write)
}

/// Whether two ranges of one size share bytes and are not one.
pub(crate) fn do_overlap(first: u64, second: u64, size: u64) -> bool
    ensures { result ≡ overlap first second size }
{
    (first != second) & (first.abs_diff(second) < size)
}
