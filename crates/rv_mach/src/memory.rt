//! Numbers in memory, and the word of an instruction.
ghost use Rattle.std.specs.Prelude.{◌≡◌, ◌+◌, ◌*◌, ◌^◌, ◌%◌, ◌<◌, ◌≤◌, ◌==◌, length, IfSome};
ghost use Rattle.rv_mach.specs.Layout.{word_at, fetched};
ghost use Rattle.rv_mach.specs.Memory.{bytes_of, number_at, with_number, index_in, extension};

use crate::size::Size;
use crate::stop::TrapKind;
use crate::values::extend_32;

/// The first byte of the image, where the first instruction is.
pub(crate) const IMAGE_START: u64 = 0x1_0000;

/// The first byte of the stack.
pub(crate) const STACK_START: u64 = 0x3F80_0000;

/// The first byte after the stack, where the stack pointer begins.
pub(crate) const STACK_END: u64 = 0x4000_0000;

/// The stack's size in bytes.
pub(crate) const STACK_BYTES: usize = 0x80_0000;

/// The word of the instruction at an address, or why there is none.
pub(crate) fn fetch(image: &[u8], address: u64) -> Result<u32, TrapKind>
    ensures { result ≡ fetched image.now address }
{
    if address % 4 != 0 {
        return Err(TrapKind::Misaligned);
    }
    if address < IMAGE_START {
        return Err(TrapKind::Unmapped);
    }
    let index = (address - IMAGE_START) as usize;
    if index >= image.len() || image.len() - index < 4 {
        return Err(TrapKind::Unmapped);
    }
    Ok(little_endian_word(image, index))
}

/// The word whose lowest byte is the one at this index.
fn little_endian_word(bytes: &[u8], index: usize) -> u32
    requires { index + 3 < length bytes.now }
    ensures { result ≡ word_at bytes.now index }
{
    u32::from(bytes[index])
        + 0x100 * u32::from(bytes[index + 1])
        + 0x1_0000 * u32::from(bytes[index + 2])
        + 0x100_0000 * u32::from(bytes[index + 3])
}

/// Whether an address is a multiple of a size.
pub(crate) fn is_aligned(size: Size, address: u64) -> bool
    ensures { result ≡ (address % bytes_of size == 0) }
{
    match size {
        Size::Byte => true,
        Size::Half => address % 2 == 0,
        Size::Word => address % 4 == 0,
        Size::Double => address % 8 == 0,
    }
}

/// The number of bytes of a size.
fn bytes_of(size: Size) -> usize
    ensures { result ≡ bytes_of size }
{
    match size {
        Size::Byte => 1,
        Size::Half => 2,
        Size::Word => 4,
        Size::Double => 8,
    }
}

/// The index of an address among so many bytes that begin at `start`, if as many as a size has lie there.
pub(crate) fn index_in(start: u64, count: usize, size: Size, address: u64) -> Option<usize>
    requires { start + count < 2 ^ 64 }
    ensures value { result ≡ index_in start count (bytes_of size) address }
    ensures within { IfSome result (λ i. i + bytes_of size ≤ count) }
{
    if address < start {
        return None;
    }
    let index = (address - start) as usize;
    if index < count && bytes_of(size) <= count - index {
        Some(index)
    } else {
        None
    }
}

/// The number of a size whose lowest byte is the one at this index.
pub(crate) fn number_at(size: Size, bytes: &[u8], index: usize) -> u64
    requires { index + bytes_of size ≤ length bytes.now }
    ensures value { result ≡ number_at (bytes_of size) bytes.now index }
    ensures bound { result < 2 ^ (8 * bytes_of size) }
{
    match size {
        Size::Byte => u64::from(bytes[index]),
        Size::Half => half_at(bytes, index),
        Size::Word => word_from(bytes, index),
        Size::Double => word_from(bytes, index) + 0x1_0000_0000 * word_from(bytes, index + 4),
    }
}

fn half_at(bytes: &[u8], index: usize) -> u64
    requires { index + 2 ≤ length bytes.now }
    ensures value { result ≡ number_at 2 bytes.now index }
    ensures bound { result < 0x10000 }
{
    u64::from(bytes[index]) + 0x100 * u64::from(bytes[index + 1])
}

fn word_from(bytes: &[u8], index: usize) -> u64
    requires { index + 4 ≤ length bytes.now }
    ensures value { result ≡ number_at 4 bytes.now index }
    ensures bound { result < 0x100000000 }
{
    half_at(bytes, index) + 0x1_0000 * half_at(bytes, index + 2)
}

/// A number of a size that was loaded, extended by its sign or by zeros.
pub(crate) fn extension(size: Size, signed: bool, n: u64) -> u64
    requires { n < 2 ^ (8 * bytes_of size) }
    ensures { result ≡ extension size signed n }
{
    if !signed {
        return n;
    }
    match size {
        Size::Byte if n >= 0x80 => n + 0xffff_ffff_ffff_ff00,
        Size::Half if n >= 0x8000 => n + 0xffff_ffff_ffff_0000,
        Size::Word => extend_32(n as u32),
        _ => n,
    }
}

/// Writes a number of a size from this index on, its lowest byte first.
pub(crate) fn write_number(size: Size, bytes: &mut [u8], index: usize, value: u64)
    requires { index + bytes_of size ≤ length bytes.old }
    ensures { bytes.new ≡ with_number (bytes_of size) value bytes.old index }
{
    match size {
        Size::Byte => bytes[index] = (value % 0x100) as u8,
        Size::Half => write_half(bytes, index, value),
        Size::Word => write_word(bytes, index, value),
        Size::Double => {
            write_word(bytes, index, value);
            write_word(bytes, index + 4, value / 0x1_0000_0000);
        }
    }
}

fn write_half(bytes: &mut [u8], index: usize, value: u64)
    requires { index + 2 ≤ length bytes.old }
    ensures value { bytes.new ≡ with_number 2 value bytes.old index }
    ensures count { length bytes.new ≡ length bytes.old }
{
    bytes[index] = (value % 0x100) as u8;
    bytes[index + 1] = (value / 0x100 % 0x100) as u8;
}

fn write_word(bytes: &mut [u8], index: usize, value: u64)
    requires { index + 4 ≤ length bytes.old }
    ensures value { bytes.new ≡ with_number 4 value bytes.old index }
    ensures count { length bytes.new ≡ length bytes.old }
{
    write_half(bytes, index, value);
    write_half(bytes, index + 2, value / 0x1_0000);
}
