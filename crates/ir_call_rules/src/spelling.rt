//! Intrinsics by their names (LangRef, "Intrinsic Functions").
ghost use Rattle.std.specs.Prelude.{◌≡◌, map};
ghost use Rattle.ir_call_rules.specs.Intrinsics.{integer_functions, integer_in, intrinsic_of, is_between, named_or, up_to_widest, width_after, width_in};

use crate::intrinsic::Intrinsic;
use cg_num::IntegerFunction;

/// The functions of integers of each width, by their names without it.
const INTEGER_FUNCTIONS: [(&[u8], IntegerFunction); 11] = [
    (b"llvm.ctpop.i", IntegerFunction::Ctpop),
    (b"llvm.bswap.i", IntegerFunction::Bswap),
    (b"llvm.ctlz.i", IntegerFunction::Ctlz),
    (b"llvm.cttz.i", IntegerFunction::Cttz),
    (b"llvm.abs.i", IntegerFunction::Abs),
    (b"llvm.fshl.i", IntegerFunction::Fshl),
    (b"llvm.fshr.i", IntegerFunction::Fshr),
    (b"llvm.smax.i", IntegerFunction::Smax),
    (b"llvm.smin.i", IntegerFunction::Smin),
    (b"llvm.umax.i", IntegerFunction::Umax),
    (b"llvm.umin.i", IntegerFunction::Umin),
];

/// The number of bits of the widest integers.
const WIDEST: u8 = 64;

fn is_between(low: u8, high: u8, byte: u8) -> bool
    ensures { result ≡ is_between low high byte }
{
    (low <= byte) & (byte <= high)
}

fn up_to_widest(number: u8) -> Option<u8>
    ensures { result ≡ up_to_widest number }
{
    (number <= WIDEST).then_some(number)
}

/// The number from 1 to 64 that is written by these digits, without a leading zero.
fn width_in(digits: &[u8]) -> Option<u8>
    ensures { result ≡ width_in digits.now }
{
    match digits {
        [ones] if is_between(b'1', b'9', *ones) => Some(*ones - b'0'),
        [tens, ones] if is_between(b'1', b'9', *tens) & is_between(b'0', b'9', *ones) =>
            up_to_widest(10 * (*tens - b'0') + (*ones - b'0')),
        _ => None,
    }
}

/// The width that stands behind a prefix.
fn width_after(prefix: &[u8], name: &[u8]) -> Option<u8>
    ensures { result ≡ width_after prefix.now name.now }
{
    if name.starts_with(prefix) {
        width_in(&name[prefix.len()..])
    } else {
        None
    }
}

/// One of these functions of integers.
fn integer_in(mut table: &[(&[u8], IntegerFunction)], name: &[u8]) -> Option<Intrinsic>
    ensures { result ≡ integer_in (map (λ k. (k.0.now, k.1)) table.entry.now) name.now }
{
    while let [(prefix, function), rest @ ..] = table {
        if let Some(bits) = width_after(prefix, name) {
            return Some(Intrinsic::Integer(*function, bits));
        }
        table = rest;
    }
    None
}

/// A function of integers of a width.
fn integer_of(name: &[u8]) -> Option<Intrinsic>
    ensures { result ≡ integer_in integer_functions name.now }
{
    integer_in(&INTEGER_FUNCTIONS, name)
}

/// One that is of one type only, or another.
fn named_or(other: Option<Intrinsic>, name: &[u8]) -> Option<Intrinsic>
    ensures { result ≡ named_or other name.now }
{
    if name == b"llvm.trap".as_slice() {
        Some(Intrinsic::Trap)
    } else if name == b"llvm.memcpy.p0.p0.i64".as_slice() {
        Some(Intrinsic::Memcpy)
    } else if name == b"llvm.memmove.p0.p0.i64".as_slice() {
        Some(Intrinsic::Memmove)
    } else if name == b"llvm.memset.p0.i64".as_slice() {
        Some(Intrinsic::Memset)
    } else {
        other
    }
}

/// The intrinsic of a name, without its sigil; none where no intrinsic that is compiled has it (LangRef, "Intrinsic Functions").
pub fn intrinsic_of(name: &[u8]) -> Option<Intrinsic>
    ensures { result ≡ intrinsic_of name.now }
{
    named_or(integer_of(name), name)
}
