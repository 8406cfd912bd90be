//! The arguments of intrinsics that are constants (LangRef, "Intrinsic Functions").
ghost use Rattle.std.specs.Prelude.{◌≡◌};
ghost use Rattle.ir_call_rules.specs.Immediates.{align_or_1, copy_fits, immediates_fit, integer_fits, is_constant, is_false, is_flagged, is_small, length_fits, lesser, set_fits};

use crate::intrinsic::Intrinsic;
use crate::pieces::piece_count;
use cg_num::IntegerFunction;
use ir_syntax::{Arg, Operand};

/// The most bytes that a memory intrinsic accesses.
const SIZE_LIMIT: u128 = 256;
/// The most pieces in which it does.
const PIECE_LIMIT: u64 = 64;
/// The widths of `bswap` are multiples of this.
const SWAPPED_BITS: u8 = 16;

/// Whether an operand is `true`, `false` or a number.
fn is_constant(operand: &Operand) -> bool
    ensures { result ≡ is_constant operand.now }
{
    matches!(operand, Operand::Int(_) | Operand::True | Operand::False)
}

/// Whether an operand is `false`, or a number that is it in one bit.
fn is_false(operand: &Operand) -> bool
    ensures { result ≡ is_false operand.now }
{
    match operand {
        Operand::Int(literal) => literal.wrapped(1) == 0,
        Operand::False => true,
        _ => false,
    }
}

/// Whether the flag behind a number is a constant.
fn is_flagged(args: &[Arg]) -> bool
    ensures { result ≡ is_flagged args.now }
{
    match args {
        [_, flag] => is_constant(&flag.value),
        _ => false,
    }
}

fn integer_fits(function: IntegerFunction, bits: u8, args: &[Arg]) -> bool
    ensures { result ≡ integer_fits function bits args.now }
{
    match function {
        IntegerFunction::Ctlz | IntegerFunction::Cttz | IntegerFunction::Abs => is_flagged(args),
        IntegerFunction::Bswap => bits % SWAPPED_BITS == 0,
        IntegerFunction::Ctpop
        | IntegerFunction::Fshl
        | IntegerFunction::Fshr
        | IntegerFunction::Smax
        | IntegerFunction::Smin
        | IntegerFunction::Umax
        | IntegerFunction::Umin => true,
    }
}

/// Whether these are at most 256 bytes, and at most 64 pieces at an alignment.
fn is_small(align: u64, size: u128) -> bool
    ensures { result ≡ is_small align size }
{
    if size > SIZE_LIMIT {
        return false;
    }
    piece_count(align, size as u64) <= PIECE_LIMIT
}

/// Whether a length is a number, and small at an alignment.
fn length_fits(align: u64, operand: &Operand) -> bool
    ensures { result ≡ length_fits align operand.now }
{
    match operand {
        Operand::Int(literal) => is_small(align, literal.wrapped(64)),
        _ => false,
    }
}

/// The alignment of an address, which is 1 where none is written.
fn align_or_1(align: Option<u64>) -> u64
    ensures { result ≡ align_or_1 align }
{
    match align {
        Some(align) => align,
        None => 1,
    }
}

fn lesser(a: u64, b: u64) -> u64
    ensures { result ≡ lesser a b }
{
    if a <= b { a } else { b }
}

/// Whether a copy has a length and a flag.
fn copy_fits(args: &[Arg]) -> bool
    ensures { result ≡ copy_fits args.now }
{
    match args {
        [to, from, size, flag] => {
            let align = lesser(align_or_1(to.align), align_or_1(from.align));
            length_fits(align, &size.value) & is_false(&flag.value)
        }
        _ => false,
    }
}

/// The same of bytes that are set.
fn set_fits(args: &[Arg]) -> bool
    ensures { result ≡ set_fits args.now }
{
    match args {
        [to, _, size, flag] => length_fits(align_or_1(to.align), &size.value)
            & is_false(&flag.value),
        _ => false,
    }
}

/// Whether the arguments of an intrinsic that have to be constants are, and are of values that it takes.
pub(crate) fn immediates_fit(args: &[Arg], intrinsic: Intrinsic) -> bool
    ensures { result ≡ immediates_fit args.now intrinsic }
{
    match intrinsic {
        Intrinsic::Integer(function, bits) => integer_fits(function, bits, args),
        Intrinsic::Trap => true,
        Intrinsic::Memcpy | Intrinsic::Memmove => copy_fits(args),
        Intrinsic::Memset => set_fits(args),
    }
}
