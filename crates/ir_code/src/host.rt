//! Calls of functions without a body: of the host and of intrinsics (LangRef, "Intrinsic Functions").
ghost use Rattle.ir_code.specs.Prepared.{IsOperation, arguments_in};
ghost use Rattle.ir_code.specs.Widths.{HasWidth};
ghost use Rattle.ir_loaded.specs.Pairs.{loaded};
ghost use Rattle.ir_sem.specs.Intrinsics.{called_with, copied, declared_action, filled, intrinsic_action, put_action, unless_empty, values_of};
ghost use Rattle.ir_sem.specs.Instructions.{argument};
ghost use Rattle.ir_slots.specs.Slots.{locals_in, slot_names};

use crate::application::Application;
use crate::computation::Computation;
use crate::copying::Copying;
use crate::operands::{argument, place};
use crate::operation::Operation;
use cg_num::IntegerFunction;
use ir_call_rules::{Intrinsic, intrinsic_of};
use ir_loaded::LoadedModule;
use ir_slots::{SlotMap, Width};
use ir_syntax::Arg;

#[tactic(auto, using(crate::proofs::WidthLemmas::known_width))]
/// A call of a function without a body, by its name.
pub(crate) fn declared<'a>(
    l: &LoadedModule<'a>,
    slots: &SlotMap<'a>,
    name: &[u8],
    args: &'a [Arg],
) -> Operation
    ensures { IsOperation (λ values blocks. declared_action blocks name.now
        (arguments_in (loaded l.now) (slot_names slots.now) values args.now)) result }
{
    if name == b"__host_put".as_slice() {
        put(l, slots, args)
    } else if name == b"__host_get".as_slice() {
        Operation::Get
    } else {
        match intrinsic_of(name) {
            Some(intrinsic) => intrinsic_call(l, slots, intrinsic, args),
            None => Operation::Break,
        }
    }
}

/// The lowest byte of the first argument is put out.
fn put<'a>(l: &LoadedModule<'a>, slots: &SlotMap<'a>, args: &'a [Arg]) -> Operation
    ensures { IsOperation (λ values blocks. put_action (values_of
        (arguments_in (loaded l.now) (slot_names slots.now) values args.now))) result }
{
    match args {
        [first, ..] => Operation::Put(argument(l, slots, first)),
        [] => Operation::Break,
    }
}

/// A call of an intrinsic.
fn intrinsic_call<'a>(
    l: &LoadedModule<'a>,
    slots: &SlotMap<'a>,
    intrinsic: Intrinsic,
    args: &'a [Arg],
) -> Operation
    requires { HasWidth intrinsic }
    ensures { IsOperation (λ values blocks. intrinsic_action blocks intrinsic
        (arguments_in (loaded l.now) (slot_names slots.now) values args.now)) result }
{
    match (intrinsic, args) {
        (Intrinsic::Integer(function, bits), _) => {
            apply(l, slots, function, Width::from_bits(bits), args)
        }
        (Intrinsic::Trap, _) => Operation::Trap,
        (Intrinsic::Memcpy, [to, from, size, ..]) => copy(l, slots, false, to, from, size),
        (Intrinsic::Memmove, [to, from, size, ..]) => copy(l, slots, true, to, from, size),
        (Intrinsic::Memset, [to, byte, size, ..]) => fill(l, slots, to, byte, size),
        (Intrinsic::Memcpy | Intrinsic::Memmove | Intrinsic::Memset, _) => Operation::Break,
    }
}

/// A function of integers.
fn apply<'a>(
    l: &LoadedModule<'a>,
    slots: &SlotMap<'a>,
    function: IntegerFunction,
    width: Width,
    args: &'a [Arg],
) -> Operation
    ensures { IsOperation (λ values blocks. called_with function width (values_of
        (arguments_in (loaded l.now) (slot_names slots.now) values args.now))) result }
{
    let (first, second, third) = match args {
        [] => return Operation::Break,
        [first] => (first, None, None),
        [first, second] => (first, Some(argument(l, slots, second)), None),
        [first, second, third, ..] => (
            first,
            Some(argument(l, slots, second)),
            Some(argument(l, slots, third)),
        ),
    };
    Operation::Compute(Computation::Apply(Application {
        function,
        width,
        first: argument(l, slots, first),
        second,
        third,
    }))
}

/// A copy of so many bytes.
fn copy<'a>(
    l: &LoadedModule<'a>,
    slots: &SlotMap<'a>,
    may_overlap: bool,
    to: &'a Arg,
    from: &'a Arg,
    size: &'a Arg,
) -> Operation
    ensures { IsOperation (λ values blocks. unless_empty (argument (loaded l.now) (locals_in (slot_names slots.now) values) size.now).value
        (copied blocks may_overlap (argument (loaded l.now) (locals_in (slot_names slots.now) values) to.now)
        (argument (loaded l.now) (locals_in (slot_names slots.now) values) from.now))) result }
{
    Operation::Copy(Copying {
        may_overlap,
        to: place(l, slots, to),
        from: place(l, slots, from),
        size: argument(l, slots, size),
    })
}

/// A fill of so many bytes.
fn fill<'a>(
    l: &LoadedModule<'a>,
    slots: &SlotMap<'a>,
    to: &'a Arg,
    byte: &'a Arg,
    size: &'a Arg,
) -> Operation
    ensures { IsOperation (λ values blocks. unless_empty (argument (loaded l.now) (locals_in (slot_names slots.now) values) size.now).value
        (filled blocks (argument (loaded l.now) (locals_in (slot_names slots.now) values) to.now)
        (argument (loaded l.now) (locals_in (slot_names slots.now) values) byte.now).value)) result }
{
    Operation::Fill {
        to: place(l, slots, to),
        byte: argument(l, slots, byte),
        size: argument(l, slots, size),
    }
}
