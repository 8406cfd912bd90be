//! Operands and arguments prepared for running.
ghost use Rattle.std.specs.Prelude.{◌≡◌, IfOk, List, max};
ghost use Rattle.std.specs.Option.{option_map_or};
ghost use Rattle.ir_code.specs.Prepared.{IsPlace, arguments_in};
ghost use Rattle.ir_loaded.specs.Pairs.{loaded};
ghost use Rattle.ir_sem.specs.Intrinsics.{values_of};
ghost use Rattle.ir_sem.specs.Operands.{bits_of};
ghost use Rattle.ir_sem.specs.declared.value.Value.{Value};
ghost use Rattle.ir_slots.specs.Slots.{slot_names};
ghost use Rattle.ir_slots.specs.Sources.{IsInput, IsSource, input_values};

use crate::align::Align;
use crate::pair::Pair;
use crate::place::Place;
use ir_loaded::LoadedModule;
use ir_slots::{Input, Inputs, SlotMap, Width};
use ir_syntax::{Arg, Operand, TyText};
use std::alloc::{AllocError, Global};

/// An operand of a type.
pub(crate) fn input<'a>(
    l: &LoadedModule<'a>,
    slots: &SlotMap<'a>,
    ty: &TyText,
    operand: &'a Operand,
) -> Input
    ensures width { result.width ≡ bits_of ty.now }
    ensures is { IsInput (loaded l.now) (slot_names slots.now) ty.now operand.now result }
{
    Input {
        width: Width::of(ty),
        source: slots.source(l, ty, operand),
    }
}

/// Two operands of a type.
pub(crate) fn pair<'a>(
    l: &LoadedModule<'a>,
    slots: &SlotMap<'a>,
    ty: &TyText,
    left: &'a Operand,
    right: &'a Operand,
) -> Pair
    ensures width { result.width ≡ bits_of ty.now }
    ensures left { IsSource (loaded l.now) (slot_names slots.now) (bits_of ty.now) left.now result.left }
    ensures right { IsSource (loaded l.now) (slot_names slots.now) (bits_of ty.now) right.now result.right }
{
    Pair {
        width: Width::of(ty),
        left: slots.source(l, ty, left),
        right: slots.source(l, ty, right),
    }
}

/// An argument of a call.
pub(crate) fn argument<'a>(l: &LoadedModule<'a>, slots: &SlotMap<'a>, arg: &'a Arg) -> Input
    ensures { IsInput (loaded l.now) (slot_names slots.now) arg.now.ty arg.now.value result }
{
    input(l, slots, &arg.ty, &arg.value)
}

/// An argument of a call that is an address.
pub(crate) fn place<'a>(l: &LoadedModule<'a>, slots: &SlotMap<'a>, arg: &'a Arg) -> Place
    ensures { IsPlace (loaded l.now) (slot_names slots.now) arg.now result }
{
    Place {
        address: argument(l, slots, arg),
        align: written_align(arg),
    }
}

/// The alignment that an argument is written with, 1 where none is.
fn written_align(arg: &Arg) -> Align
    ensures { result ≡ option_map_or (max 1) arg.now.align 1 }
{
    match arg.align {
        Some(align) => Align::from_bytes(align.max(1)),
        None => Align::from_bytes(1),
    }
}

/// The arguments of a call.
///
/// # Errors
///
/// [`AllocError`].
pub(crate) fn arguments<'a>(
    alloc: Global,
    l: &LoadedModule<'a>,
    slots: &SlotMap<'a>,
    args: &'a [Arg],
) -> Result<Inputs, AllocError>
    ensures { IfOk result (λ inputs. (values : List Value)
        → values_of (arguments_in (loaded l.now) (slot_names slots.now) values args.now) ≡ input_values values inputs) }
{
    let mut inputs = Vec::new(alloc);
    for arg in args {
        inputs.push(argument(l, slots, arg))?;
    }
    Ok(Inputs::from_vec(inputs))
}
