//! Accesses to memory prepared for running (LangRef, "Memory Access and Addressing Operations").
ghost use Rattle.std.specs.Prelude.{◌≡◌};
ghost use Rattle.ir_code.specs.Prepared.{IsOperation};
ghost use Rattle.ir_op_rules.specs.Sizes.{count_of};
ghost use Rattle.ir_sem.specs.Accesses.{align_or, value_size};
ghost use Rattle.ir_sem.specs.Instructions.{alloca_action, load_action, store_action};
ghost use Rattle.ir_sem.specs.Operands.{bits_of};
ghost use Rattle.ir_sizes.specs.Sized.{layout_in};
ghost use Rattle.ir_slots.specs.Sources.{input_value};

use crate::align::Align;
use crate::operation::Operation;
use crate::place::Place;
use ir_loaded::LoadedModule;
use ir_op_rules::{count_of, small_size};
use ir_slots::{Input, Width};
use ir_syntax::{TyText, TypedLiteral};

/// The alignment that is written, or else that of a type.
fn align_or(l: &LoadedModule<'_>, ty: &TyText, align: Option<u64>) -> Align
    ensures { result ≡ align_or l.now.0.types ty.now align }
{
    Align::from_bytes(l.align_or(ty, align))
}

/// `load`.
pub(crate) fn load(
    l: &LoadedModule<'_>,
    ty: &TyText,
    address: Input,
    align: Option<u64>,
) -> Operation
    ensures { IsOperation (λ values blocks. load_action blocks (bits_of ty.now) (align_or l.now.0.types ty.now align) (input_value values address)) result }
{
    Operation::Load {
        width: Width::of(ty),
        place: Place {
            address,
            align: align_or(l, ty, align),
        },
    }
}

/// `store`.
pub(crate) fn store(
    l: &LoadedModule<'_>,
    ty: &TyText,
    value: Input,
    address: Input,
    align: Option<u64>,
) -> Operation
    requires { value.width ≡ bits_of ty.now }
    ensures { IsOperation (λ values blocks. store_action blocks (value_size ty.now) (align_or l.now.0.types ty.now align)
        (input_value values value) (input_value values address)) result }
{
    Operation::Store {
        value,
        place: Place {
            address,
            align: align_or(l, ty, align),
        },
    }
}

/// `alloca`.
pub(crate) fn reserve(
    l: &LoadedModule<'_>,
    ty: &TyText,
    count: &Option<TypedLiteral>,
    align: Option<u64>,
) -> Operation
    ensures { IsOperation (λ values blocks. alloca_action (layout_in l.now.0.types ty.now) (count_of count.now) (align_or l.now.0.types ty.now align)) result }
{
    match (l.types().layout(ty.tree()), count_of(count)) {
        (Some(each), Some(count)) => match small_size(each, count) {
            Some(size) => Operation::Reserve {
                size,
                align: align_or(l, ty, align),
            },
            None => Operation::Break,
        },
        (Some(_), None) | (None, _) => Operation::Break,
    }
}
