//! `getelementptr` prepared for running (LangRef, "'getelementptr' Instruction").
ghost use Rattle.std.specs.Prelude.{◌≡◌, IfOk, OnOk, List, Some};
ghost use Rattle.std.specs.Option.{option_and_then};
ghost use Rattle.ir_code.specs.Meant.{step_distance, steps_distance};
ghost use Rattle.ir_code.specs.Prepared.{value_in};
ghost use Rattle.ir_geps.specs.Indices.{field_number, operand_index};
ghost use Rattle.ir_geps.specs.Offsets.{field_begin};
ghost use Rattle.ir_loaded.specs.Pairs.{loaded};
ghost use Rattle.ir_sem.specs.Elements.{into, offset_of, scaled, stride_of, within};
ghost use Rattle.ir_sem.specs.Operands.{bits_of, or_zero};
ghost use Rattle.ir_sem.specs.declared.value.Value.{Value};
ghost use Rattle.ir_sem.specs.declared.value.Value.TheVariants.{Number};
ghost use Rattle.ir_sizes.specs.Named.{written_out};
ghost use Rattle.ir_slots.specs.Slots.{slot_names};
ghost use Rattle.ir_syntax.specs.Types.{tree_of, trees_in};

use crate::operands::input;
use crate::steps::{Step, Steps};
use ir_geps::{GepIndex, field_begin, part_of};
use ir_loaded::LoadedModule;
use ir_sizes::NamedTypes;
use ir_slots::SlotMap;
use ir_syntax::{TyText, TypeTree, TypeTreeList, TypedOperand};
use std::alloc::{AllocError, Global};

/// The steps that indices go over a type and into it.
///
/// # Errors
///
/// [`AllocError`].
pub(crate) fn steps<'a>(
    alloc: Global,
    l: &LoadedModule<'a>,
    slots: &SlotMap<'a>,
    ty: &'a TyText,
    indices: &'a [TypedOperand],
) -> Result<Steps, AllocError>
    ensures { IfOk result (λ steps. (values : List Value)
        → offset_of l.now.0.types (value_in (loaded l.now) (slot_names slots.now) values) ty.now indices.now
        ≡ steps_distance values steps (Number 0)) }
{
    let mut steps = Vec::new(alloc);
    if let [first, rest @ ..] = indices {
        steps.push(strides(l, slots, ty.tree(), first))?;
        push_steps(l, slots, ty.tree(), rest, &mut steps)?;
    }
    Ok(Steps::from_vec(steps))
}

/// Adds the steps that indices go into a type.
///
/// # Errors
///
/// [`AllocError`].
fn push_steps<'a>(
    l: &LoadedModule<'a>,
    slots: &SlotMap<'a>,
    ty: &'a TypeTree,
    indices: &'a [TypedOperand],
    steps: &mut Vec<Step>,
) -> Result<(), AllocError>
    ensures { OnOk result ((values : List Value)
        → steps_distance values steps.new.items (Number 0) ≡ steps_distance values steps.old.items
        (within l.now.0.types (value_in (loaded l.now) (slot_names slots.now) values) indices.now (Some (tree_of ty.now)))) }
{
    let mut part = Some(ty);
    for index in indices {
        let Some(whole) = part else {
            return Ok(());
        };
        steps.push(step_into(l, slots, whole, index))?;
        part = part_of(l.types(), whole, index);
    }
    Ok(())
}

/// The step that an index goes into a type.
fn step_into<'a>(
    l: &LoadedModule<'a>,
    slots: &SlotMap<'a>,
    ty: &'a TypeTree,
    index: &'a TypedOperand,
) -> Step
    ensures { (values : List Value)
        → into l.now.0.types (value_in (loaded l.now) (slot_names slots.now) values) index.now (written_out l.now.0.types (tree_of ty.now))
        ≡ step_distance values result }
{
    match l.types().written_out(ty) {
        Some(TypeTree::Array { elem, .. }) => strides(l, slots, elem, index),
        Some(TypeTree::Struct { packed, fields }) => {
            Step::Fixed(field_offset(l.types(), *packed, fields, index))
        }
        Some(TypeTree::Int { .. } | TypeTree::Ptr | TypeTree::Named(_)) | None => Step::Fixed(0),
    }
}

/// The step over as many values of a type as an index says.
fn strides<'a>(
    l: &LoadedModule<'a>,
    slots: &SlotMap<'a>,
    ty: &TypeTree,
    index: &'a TypedOperand,
) -> Step
    ensures { (values : List Value)
        → scaled (stride_of l.now.0.types (tree_of ty.now)) (bits_of index.now.ty)
        (value_in (loaded l.now) (slot_names slots.now) values index.now.ty index.now.value)
        ≡ step_distance values result }
{
    Step::Strides {
        stride: stride_of(l.types(), ty),
        index: input(l, slots, &index.ty, &index.value),
    }
}

/// The bytes from one value of a type to the next.
fn stride_of(types: &NamedTypes<'_>, ty: &TypeTree) -> u64
    ensures { result ≡ stride_of types.now (tree_of ty.now) }
{
    match types.layout(ty) {
        Some(layout) => layout.size.div_ceil(layout.align) * layout.align,
        None => 0,
    }
}

/// Where the field begins that an index names.
fn field_offset(
    types: &NamedTypes<'_>,
    packed: bool,
    fields: &TypeTreeList,
    index: &TypedOperand,
) -> u64
    ensures { result ≡ or_zero (option_and_then (field_begin types.now packed 0 (trees_in fields.now)) (field_number (operand_index index.now))) }
{
    match index.field_number() {
        Some(place) => field_begin(types, packed, fields, place).unwrap_or(0),
        None => 0,
    }
}
