//! The bytes of initialisers (LangRef, "Complex Constants").
ghost use Rattle.std.specs.Prelude.{◌≡◌, ◌++◌, [], IfOk, OnOk, length};
ghost use Rattle.ir_geps.specs.Offsets.{stride};
ghost use Rattle.ir_loaded.specs.Pairs.{loaded};
ghost use Rattle.ir_sem.specs.Globals.{init_bytes, layout, padded, part_bytes, value_bytes};
ghost use Rattle.ir_sem.specs.Locals.{none_defined};
ghost use Rattle.ir_sem.specs.Operands.{operand_value};
ghost use Rattle.ir_syntax.specs.Inits.{init_of, inits_in};
ghost use Rattle.ty_core.specs.Size.{begin_at};

use crate::bytes::{push_little, push_zeros};
use crate::padding::{gap, round_up};
use ir_loaded::LoadedModule;
use ir_sem::Value;
use ir_syntax::{InitTree, InitTreeList, Operand, TyText};
use std::alloc::{AllocError, Global};

/// Adds the bytes of an initialiser of a type.
#[cycle(init)]
pub(crate) fn push_init<'a>(
    alloc: Global,
    l: &LoadedModule<'a>,
    ty: &TyText,
    init: &'a InitTree,
    bytes: &mut Vec<u8>,
) -> Result<(), AllocError>
    ensures { OnOk result (bytes.new.items ≡ bytes.old.items ++ init_bytes (loaded l.now) ty.now (init_of init.now)) }
{
    match init {
        InitTree::Value(operand) => push_value(l, ty, operand, bytes),
        InitTree::Zero => push_zeros(l.layout(ty.tree()).size, bytes),
        InitTree::Bytes(text) => bytes.extend_from_slice(text.as_slice()),
        InitTree::Array(parts) => push_parts(alloc, l, false, 0, parts, bytes),
        InitTree::Struct(parts) => {
            push_parts(alloc, l, false, l.layout(ty.tree()).size, parts, bytes)
        }
        InitTree::Packed(parts) => {
            push_parts(alloc, l, true, l.layout(ty.tree()).size, parts, bytes)
        }
    }
}

/// Adds the bytes of a value; of poison they are zeros.
fn push_value<'a>(
    l: &LoadedModule<'a>,
    ty: &TyText,
    operand: &'a Operand,
    bytes: &mut Vec<u8>,
) -> Result<(), AllocError>
    ensures { OnOk result (bytes.new.items ≡ bytes.old.items
        ++ value_bytes (layout (loaded l.now) ty.now).size (operand_value (loaded l.now) none_defined ty.now operand.now)) }
{
    let size = l.layout(ty.tree()).size;
    match l.constant(ty, operand) {
        Some(Value::Number(number)) => push_little(size, number, bytes),
        Some(Value::Poison) | None => push_zeros(size, bytes),
    }
}

/// Adds the bytes of parts, and zeros up to a size.
#[cycle(init)]
fn push_parts<'a>(
    alloc: Global,
    l: &LoadedModule<'a>,
    packed: bool,
    size: u64,
    parts: &'a InitTreeList,
    bytes: &mut Vec<u8>,
) -> Result<(), AllocError>
    ensures { OnOk result (bytes.new.items ≡ bytes.old.items
        ++ padded size (part_bytes (loaded l.now) packed [] (inits_in parts.now))) }
{
    let mut done = Vec::new(alloc);
    let mut rest = parts;
    while let InitTreeList::More(node) = rest {
        push_part(alloc, l, packed, &node.ty, &node.init, &mut done)?;
        rest = &node.tail;
    }
    push_zeros(size.saturating_sub(done.len() as u64), &mut done)?;
    bytes.extend_from_slice(done.as_slice())
}

/// Adds a part behind those before it: it begins at a multiple of its alignment, unless they are packed, and takes its stride.
#[cycle(init)]
fn push_part<'a>(
    alloc: Global,
    l: &LoadedModule<'a>,
    packed: bool,
    ty: &TyText,
    init: &'a InitTree,
    done: &mut Vec<u8>,
) -> Result<(), AllocError>
    ensures { OnOk result (done.new.items ≡ padded (begin_at packed (length done.old.items) (layout (loaded l.now) ty.now).align) done.old.items
        ++ padded (stride (layout (loaded l.now) ty.now)) (init_bytes (loaded l.now) ty.now (init_of init.now))) }
{
    let layout = l.layout(ty.tree());
    push_zeros(gap(packed, done.len() as u64, layout.align), done)?;
    let begin = done.len();
    push_init(alloc, l, ty, init, done)?;
    let size = (done.len() - begin) as u64;
    push_zeros(
        round_up(layout.size, layout.align).saturating_sub(size),
        done,
    )
}
