//! Ranges that are copied and filled (LangRef, "Standard C/C++ Library Intrinsics"), and output.
ghost use Rattle.std.specs.Prelude.{◌≡◌, ◌<◌, List, ◌∷◌};
ghost use Rattle.ir_access.specs.Meant.{IsFit, IsWritable, action_of};
ghost use Rattle.ir_mem.specs.declared.block.Block.{Block};
ghost use Rattle.ir_sem.specs.Intrinsics.{all_set, copied, filled, put_action, unless_empty};
ghost use Rattle.ir_sem.specs.declared.value.Value.{Value};

use crate::action::Action;
use crate::ranges::{do_overlap, may_access};
use ir_mem::Memory;
use ir_sem::{Argument, Value};

/// So many bytes are copied from one range to another, which it may overlap or not.
pub fn copy(memory: &Memory, may_overlap: bool, to: Argument, from: Argument, size: Value) -> Action
    requires to { 0 < to.align }
    requires from { 0 < from.align }
    ensures action { action_of memory.now result ≡ unless_empty size (copied memory.now may_overlap to from) }
    ensures fits { IsFit memory.now result }
{
    match size {
        Value::Number(0) => Action::Give(Value::Poison),
        Value::Number(size) => copy_some(memory, may_overlap, to, from, size),
        Value::Poison => Action::Break,
    }
}

fn copy_some(memory: &Memory, may_overlap: bool, to: Argument, from: Argument, size: u64) -> Action
    requires to { 0 < to.align }
    requires from { 0 < from.align }
    requires some { 0 < size }
    ensures action { action_of memory.now result ≡ copied memory.now may_overlap to from size }
    ensures fits { IsFit memory.now result }
{
    let (Value::Number(target), Value::Number(source)) = (to.value, from.value) else {
        return Action::Break;
    };
    if may_access(memory, target, size, to.align, true)
        && may_access(memory, source, size, from.align, false)
        && (may_overlap | !do_overlap(target, source, size))
    {
        Action::Copy {
            to: target,
            from: source,
            size,
        }
    } else {
        Action::Break
    }
}

/// Each of so many bytes of a range is set to the lowest byte of a number.
pub fn fill(memory: &Memory, to: Argument, byte: Value, size: Value) -> Action
    requires { 0 < to.align }
    ensures action { action_of memory.now result ≡ unless_empty size (filled memory.now to byte) }
    ensures fits { IsFit memory.now result }
{
    match size {
        Value::Number(0) => Action::Give(Value::Poison),
        Value::Number(size) => fill_some(memory, to, byte, size),
        Value::Poison => Action::Break,
    }
}

fn fill_some(memory: &Memory, to: Argument, byte: Value, size: u64) -> Action
    requires to { 0 < to.align }
    requires some { 0 < size }
    ensures action { action_of memory.now result ≡ filled memory.now to byte size }
    ensures fits { IsFit memory.now result }
{
    match to.value {
        Value::Number(at) if may_access(memory, at, size, to.align, true) => {
            fill_with(at, size, byte)
        }
        _ => Action::Break,
    }
}

fn fill_with(to: u64, size: u64, byte: Value) -> Action
    ensures action { (blocks : List Block) → action_of blocks result ≡ all_set to size byte }
    ensures fits { (blocks : List Block) → IsWritable blocks to size → IsFit blocks result }
{
    match byte {
        Value::Number(number) => Action::Fill {
            to,
            size,
            byte: (number % 256) as u8,
        },
        Value::Poison => Action::FillAny { to, size },
    }
}

/// The lowest byte of a number is put out.
pub fn put(value: Value) -> Action
    ensures action { (blocks : List Block) (more : List Value) → action_of blocks result ≡ put_action (value ∷ more) }
    ensures fits { (blocks : List Block) → IsFit blocks result }
{
    match value {
        Value::Number(number) => Action::Put((number % 256) as u8),
        Value::Poison => Action::Break,
    }
}
