//! Values that are given: as they are, frozen, or loaded (LangRef, "'freeze' Instruction" and "'load' Instruction").
ghost use Rattle.std.specs.Prelude.{◌≡◌, ◌<◌, List};
ghost use Rattle.ir_access.specs.Meant.{IsFit, action_of};
ghost use Rattle.ir_eval.specs.Within.{IsValueWidth};
ghost use Rattle.ir_mem.specs.declared.block.Block.{Block};
ghost use Rattle.ir_sem.specs.Accesses.{value_at};
ghost use Rattle.ir_sem.specs.Instructions.{frozen_action, load_action, or_break};

use crate::action::Action;
use crate::ranges::{byte_count, is_aligned};
use cg_num::wrap;
use ir_mem::Memory;
use ir_sem::Value;

/// A result has a value, or else this is undefined behaviour.
pub fn give_or_break(value: Option<Value>) -> Action
    ensures action { (blocks : List Block) → action_of blocks result ≡ or_break value }
    ensures fits { (blocks : List Block) → IsFit blocks result }
{
    match value {
        Some(value) => Action::Give(value),
        None => Action::Break,
    }
}

/// A value of so many bits is frozen.
pub fn freeze(bits: u8, value: Value) -> Action
    ensures action { (blocks : List Block) → action_of blocks result ≡ frozen_action bits value }
    ensures fits { (blocks : List Block) → IsFit blocks result }
{
    match value {
        Value::Number(_) => Action::Give(value),
        Value::Poison => Action::Choose(bits),
    }
}

/// A value of so many bits, 1 to 64, is loaded.
pub fn load(memory: &Memory, bits: u8, align: u64, at: Value) -> Action
    requires width { IsValueWidth bits }
    requires align { 0 < align }
    ensures action { action_of memory.now result ≡ load_action memory.now bits align at }
    ensures fits { IsFit memory.now result }
{
    match at {
        Value::Number(at) if is_aligned(at, align) => give_or_break(value_at(memory, at, bits)),
        _ => Action::Break,
    }
}

/// The value of so many bits, 1 to 64, at an address.
fn value_at(memory: &Memory, at: u64, bits: u8) -> Option<Value>
    requires { IsValueWidth bits }
    ensures { result ≡ value_at memory.now at bits }
{
    let number = memory.load(at, byte_count(bits))?;
    Some(Value::Number(wrap(bits, u128::from(number)) as u64))
}
