//! Values that are stored (LangRef, "'store' Instruction").
ghost use Rattle.std.specs.Prelude.{◌≡◌, ◌<◌, ◌≤◌};
ghost use Rattle.ir_access.specs.Meant.{IsFit, action_of};
ghost use Rattle.ir_sem.specs.Instructions.{store_action};
ghost use Rattle.ir_sem.specs.declared.value.Value.TheVariants.{Number};

use crate::action::Action;
use crate::ranges::may_access;
use ir_mem::Memory;
use ir_sem::Value;

/// A value of so many bytes, 1 to 8, is stored.
pub fn store(memory: &Memory, size: u8, align: u64, value: Value, at: Value) -> Action
    requires some { 0 < size }
    requires few { size ≤ 8 }
    requires align { 0 < align }
    ensures action { action_of memory.now result ≡ store_action memory.now size align value at }
    ensures fits { IsFit memory.now result }
{
    match at {
        Value::Number(at) => store_at(memory, size, align, value, at),
        Value::Poison => Action::Break,
    }
}

fn store_at(memory: &Memory, size: u8, align: u64, value: Value, at: u64) -> Action
    requires some { 0 < size }
    requires few { size ≤ 8 }
    requires align { 0 < align }
    ensures action { action_of memory.now result ≡ store_action memory.now size align value (Number at) }
    ensures fits { IsFit memory.now result }
{
    if !may_access(memory, at, u64::from(size), align, true) {
        return Action::Break;
    }
    match value {
        Value::Number(number) => Action::Write { at, size, number },
        Value::Poison => Action::WriteAny { at, size },
    }
}
