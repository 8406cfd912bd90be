//! Copies of ranges (LangRef, "'llvm.memcpy' Intrinsic" and "'llvm.memmove' Intrinsic").
ghost use Rattle.std.specs.Prelude.{◌≡◌};
ghost use Rattle.ir_access.specs.Meant.{IsFit, action_of};
ghost use Rattle.ir_code.specs.Meant.{copying_action};

use crate::place::Place;
use ir_access::{Action, copy};
use ir_mem::Memory;
use ir_sem::Value;
use ir_slots::Input;

/// A copy of so many bytes.
#[derive(Clone, Copy)]
pub struct Copying {
    /// Whether the ranges may overlap.
    pub may_overlap: bool,
    /// Where the bytes go.
    pub to: Place,
    /// Where they come from.
    pub from: Place,
    /// How many there are.
    pub size: Input,
}

impl Copying {
    /// What it is about to do, where the slots have these values.
    pub(crate) fn action(self, values: &[Value], memory: &Memory) -> Action
        ensures action { action_of memory.now result ≡ copying_action values.now memory.now self }
        ensures fits { IsFit memory.now result }
    {
        copy(
            memory,
            self.may_overlap,
            self.to.argument(values),
            self.from.argument(values),
            self.size.value(values),
        )
    }
}
