//! Instructions that do not enter a function.
ghost use Rattle.std.specs.Prelude.{◌≡◌};
ghost use Rattle.ir_access.specs.Meant.{IsFit, action_of};
ghost use Rattle.ir_code.specs.Meant.{operation_action};

use crate::align::Align;
use crate::computation::Computation;
use crate::copying::Copying;
use crate::place::Place;
use ir_access::{Action, byte_count, fill, freeze, give_or_break, load, put, store};
use ir_mem::Memory;
use ir_sem::Value;
use ir_slots::{Input, Width};

/// An instruction that does not enter a function.
#[derive(Drop)]
pub enum Operation {
    /// It gives a value by the values of its operands alone.
    Compute(Computation),
    /// `freeze`.
    Freeze(Input),
    /// `load`.
    Load {
        /// The width of what is loaded.
        width: Width,
        /// The address.
        place: Place,
    },
    /// `store`.
    Store {
        /// What is stored.
        value: Input,
        /// The address.
        place: Place,
    },
    /// `alloca`.
    Reserve {
        /// The size of the block in bytes.
        size: u64,
        /// Its alignment.
        align: Align,
    },
    /// `llvm.memcpy` or `llvm.memmove`.
    Copy(Copying),
    /// `llvm.memset`.
    Fill {
        /// Where the bytes go.
        to: Place,
        /// What each of them is.
        byte: Input,
        /// How many there are.
        size: Input,
    },
    /// A byte of output.
    Put(Input),
    /// The next byte of input.
    Get,
    /// `llvm.trap`.
    Trap,
    /// It has no meaning; no checked module has one.
    Break,
}

impl Operation {
    /// What it is about to do, where the slots have these values.
    pub fn action(&self, values: &[Value], memory: &Memory) -> Action
        ensures action { action_of memory.now result ≡ operation_action values.now memory.now self.now }
        ensures fits { IsFit memory.now result }
    {
        match self {
            Operation::Compute(computation) => give_or_break(computation.result(values)),
            Operation::Freeze(value) => freeze(value.width.bits(), value.value(values)),
            Operation::Load { width, place } => load(
                memory,
                width.bits(),
                place.align.bytes(),
                place.address.value(values),
            ),
            Operation::Store { value, place } => store(
                memory,
                byte_count(value.width.bits()),
                place.align.bytes(),
                value.value(values),
                place.address.value(values),
            ),
            Operation::Reserve { size, align } => Action::Reserve {
                size: *size,
                align: align.bytes(),
            },
            Operation::Copy(copying) => copying.action(values, memory),
            Operation::Fill { to, byte, size } => fill(
                memory,
                to.argument(values),
                byte.value(values),
                size.value(values),
            ),
            Operation::Put(value) => put(value.value(values)),
            Operation::Get => Action::Get,
            Operation::Trap => Action::Trap,
            Operation::Break => Action::Break,
        }
    }
}
