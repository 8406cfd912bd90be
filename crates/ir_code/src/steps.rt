//! Steps over the elements and the fields of a type (LangRef, "'getelementptr' Instruction").
ghost use Rattle.std.specs.Prelude.{◌≡◌};
ghost use Rattle.ir_code.specs.Meant.{step_distance, steps_distance};
ghost use Rattle.ir_sem.specs.declared.value.Value.TheVariants.{Number};

use ir_eval::{added, scaled};
use ir_sem::Value;
use ir_slots::Input;
use std::marker::Model;

/// A step from an address to another, in bytes modulo 2^64.
#[derive(Clone, Copy)]
pub enum Step {
    /// Always so far.
    Fixed(u64),
    /// As many strides as an index says by its sign.
    Strides {
        /// The bytes of a stride.
        stride: u64,
        /// The index.
        index: Input,
    },
}

impl Step {
    /// How far it goes, where the slots have these values.
    pub fn distance(self, values: &[Value]) -> Value
        ensures { result ≡ step_distance values.now self }
    {
        match self {
            Step::Fixed(bytes) => Value::Number(bytes),
            Step::Strides { stride, index } => {
                scaled(stride, index.width.bits(), index.value(values))
            }
        }
    }
}

/// Steps in order. Contracts see a list.
#[derive(Drop)]
pub struct Steps {
    steps: Vec<Step>,
}

impl Model for Steps {
    ghost use Rattle.std.specs.Prelude.{List};
    ghost use Rattle.std.specs.Coded.{coded_list};
    ghost use Rattle.ir_code.specs.declared.steps.Step.{Step};
    ghost use Rattle.ir_code.specs.contracts.steps.Step as step;

    ghost Value = { List Step };

    ghost coded = { coded_list step.the_row.coded };

    ghost view = { λ s. s.steps.items };
}

impl Steps {
    /// These steps, in their order.
    pub fn from_vec(steps: Vec<Step>) -> Steps
        ensures { result ≡ steps.items }
    {
        Steps { steps }
    }

    /// The steps in order.
    pub fn as_slice(&self) -> &[Step]
        ensures { result.now ≡ self.now }
    {
        self.steps.as_slice()
    }

    /// How far they go, where the slots have these values.
    pub fn distance(&self, values: &[Value]) -> Value
        ensures { result ≡ steps_distance values.now self.now (Number 0) }
    {
        distance_of(self.steps.as_slice(), values)
    }
}

fn distance_of(steps: &[Step], values: &[Value]) -> Value
    ensures { result ≡ steps_distance values.now steps.now (Number 0) }
{
    let mut distance = Value::Number(0);
    let mut left = steps.len();
    while left > 0 {
        left -= 1;
        distance = added(steps[left].distance(values), distance);
    }
    distance
}
