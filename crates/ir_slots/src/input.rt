//! Operands of a width.
ghost use Rattle.std.specs.Prelude.{◌≡◌, ◌++◌, OnOk};
ghost use Rattle.ir_eval.specs.Within.{IsWithin};
ghost use Rattle.ir_slots.specs.Sources.{input_value, input_values};

use crate::source::Source;
use crate::width::Width;
use ir_sem::Value;
use std::alloc::AllocError;
use std::marker::Model;

/// An operand: where its value comes from, and how many of its bits count.
#[derive(Clone, Copy)]
pub struct Input {
    /// How many bits count.
    pub width: Width,
    /// Where the value comes from.
    pub source: Source,
}

impl Input {
    /// Its value, where the slots have these.
    pub fn value(self, values: &[Value]) -> Value
        ensures value { result ≡ input_value values.now self }
        ensures within { IsWithin self.width result }
    {
        self.width.narrowed(self.source.value(values))
    }
}

/// Operands in order. Contracts see a list.
#[derive(Drop)]
pub struct Inputs {
    inputs: Vec<Input>,
}

impl Model for Inputs {
    ghost use Rattle.std.specs.Prelude.{List};
    ghost use Rattle.std.specs.Coded.{coded_list};
    ghost use Rattle.ir_slots.specs.declared.input.Input.{Input};
    ghost use Rattle.ir_slots.specs.contracts.input.Input as input;

    ghost Value = { List Input };

    ghost coded = { coded_list input.the_row.coded };

    ghost view = { λ i. i.inputs.items };
}

impl Inputs {
    /// These operands, in their order.
    pub fn from_vec(inputs: Vec<Input>) -> Inputs
        ensures { result ≡ inputs.items }
    {
        Inputs { inputs }
    }

    /// The operands in order.
    pub fn as_slice(&self) -> &[Input]
        ensures { result.now ≡ self.now }
    {
        self.inputs.as_slice()
    }

    /// Adds their values, where the slots have these.
    ///
    /// # Errors
    ///
    /// [`AllocError`].
    pub fn push_values(&self, values: &[Value], found: &mut Vec<Value>) -> Result<(), AllocError>
        ensures { OnOk result (found.new.items ≡ found.old.items ++ input_values values.now self.now) }
    {
        for input in &self.inputs {
            found.push(input.value(values))?;
        }
        Ok(())
    }
}
