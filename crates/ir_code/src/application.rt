//! Functions of integers with their arguments (LangRef, "Intrinsic Functions").
ghost use Rattle.std.specs.Prelude.{◌≡◌};
ghost use Rattle.ir_code.specs.Meant.{application_action, taken_at};
ghost use Rattle.ir_eval.specs.Within.{IsWithin};
ghost use Rattle.ir_sem.specs.Instructions.{or_break};

use cg_num::IntegerFunction;
use ir_eval::applied;
use ir_sem::Value;
use ir_slots::{Input, Width};

/// A function of integers with its arguments; one that it does not take is 0.
#[derive(Clone, Copy)]
pub struct Application {
    /// The function.
    pub function: IntegerFunction,
    /// The width of its arguments.
    pub width: Width,
    /// The first argument.
    pub first: Input,
    /// The second argument.
    pub second: Option<Input>,
    /// The third argument.
    pub third: Option<Input>,
}

impl Application {
    /// What it gives, where the slots have these values.
    pub(crate) fn result(self, values: &[Value]) -> Option<Value>
        ensures { or_break result ≡ application_action values.now self }
    {
        applied(
            self.function,
            self.width.bits(),
            self.width.narrowed(self.first.value(values)),
            taken(self.width, self.second, values),
            taken(self.width, self.third, values),
        )
    }
}

/// The value of an argument at a width; 0 where it is left out.
fn taken(width: Width, input: Option<Input>, values: &[Value]) -> Value
    ensures value { result ≡ taken_at values.now width input }
    ensures within { IsWithin width result }
{
    match input {
        Some(input) => width.narrowed(input.value(values)),
        None => Value::Number(0),
    }
}
