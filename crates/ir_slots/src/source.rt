//! Where the value of an operand comes from.
ghost use Rattle.std.specs.Prelude.{◌≡◌};
ghost use Rattle.ir_slots.specs.Sources.{source_value};

use ir_sem::Value;

/// A slot by its place, counted from 0, or a constant.
#[derive(Clone, Copy)]
pub enum Source {
    /// What is in a slot.
    Slot(usize),
    /// Always this value.
    Constant(Value),
}

impl Source {
    /// Its value, where the slots have these.
    pub fn value(self, values: &[Value]) -> Value
        ensures { result ≡ source_value values.now self }
    {
        match self {
            Source::Slot(slot) => match values.get(slot) {
                Some(value) => *value,
                None => Value::Poison,
            },
            Source::Constant(value) => value,
        }
    }
}
