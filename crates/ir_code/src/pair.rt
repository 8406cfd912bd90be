//! Two operands.
ghost use Rattle.std.specs.Prelude.{◌≡◌};
ghost use Rattle.ir_eval.specs.Within.{IsWithin};
ghost use Rattle.ir_slots.specs.Sources.{source_at};

use ir_sem::Value;
use ir_slots::{Source, Width};

/// Two operands of one width.
#[derive(Clone, Copy)]
pub struct Pair {
    /// How many of their bits count.
    pub width: Width,
    /// Where the first value comes from.
    pub left: Source,
    /// Where the second value comes from.
    pub right: Source,
}

impl Pair {
    /// The first value, where the slots have these.
    pub(crate) fn left_value(self, values: &[Value]) -> Value
        ensures value { result ≡ source_at values.now self.width self.left }
        ensures within { IsWithin self.width result }
    {
        self.width.narrowed(self.left.value(values))
    }

    /// The second value, where the slots have these.
    pub(crate) fn right_value(self, values: &[Value]) -> Value
        ensures value { result ≡ source_at values.now self.width self.right }
        ensures within { IsWithin self.width result }
    {
        self.width.narrowed(self.right.value(values))
    }
}
