//! Instructions that give a value by the values of their operands alone.
ghost use Rattle.std.specs.Prelude.{◌≡◌};
ghost use Rattle.ir_code.specs.Meant.{computed};
ghost use Rattle.ir_sem.specs.Instructions.{or_break};

use crate::application::Application;
use crate::pair::Pair;
use crate::steps::Steps;
use cg_num::{BinOp, Flags, Pred};
use ir_eval::{added, binary, cast, compared, selected};
use ir_sem::Value;
use ir_slots::{Input, Width};
use ir_syntax::CastOp;

/// An instruction that gives a value by the values of its operands alone.
#[derive(Drop)]
pub enum Computation {
    /// An operation on two numbers.
    Binary {
        /// Which one.
        op: BinOp,
        /// What it promises.
        flags: Flags,
        /// The operands.
        pair: Pair,
    },
    /// `icmp`.
    Compare {
        /// The condition.
        pred: Pred,
        /// The operands.
        pair: Pair,
    },
    /// `select`.
    Select {
        /// The condition.
        condition: Input,
        /// The value where it is true.
        then_value: Input,
        /// The value where it is false.
        else_value: Input,
    },
    /// A conversion.
    Cast {
        /// Which one.
        op: CastOp,
        /// The operand.
        value: Input,
        /// The width of the result.
        to: Width,
    },
    /// `getelementptr`.
    Element {
        /// The address.
        base: Input,
        /// The steps from it.
        steps: Steps,
    },
    /// A function of integers.
    Apply(Application),
}

impl Computation {
    /// What it gives, where the slots have these values; none is undefined behaviour.
    pub fn result(&self, values: &[Value]) -> Option<Value>
        ensures { or_break result ≡ computed values.now self.now }
    {
        match self {
            Computation::Binary { op, flags, pair } => binary(
                *op,
                *flags,
                pair.width.bits(),
                pair.left_value(values),
                pair.right_value(values),
            ),
            Computation::Compare { pred, pair } => Some(compared(
                *pred,
                pair.width.bits(),
                pair.left_value(values),
                pair.right_value(values),
            )),
            Computation::Select {
                condition,
                then_value,
                else_value,
            } => Some(selected(
                condition.value(values),
                then_value.value(values),
                else_value.value(values),
            )),
            Computation::Cast { op, value, to } => {
                let bits = value.width.bits();
                Some(cast(*op, bits, to.bits(), value.value(values)))
            }
            Computation::Element { base, steps } => {
                Some(added(base.value(values), steps.distance(values)))
            }
            Computation::Apply(application) => application.result(values),
        }
    }
}
