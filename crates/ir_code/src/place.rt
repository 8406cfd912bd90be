//! Operands that are addresses.
ghost use Rattle.std.specs.Prelude.{◌≡◌, ◌<◌};
ghost use Rattle.ir_code.specs.Meant.{place_argument};

use crate::align::Align;
use ir_sem::{Argument, Value};
use ir_slots::Input;

/// An operand that is an address, and the alignment that the address is promised to have.
#[derive(Clone, Copy)]
pub struct Place {
    /// The address.
    pub address: Input,
    /// Its alignment.
    pub align: Align,
}

impl Place {
    /// The address and its alignment, where the slots have these values.
    pub fn argument(self, values: &[Value]) -> Argument
        ensures value { result ≡ place_argument values.now self }
        ensures aligned { 0 < result.align }
    {
        Argument {
            value: self.address.value(values),
            align: self.align.bytes(),
        }
    }
}
