//! Which operation on values it is, by its first word.
ghost use Rattle.std.specs.Prelude.{◌≡◌};
ghost use Rattle.ir_value_ops.specs.ValueOps.{other_value_firsts, other_value_ops, value_firsts, value_ops};
ghost use Rattle.ir_rules.specs.Reading.{Gives};
ghost use Rattle.ir_rules.specs.Rules.{has};

use crate::binary::{
    begins_bitwise, begins_exact, begins_wrapping, read_bitwise, read_exact, read_wrapping,
};
use crate::casts::{begins_cast, read_cast};
use crate::predicate::{read_freeze, read_icmp, read_select};
use ir_rules::End;
use ir_syntax::Op;
use ir_words::{Class, Cursor};
use std::alloc::Global;

/// Whether a token of this class begins an operation on values other than arithmetic.
fn begins_other_value_op(class: Class) -> bool
    ensures { result ≡ has other_value_firsts class }
{
    match class {
        Class::Icmp | Class::Select | Class::Freeze => true,
        _ => begins_cast(class),
    }
}

/// Whether a token of this class begins an operation on values.
pub fn begins_value_op(class: Class) -> bool
    ensures { result ≡ has value_firsts class }
{
    begins_wrapping(class)
        | begins_exact(class)
        | begins_bitwise(class)
        | begins_other_value_op(class)
}

/// Reads an operation on values other than arithmetic.
fn read_other_value_op<'t>(alloc: Global, rest: Cursor<'t>) -> Result<(Op, Cursor<'t>), End>
    ensures { Gives (λ x. x) result (other_value_ops.read rest.entry) }
{
    match rest.first() {
        Class::Icmp => read_icmp(alloc, rest),
        Class::Select => read_select(alloc, rest),
        Class::Trunc
        | Class::Zext
        | Class::Sext
        | Class::Ptrtoint
        | Class::Inttoptr
        | Class::Bitcast => read_cast(alloc, rest),
        _ => read_freeze(alloc, rest),
    }
}

/// Reads an operation on values.
///
/// # Errors
///
/// `Bad` at the first token with which none goes on, `NoMemory` if memory runs out.
#[tactic(auto, unfolding(crate::specs::ValueOps::value_op_forms))]
pub fn read_value_op<'t>(alloc: Global, rest: Cursor<'t>) -> Result<(Op, Cursor<'t>), End>
    ensures { Gives (λ x. x) result (value_ops.read rest.entry) }
{
    let class = rest.first();
    if begins_wrapping(class) {
        read_wrapping(alloc, rest)
    } else if begins_exact(class) {
        read_exact(alloc, rest)
    } else if begins_bitwise(class) {
        read_bitwise(alloc, rest)
    } else {
        read_other_value_op(alloc, rest)
    }
}
