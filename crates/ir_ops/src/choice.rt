//! Which operation it is, by its first word.
ghost use Rattle.std.specs.Prelude.{◌≡◌};
ghost use Rattle.ir_ops.specs.Operations.{entry_ops, memory_firsts, memory_ops, op_firsts, plain_ops};
ghost use Rattle.ir_rules.specs.Reading.{Gives};
ghost use Rattle.ir_rules.specs.Rules.{has};

use crate::memory::{read_alloca, read_gep, read_load, read_store};
use ir_attributes::skip_attachments;
use ir_calls::{begins_call, read_call};
use ir_rules::End;
use ir_syntax::Op;
use ir_value_ops::{begins_value_op, read_value_op};
use ir_words::{Class, Cursor};
use std::alloc::Global;

/// Whether a token of this class begins an operation on memory.
fn begins_memory_op(class: Class) -> bool
    ensures { result ≡ has memory_firsts class }
{
    matches!(class, Class::Getelementptr | Class::Load | Class::Store)
}

/// Whether a token of this class begins an operation that may stand in any block.
pub fn begins_op(class: Class) -> bool
    ensures { result ≡ has op_firsts class }
{
    begins_value_op(class) | begins_memory_op(class) | begins_call(class)
}

/// Reads an operation on memory, and what metadata stands behind it.
#[tactic(auto, unfolding(crate::specs::Operations::memory_op_forms))]
fn read_memory_op<'t>(alloc: Global, rest: Cursor<'t>) -> Result<(Op, Cursor<'t>), End>
    ensures { Gives (λ x. x) result (memory_ops.read rest.entry) }
{
    match rest.first() {
        Class::Getelementptr => read_gep(alloc, rest),
        Class::Load => read_load(alloc, rest),
        _ => read_store(alloc, rest),
    }
}

/// Reads an operation that may stand in any block, and what metadata stands behind it; nothing is
/// kept of a call that is dropped.
///
/// # Errors
///
/// `Bad` at the first token with which no such operation goes on.
#[tactic(auto, unfolding(crate::specs::Operations::plain_op_forms))]
pub fn read_plain_op<'t>(alloc: Global, rest: Cursor<'t>) -> Result<(Option<Op>, Cursor<'t>), End>
    ensures { Gives (λ x. x) result (plain_ops.read rest.entry) }
{
    let class = rest.first();
    if begins_value_op(class) {
        let (op, rest) = read_value_op(alloc, rest)?;
        let rest = skip_attachments(rest)?;
        return Ok((Some(op), rest));
    }
    if begins_memory_op(class) {
        let (op, rest) = read_memory_op(alloc, rest)?;
        return Ok((Some(op), rest));
    }
    let (op, rest) = read_call(alloc, rest)?;
    let rest = skip_attachments(rest)?;
    Ok((op, rest))
}

/// Reads an operation of the first block, where `alloca` may stand too.
///
/// # Errors
///
/// `Bad` at the first token with which no such operation goes on.
#[tactic(auto, unfolding(crate::specs::Operations::entry_op_forms))]
pub fn read_entry_op<'t>(alloc: Global, rest: Cursor<'t>) -> Result<(Option<Op>, Cursor<'t>), End>
    ensures { Gives (λ x. x) result (entry_ops.read rest.entry) }
{
    match rest.first() {
        Class::Alloca => {
            let (op, rest) = read_alloca(alloc, rest)?;
            Ok((Some(op), rest))
        }
        _ => read_plain_op(alloc, rest),
    }
}
