//! What stands behind a comma after an operation: an alignment, or metadata to its end.
ghost use Rattle.ir_ops.specs.Tails.{align_tail, aligned, alloca_tail, counted};
ghost use Rattle.ir_rules.specs.Reading.{Gives, GivesExactly};

use ir_attributes::{read_alignment, read_attachment, skip_attachments};
use ir_rules::End;
use ir_syntax::TypedLiteral;
use ir_values::read_typed_literal;
use ir_words::{Class, Cursor};
use std::alloc::Global;

/// How many elements are allocated, and at which alignment in bytes.
type Allocation = (Option<TypedLiteral>, Option<u64>);

/// Reads an alignment or metadata, and the metadata behind it.
#[tactic(auto, unfolding(crate::specs::Tails::aligned_forms))]
fn read_aligned<'t>(rest: Cursor<'t>) -> Result<(Option<u64>, Cursor<'t>), End>
    ensures { GivesExactly (λ x. x) result (aligned.read rest.entry) }
{
    match rest.first() {
        Class::Align => {
            let (alignment, rest) = read_alignment(rest)?;
            Ok((Some(alignment), skip_attachments(rest)?))
        }
        _ => {
            let rest = read_attachment(rest)?;
            Ok((None, skip_attachments(rest)?))
        }
    }
}

/// Reads an optional alignment, and metadata.
#[tactic(auto, unfolding(crate::specs::Tails::align_tail_forms))]
pub(crate) fn read_align_tail<'t>(rest: Cursor<'t>) -> Result<(Option<u64>, Cursor<'t>), End>
    ensures { GivesExactly (λ x. x) result (align_tail.read rest.entry) }
{
    match rest.first() {
        Class::Comma => read_aligned(rest.skip()),
        _ => Ok((None, rest)),
    }
}

/// Reads what stands behind the first comma of an `alloca`.
#[tactic(auto, unfolding(crate::specs::Tails::counted_forms))]
fn read_counted<'t>(alloc: Global, rest: Cursor<'t>) -> Result<(Allocation, Cursor<'t>), End>
    ensures { Gives (λ x. x) result (counted.read rest.entry) }
{
    match rest.first() {
        Class::Align | Class::Meta => {
            let (alignment, rest) = read_aligned(rest)?;
            Ok(((None, alignment), rest))
        }
        _ => {
            let (count, rest) = read_typed_literal(alloc, rest, 64)?;
            let (alignment, rest) = read_align_tail(rest)?;
            Ok(((Some(count), alignment), rest))
        }
    }
}

/// Reads an optional number of elements, an optional alignment, and metadata.
#[tactic(auto, unfolding(crate::specs::Tails::alloca_tail_forms))]
pub(crate) fn read_alloca_tail<'t>(
    alloc: Global,
    rest: Cursor<'t>,
) -> Result<(Allocation, Cursor<'t>), End>
    ensures { Gives (λ x. x) result (alloca_tail.read rest.entry) }
{
    match rest.first() {
        Class::Comma => read_counted(alloc, rest.skip()),
        _ => Ok(((None, None), rest)),
    }
}
