//! Indices behind an address (LangRef, "'getelementptr' Instruction").
ghost use Rattle.std.specs.Prelude.{◌≡◌};
ghost use Rattle.ir_attributes.specs.Items.{items};
ghost use Rattle.ir_rules.specs.Reading.{Gives};
ghost use Rattle.ir_values.specs.Values.{typed_operands};

use ir_attributes::read_items;
use ir_rules::{Element, End};
use ir_syntax::TypedOperand;
use ir_types::begins_type;
use ir_values::read_typed_operand;
use ir_words::{Class, Cursor};
use std::alloc::Global;

/// The reader of an index.
#[derive(Drop)]
struct IndexReader {
    alloc: Global,
}

impl Element for IndexReader {
    type Tree = TypedOperand;

    ghost rule = { λ _. typed_operands };

    ghost takes_memory = { Unit {0} };

    fn begins(&self, class: Class) -> bool {
        begins_type(class)
    }

    fn read<'t>(&self, rest: Cursor<'t>) -> Result<(TypedOperand, Cursor<'t>), End> {
        read_typed_operand(self.alloc, rest)
    }
}

/// Reads indices, and metadata to its end.
#[tactic(auto, using(ir_values::proofs::ValueLaws::typed_operands_law))]
pub(crate) fn read_indices<'t>(
    alloc: Global,
    rest: Cursor<'t>,
) -> Result<(Vec<TypedOperand>, Cursor<'t>), End>
    ensures { Gives (λ x. (x.0.items, x.1)) result ((items typed_operands).read rest.entry) }
{
    read_items(alloc, &IndexReader { alloc }, rest)
}
