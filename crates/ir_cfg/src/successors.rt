//! The successors of a block (LangRef, "Terminator Instructions").
ghost use Rattle.std.specs.Prelude.{◌≡◌, ◌++◌, [], IfOk, OnOk, slice_get};
ghost use Rattle.std.specs.List.{flat_map};
ghost use Rattle.ir_ident.specs.NameMaps.{value_of};
ghost use Rattle.ir_ident.specs.declared.name.NameUse.{NameUse};
ghost use Rattle.ir_cfg.specs.Reached.{block_successors, label_in, label_successors, term_successors};

use ir_ident::{NameMap, NameUse};
use ir_syntax::{Block, Operand, Term, TyText};
use ir_walk::{Visitor, Walk};
use std::alloc::{AllocError, Global};
use std::marker::Model;

/// A label where a terminator names it. Contracts see the use of its name.
#[derive(Drop)]
struct Target<'a> {
    label: &'a NameUse,
}

impl<'a> Model for Target<'a> {
    ghost use Rattle.ir_ident.specs.declared.name.NameUse.{NameUse};
    ghost use Rattle.ir_ident.specs.contracts.name.NameUse as name_use;

    ghost Value = { NameUse };

    ghost coded = { name_use.the_row.coded };

    ghost view = { λ t. t.label.now };
}

/// The labels that a walk found, in order.
#[derive(Drop)]
struct Targets<'a> {
    targets: Vec<Target<'a>>,
}

impl<'a> Targets<'a> {
    /// No labels.
    fn new(alloc: Global) -> Targets<'a>
        ensures { result.targets.items ≡ [] }
    {
        Targets {
            targets: Vec::new(alloc),
        }
    }
}

impl<'a> Visitor<'a> for Targets<'a> {
    ghost Found = { NameUse };

    ghost of_part = { label_in };

    ghost found = { λ t. t.targets.items };

    fn ty(&mut self, _ty: &'a TyText) -> Result<(), AllocError> {
        Ok(())
    }

    fn operand(&mut self, _operand: &'a Operand) -> Result<(), AllocError> {
        Ok(())
    }

    fn callee(&mut self, _callee: &'a NameUse) -> Result<(), AllocError> {
        Ok(())
    }

    fn label(&mut self, label: &'a NameUse) -> Result<(), AllocError> {
        self.targets.push(Target { label })?;
        Ok(())
    }
}

/// The places that the block at a place leads to.
pub(crate) fn successors_at(
    alloc: Global,
    places: &NameMap<'_, usize>,
    blocks: &[Block],
    place: usize,
) -> Result<Vec<usize>, AllocError>
    ensures { IfOk result (λ successors. successors.items ≡ block_successors (value_of places.now) (slice_get blocks.now place)) }
{
    match blocks.get(place) {
        Some(block) => successors_of(alloc, places, &block.term),
        None => Ok(Vec::new(alloc)),
    }
}

/// The places that a terminator leads to, in order, where `places` has those of labels; a label that it has not is left out.
///
/// # Errors
///
/// [`AllocError`].
pub fn successors_of(
    alloc: Global,
    places: &NameMap<'_, usize>,
    term: &Term,
) -> Result<Vec<usize>, AllocError>
    ensures { IfOk result (λ successors. successors.items ≡ term_successors (value_of places.now) term.now) }
{
    let mut found = Targets::new(alloc);
    term.walk(&mut found)?;
    places_of(alloc, places, found.targets.as_slice())
}

/// The places of labels, in order; a label that no block has is left out.
fn places_of(
    alloc: Global,
    places: &NameMap<'_, usize>,
    targets: &[Target<'_>],
) -> Result<Vec<usize>, AllocError>
    ensures { IfOk result (λ successors. successors.items ≡ flat_map (label_successors (value_of places.now)) targets.now) }
{
    let mut successors = Vec::new(alloc);
    for target in targets {
        push_place(&mut successors, places, target.label)?;
    }
    Ok(successors)
}

/// Adds the place of a label, where `places` has it.
///
/// # Errors
///
/// [`AllocError`].
pub fn push_place(
    found: &mut Vec<usize>,
    places: &NameMap<'_, usize>,
    label: &NameUse,
) -> Result<(), AllocError>
    ensures { OnOk result (found.new.items ≡ found.old.items ++ label_successors (value_of places.now) label.now) }
{
    if let Some(place) = places.get(&label.name) {
        found.push(place)?;
    }
    Ok(())
}
