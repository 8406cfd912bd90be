//! The predecessors of each block of a function (LangRef, "phi Instruction").
ghost use Rattle.std.specs.Prelude.{◌≡◌, ◌<◌, ◌++◌, ◌∷◌, [], ℕ, Some, get_or, IfOk, OnOk, if◌then◌else◌, length, nat_eq, replicate};
ghost use Rattle.ir_ident.specs.NameMaps.{value_of};
ghost use Rattle.ir_cfg.specs.Reached.{block_successors};
ghost use Rattle.ir_phis.specs.Predecessors.{edges_from, predecessors};

use ir_cfg::successors_of;
use ir_ident::NameMap;
use ir_syntax::Block;
use std::alloc::{AllocError, Global};
use std::marker::Model;

/// Places of blocks. Contracts see a list.
#[derive(Drop)]
pub(crate) struct Places {
    places: Vec<usize>,
}

impl Model for Places {
    ghost use Rattle.std.specs.Prelude.{List, ℕ};

    ghost Value = { List ℕ };

    ghost view = { λ p. p.places.items };
}

impl Places {
    /// No places.
    fn new(alloc: Global) -> Places
        ensures { result ≡ [] }
    {
        Places {
            places: Vec::new(alloc),
        }
    }

    /// Adds a place at the end.
    fn push(&mut self, place: usize) -> Result<(), AllocError>
        ensures { OnOk result (self.new ≡ self.old ++ place ∷ []) }
    {
        self.places.push(place)?;
        Ok(())
    }

    /// The places in order.
    fn as_slice(&self) -> &[usize]
        ensures { result.now ≡ self.now }
    {
        self.places.as_slice()
    }
}

/// The predecessors of each block in order, each as often as its terminator names the block.
pub(crate) fn predecessors(
    alloc: Global,
    places: &NameMap<'_, usize>,
    blocks: &[Block],
) -> Result<Vec<Places>, AllocError>
    ensures sized { IfOk result (λ all. length all.items ≡ length blocks.now) }
    ensures told { IfOk result (λ all. (place : ℕ) → place < length blocks.now → get_or all.items place [] ≡ predecessors (value_of places.now) blocks.now place) }
{
    let mut all = none_of_each(alloc, blocks.len())?;
    for from in 0..blocks.len() {
        push_edges(alloc, &mut all, places, &blocks[from], from)?;
    }
    Ok(all)
}

/// The predecessors of the block at a place.
pub(crate) fn predecessors_at(all: &[Places], place: usize) -> &[usize]
    requires { place < length all.now }
    ensures { result.now ≡ get_or all.now place [] }
{
    all[place].as_slice()
}

/// No predecessors of each of so many blocks.
fn none_of_each(alloc: Global, count: usize) -> Result<Vec<Places>, AllocError>
    ensures { IfOk result (λ all. all.items ≡ replicate count []) }
{
    let mut all = Vec::with_capacity(alloc, count)?;
    for done in 0..count {
        all.push(Places::new(alloc))?;
    }
    Ok(all)
}

/// Adds a block to the predecessors of each of its successors.
fn push_edges(
    alloc: Global,
    all: &mut Vec<Places>,
    places: &NameMap<'_, usize>,
    block: &Block,
    from: usize,
) -> Result<(), AllocError>
    ensures sized { OnOk result (length all.new.items ≡ length all.old.items) }
    ensures told { OnOk result ((place : ℕ) → place < length all.old.items → get_or all.new.items place []
        ≡ get_or all.old.items place [] ++ edges_from place from (block_successors (value_of places.now) (Some block.now))) }
{
    let successors = successors_of(alloc, places, &block.term)?;
    push_to_each(all, successors.as_slice(), from)
}

/// Adds a block to the predecessors of each of these.
fn push_to_each(all: &mut Vec<Places>, successors: &[usize], from: usize) -> Result<(), AllocError>
    ensures sized { OnOk result (length all.new.items ≡ length all.old.items) }
    ensures told { OnOk result ((place : ℕ) → place < length all.old.items → get_or all.new.items place []
        ≡ get_or all.old.items place [] ++ edges_from place from successors.now) }
{
    for to in successors {
        push_to(all, *to, from)?;
    }
    Ok(())
}

/// Adds a block to the predecessors of one.
#[tactic(auto, using(crate::proofs::EdgeLemmas::pushed))]
fn push_to(all: &mut Vec<Places>, to: usize, from: usize) -> Result<(), AllocError>
    ensures sized { OnOk result (length all.new.items ≡ length all.old.items) }
    ensures told { OnOk result ((place : ℕ) → place < length all.old.items → get_or all.new.items place []
        ≡ get_or all.old.items place [] ++ (if nat_eq to place then from ∷ [] else [])) }
{
    if to < all.len() {
        all[to].push(from)?;
    }
    Ok(())
}
