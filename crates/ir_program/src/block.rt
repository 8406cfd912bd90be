//! Blocks prepared for running.
ghost use Rattle.std.specs.Prelude.{◌≡◌, IfOk};
ghost use Rattle.std.specs.List.{AllZip, flat_map};
ghost use Rattle.ir_loaded.specs.Pairs.{loaded};
ghost use Rattle.ir_program.specs.Programs.{IsBlockCode, IsInstrCode};
ghost use Rattle.ir_slots.specs.Results.{ArePhiSlots, Includes};
ghost use Rattle.ir_slots.specs.Slots.{slot_names, value_names};
ghost use Rattle.ir_walk.specs.Locals.{in_block, in_instr, in_phi};

use crate::instr::{InstrCode, instr_code};
use ir_flow::{Exit, Ways};
use ir_loaded::LoadedModule;
use ir_slots::SlotMap;
use ir_syntax::{Block, Instr, Phi};
use std::alloc::{AllocError, Global};

/// A block prepared for running.
#[derive(Drop)]
pub struct BlockCode<'a> {
    /// The block.
    pub block: &'a Block,
    /// The slots of its phis.
    pub phis: Vec<Option<usize>>,
    /// Its instructions between the phis and the terminator.
    pub instrs: Vec<InstrCode>,
    /// How it is left.
    pub exit: Exit,
}

/// The code of a block of a function with these slots and ways.
///
/// # Errors
///
/// [`AllocError`].
#[tactic(auto, using(ir_slots::proofs::ResultLemmas::block_has_phis, ir_slots::proofs::ResultLemmas::block_has_instrs))]
pub(crate) fn block_code<'a>(
    alloc: Global,
    l: &LoadedModule<'a>,
    slots: &SlotMap<'a>,
    ways: &Ways<'_, 'a>,
    block: &'a Block,
) -> Result<BlockCode<'a>, AllocError>
    requires same { ways.now ≡ (l.now, slots.now) }
    requires names { Includes (slot_names slots.now) (in_block value_names block.now) }
    ensures { IfOk result (IsBlockCode (loaded l.now) slots.now block.now) }
{
    let phis = phi_slots(alloc, slots, block.phis.as_slice())?;
    let instrs = instr_codes(alloc, l, slots, block.instrs.as_slice())?;
    let exit = ways.exit(alloc, &block.label, &block.term)?;
    Ok(BlockCode {
        block,
        phis,
        instrs,
        exit,
    })
}

/// The slots of phis.
fn phi_slots(
    alloc: Global,
    slots: &SlotMap<'_>,
    phis: &[Phi],
) -> Result<Vec<Option<usize>>, AllocError>
    requires { Includes (slot_names slots.now) (flat_map (in_phi value_names) phis.now) }
    ensures { IfOk result (λ found. ArePhiSlots (slot_names slots.now) phis.now found.items) }
{
    let mut found = Vec::new(alloc);
    for phi in phis {
        found.push(slots.slot(&phi.result))?;
    }
    Ok(found)
}

/// The code of instructions.
#[tactic(auto, using(crate::proofs::ProgramLemmas::next_zip, ir_slots::proofs::ResultLemmas::includes_item))]
fn instr_codes<'a>(
    alloc: Global,
    l: &LoadedModule<'a>,
    slots: &SlotMap<'a>,
    instrs: &'a [Instr],
) -> Result<Vec<InstrCode>, AllocError>
    requires { Includes (slot_names slots.now) (flat_map (in_instr value_names) instrs.now) }
    ensures { IfOk result (λ codes. AllZip (IsInstrCode (loaded l.now) (slot_names slots.now)) instrs.now codes.items) }
{
    let mut codes = Vec::new(alloc);
    for instr in instrs {
        codes.push(instr_code(alloc, l, slots, instr)?)?;
    }
    Ok(codes)
}
