//! Instructions prepared for running.
ghost use Rattle.std.specs.Prelude.{IfOk};
ghost use Rattle.ir_loaded.specs.Pairs.{loaded};
ghost use Rattle.ir_program.specs.Programs.{IsInstrCode};
ghost use Rattle.ir_slots.specs.Results.{Includes, IsSlot};
ghost use Rattle.ir_slots.specs.Slots.{slot_names, value_names};
ghost use Rattle.ir_walk.specs.Locals.{in_instr};

use ir_code::{Code, code_of};
use ir_loaded::LoadedModule;
use ir_slots::SlotMap;
use ir_syntax::Instr;
use std::alloc::{AllocError, Global};

/// An instruction prepared for running.
#[derive(Drop)]
pub struct InstrCode {
    /// The slot of its result, counted from 0; none where it names no result.
    pub result: Option<usize>,
    /// What it does.
    pub code: Code,
}

/// The code of an instruction of a function with these slots.
///
/// # Errors
///
/// [`AllocError`].
pub(crate) fn instr_code<'a>(
    alloc: Global,
    l: &LoadedModule<'a>,
    slots: &SlotMap<'a>,
    instr: &'a Instr,
) -> Result<InstrCode, AllocError>
    requires { Includes (slot_names slots.now) (in_instr value_names instr.now) }
    ensures { IfOk result (IsInstrCode (loaded l.now) (slot_names slots.now) instr.now) }
{
    let result = result_slot(slots, instr);
    let code = code_of(alloc, l, slots, &instr.op)?;
    Ok(InstrCode { result, code })
}

/// The slot of the result of an instruction.
#[tactic(auto, using(ir_slots::proofs::ResultLemmas::no_result))]
fn result_slot(slots: &SlotMap<'_>, instr: &Instr) -> Option<usize>
    requires { Includes (slot_names slots.now) (in_instr value_names instr.now) }
    ensures { IsSlot (slot_names slots.now) instr.now.result result }
{
    match &instr.result {
        Some(name) => slots.slot(name),
        None => None,
    }
}
