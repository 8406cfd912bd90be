//! Functions prepared for running.
ghost use Rattle.std.specs.Prelude.{◌≡◌, IfOk};
ghost use Rattle.std.specs.List.{AllZip};
ghost use Rattle.ir_loaded.specs.Pairs.{loaded};
ghost use Rattle.ir_program.specs.Programs.{AreFunctions, IsBlockCode, IsFunctionCode};
ghost use Rattle.ir_sem.specs.Configs.{blocks_of};

use crate::block::{BlockCode, block_code};
use ir_flow::Ways;
use ir_loaded::LoadedModule;
use ir_slots::SlotMap;
use ir_syntax::Function;
use std::alloc::{AllocError, Global};

/// A function prepared for running.
#[derive(Drop)]
pub struct FunctionCode<'a> {
    /// The function.
    pub function: &'a Function,
    /// How many slots its values have.
    pub slots: usize,
    /// Its blocks in order; one that is declared has none.
    pub blocks: Vec<BlockCode<'a>>,
}

/// The code of each function of a module, in order.
///
/// # Errors
///
/// [`AllocError`].
#[tactic(auto, using(crate::proofs::ProgramLemmas::next_zip))]
pub fn functions_of<'a>(
    alloc: Global,
    l: &LoadedModule<'a>,
) -> Result<Vec<FunctionCode<'a>>, AllocError>
    ensures { IfOk result (λ codes. AreFunctions (loaded l.now) codes.items) }
{
    let mut codes = Vec::new(alloc);
    for function in l.module().functions.as_slice() {
        codes.push(function_code(alloc, l, function)?)?;
    }
    Ok(codes)
}

fn function_code<'a>(
    alloc: Global,
    l: &LoadedModule<'a>,
    function: &'a Function,
) -> Result<FunctionCode<'a>, AllocError>
    ensures { IfOk result (IsFunctionCode (loaded l.now) function.now) }
{
    let slots = SlotMap::new(alloc, function)?;
    let blocks = block_codes(alloc, l, &slots)?;
    Ok(FunctionCode {
        function,
        slots: slots.count(),
        blocks,
    })
}

/// The code of the blocks of a function with these slots.
#[tactic(auto, using(crate::proofs::ProgramLemmas::next_zip, ir_slots::proofs::ResultLemmas::body_includes))]
fn block_codes<'a>(
    alloc: Global,
    l: &LoadedModule<'a>,
    slots: &SlotMap<'a>,
) -> Result<Vec<BlockCode<'a>>, AllocError>
    ensures { IfOk result (λ codes. AllZip (IsBlockCode (loaded l.now) slots.now) (blocks_of slots.now) codes.items) }
{
    let ways = Ways::new(alloc, l, slots)?;
    let mut codes = Vec::new(alloc);
    for block in ways.blocks() {
        codes.push(block_code(alloc, l, slots, &ways, block)?)?;
    }
    Ok(codes)
}
