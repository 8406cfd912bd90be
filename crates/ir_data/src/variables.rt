//! The blocks of variables (LangRef, "Global Variables").
ghost use Rattle.std.specs.Prelude.{◌≡◌, true, IfOk, OnOk, MatchResult};
ghost use Rattle.ir_data.specs.Placeable.{IsCause};
ghost use Rattle.ir_loaded.specs.Pairs.{loaded};
ghost use Rattle.ir_mem.specs.Placing.{placed};
ghost use Rattle.ir_sem.specs.Globals.{can_have, fitted, global_block, global_blocks, initial_bytes, is_placeable, maybe_bytes};

use crate::bytes::push_zeros;
use crate::init::push_init;
use ir_loaded::LoadedModule;
use ir_mem::{Memory, PlaceEnd};
use ir_syntax::Global as Variable;
use std::alloc::{AllocError, Global};

/// The bytes of a variable's initialiser; one that is declared has none.
fn maybe_bytes<'a>(
    alloc: Global,
    l: &LoadedModule<'a>,
    variable: &'a Variable,
) -> Result<Vec<u8>, AllocError>
    ensures { IfOk result (λ bytes. bytes.items ≡ maybe_bytes (loaded l.now) variable.now.ty variable.now.init) }
{
    let mut bytes = Vec::new(alloc);
    if let Some(init) = &variable.init {
        push_init(alloc, l, &variable.ty, init.tree(), &mut bytes)?;
    }
    Ok(bytes)
}

/// Exactly so many bytes.
fn fit(size: u64, bytes: &mut Vec<u8>) -> Result<(), AllocError>
    ensures { OnOk result (bytes.new.items ≡ fitted size bytes.old.items) }
{
    push_zeros(size.saturating_sub(bytes.len() as u64), bytes)?;
    bytes.truncate(size as usize);
    Ok(())
}

/// The bytes that a variable begins with: as many as its type has.
fn initial_bytes<'a>(
    alloc: Global,
    l: &LoadedModule<'a>,
    variable: &'a Variable,
) -> Result<Vec<u8>, AllocError>
    ensures { IfOk result (λ bytes. bytes.items ≡ initial_bytes (loaded l.now) variable.now) }
{
    let mut bytes = maybe_bytes(alloc, l, variable)?;
    fit(l.layout(variable.ty.tree()).size, &mut bytes)?;
    Ok(bytes)
}

/// Places a variable at an address, if its block can have that.
fn place<'a>(
    alloc: Global,
    l: &LoadedModule<'a>,
    variable: &'a Variable,
    base: u64,
    memory: &mut Memory,
) -> Result<(), PlaceEnd>
    ensures cause { MatchResult result
        (λ _. can_have memory.old (loaded l.now) variable.now base ≡ true)
        (IsCause (can_have memory.old (loaded l.now) variable.now base)) }
    ensures ok { OnOk result (memory.new ≡ placed (global_block (loaded l.now) variable.now base) memory.old) }
{
    let Ok(bytes) = initial_bytes(alloc, l, variable) else {
        return Err(PlaceEnd::NoMemory);
    };
    memory.place_bytes(
        base,
        l.align_or(&variable.ty, variable.align),
        bytes,
        !variable.constant,
    )
}

/// The memory that a run begins with: each variable that is defined is a block at its address, with its initial bytes.
///
/// # Errors
///
/// [`PlaceEnd::Taken`] where a block cannot have its address behind those before it, and [`PlaceEnd::NoMemory`].
pub fn first_memory<'a>(alloc: Global, l: &LoadedModule<'a>) -> Result<Memory, PlaceEnd>
    ensures cause { MatchResult result
        (λ _. is_placeable (loaded l.now) ≡ true)
        (IsCause (is_placeable (loaded l.now))) }
    ensures ok { IfOk result (λ memory. memory ≡ global_blocks (loaded l.now)) }
{
    let mut memory = Memory::new(alloc);
    let mut bases = l.given();
    for variable in l.module().globals.as_slice() {
        if variable.init.is_some() {
            match bases {
                [base, rest @ ..] => {
                    place(alloc, l, variable, *base, &mut memory)?;
                    bases = rest;
                }
                [] => return Ok(memory),
            }
        }
    }
    Ok(memory)
}
