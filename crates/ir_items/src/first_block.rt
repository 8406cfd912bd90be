//! The first block of a function, the one that may allocate (LangRef, "alloca Instruction").
ghost use Rattle.std.specs.Prelude.{◌≡◌, true, IfOk};
ghost use Rattle.ir_body.specs.Blocks.{blocks};
ghost use Rattle.ir_items.specs.FirstBlocks.{TellsFirstBlock, is_bad, stops_in_block};

use crate::items::{begins_entity, read_entity};
use ir_body::read_block;
use ir_functions::read_opening;
use ir_rules::End;
use ir_words::Cursor;
use std::alloc::{AllocError, Global};

/// Whether a definition is read up to its first block here, and then no first block.
fn stops_in_block(alloc: Global, rest: Cursor<'_>) -> Result<bool, AllocError>
    ensures { IfOk result (λ stops. stops ≡ stops_in_block rest.entry) }
{
    match read_opening(alloc, rest) {
        Ok((opening, rest)) => {
            drop(opening);
            begins_no_block(alloc, rest)
        }
        Err(End::Bad(_)) => Ok(false),
        Err(End::NoMemory) => Err(AllocError),
    }
}

/// Whether no first block is read here.
fn begins_no_block(alloc: Global, rest: Cursor<'_>) -> Result<bool, AllocError>
    ensures { IfOk result (λ stops. stops ≡ is_bad ((blocks true).read rest.entry)) }
{
    match read_block(alloc, rest, true) {
        Ok((block, _rest)) => {
            drop(block);
            Ok(false)
        }
        Err(End::Bad(_)) => Ok(true),
        Err(End::NoMemory) => Err(AllocError),
    }
}

/// Whether the first bad token of all, if it is `alloca`, stands in the first block of a function.
/// The readers tell no more than the token, so the items before it are read again.
///
/// # Errors
///
/// [`AllocError`].
pub fn is_in_first_block(alloc: Global, rest: Cursor<'_>) -> Result<bool, AllocError>
    ensures { IfOk result (TellsFirstBlock rest.entry) }
{
    let mut rest = rest;
    while begins_entity(rest.first()) {
        rest = match read_entity(alloc, rest.copy()) {
            Ok((found, after)) => {
                drop(found);
                after
            }
            Err(End::Bad(_)) => return stops_in_block(alloc, rest),
            Err(End::NoMemory) => return Err(AllocError),
        };
    }
    Ok(false)
}
