//! Calls prepared for running (LangRef, "'call' Instruction").
ghost use Rattle.std.specs.Prelude.{IfOk};
ghost use Rattle.ir_code.specs.Prepared.{IsCode, arguments_in};
ghost use Rattle.ir_loaded.specs.Pairs.{loaded};
ghost use Rattle.ir_sem.specs.Instructions.{callee, callee_action};
ghost use Rattle.ir_slots.specs.Slots.{slot_names};

use crate::code::Code;
use crate::host::declared;
use crate::operands::arguments;
use crate::operation::Operation;
use ir_ident::Name;
use ir_loaded::LoadedModule;
use ir_naming::bytes_of;
use ir_slots::SlotMap;
use ir_syntax::Arg;
use std::alloc::{AllocError, Global};

/// A call of the function of a name.
///
/// # Errors
///
/// [`AllocError`].
pub(crate) fn call<'a>(
    alloc: Global,
    l: &LoadedModule<'a>,
    slots: &SlotMap<'a>,
    name: &Name,
    args: &'a [Arg],
) -> Result<Code, AllocError>
    ensures { IfOk result (IsCode (loaded l.now) (λ values blocks. callee_action blocks (callee (loaded l.now) name.now)
        (arguments_in (loaded l.now) (slot_names slots.now) values args.now))) }
{
    let Some(place) = l.ends().called_function(name) else {
        return Ok(Code::Plain(Operation::Break));
    };
    match l.module().functions.as_slice().get(place) {
        Some(function) if function.blocks.is_some() => Ok(Code::Enter {
            function: place,
            arguments: arguments(alloc, l, slots, args)?,
        }),
        Some(function) => Ok(Code::Plain(declared(l, slots, bytes_of(&function.name), args))),
        None => Ok(Code::Plain(Operation::Break)),
    }
}
