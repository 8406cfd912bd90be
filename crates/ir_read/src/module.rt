//! A text as a module.
ghost use Rattle.std.specs.Prelude.{◌≤◌, ℕ, IfErr, IfOk, List, length};
ghost use Rattle.ir_read.specs.Modules.{HasOneAnswer, IsFirstRefusal, Names, Reads};
ghost use Rattle.ir_read.specs.Refusals.{OrNoMemory};
ghost use Rattle.ir_syntax.specs.declared.refusal.Refusal.TheVariants.{NoMemory};

use crate::reading::read_entities;
use ir_entities::Entities;
use ir_names::{NamesEnd, resolve};
use ir_syntax::{Module, Refusal};
use std::alloc::Global;

/// The module of these items.
fn named_module(alloc: Global, found: Entities) -> Result<Module, Refusal>
    ensures { Names found result }
{
    match resolve(alloc, found) {
        Ok(module) => Ok(module),
        Err(NamesEnd::Name { line }) => Err(Refusal::Name { line }),
        Err(NamesEnd::NoMemory) => Err(Refusal::NoMemory),
    }
}

/// The module of a text of at most 16,777,216 bytes (LangRef, "Module Structure").
///
/// # Errors
///
/// The first of these: `Lex` where at some place no token begins; `Unsupported` or `Form` for the first bad
/// token, with which no module begins as the tokens before it do; `Name` with the least line of a name
/// that is used and not defined, or of a number that is not the next one (LangRef, "Identifiers").
/// `NoMemory` if memory ran out.
pub fn read_module(alloc: Global, bytes: &[u8]) -> Result<Module, Refusal>
    requires { length bytes.now ≤ 16777216 }
    ensures reads { IfOk result (Reads bytes.now) }
    ensures refused { IfErr result (OrNoMemory (IsFirstRefusal bytes.now)) }
{
    match read_entities(alloc, bytes) {
        Ok(found) => named_module(alloc, found),
        Err(refusal) => Err(refusal),
    }
}

/// A text has a module or a first refusal, and never both or two of them. That memory ran out is no refusal of a
/// text.
pub fn texts_have_one_answer()
    ensures one { (bytes : List ℕ) → HasOneAnswer bytes }
    ensures not_memory { (bytes : List ℕ) → IsFirstRefusal bytes NoMemory → ⊥ }
{}
