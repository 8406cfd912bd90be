//! The names of a whole module.
ghost use Rattle.std.specs.Prelude.{◌≡◌, [], IfErr, IfOk, OnOk};
ghost use Rattle.ir_names.specs.Answers.{IsFirstFault};
ghost use Rattle.ir_names.specs.Faults.{fault_lines};
ghost use Rattle.ir_numbers.specs.Modules.{module_of};
ghost use Rattle.ir_numbers.specs.Numbered.{numbered_entities};

use crate::end::NamesEnd;
use crate::faults::first_fault;
use ir_entities::Entities;
use ir_numbers::{module_from, number_entities};
use ir_syntax::Module;
use std::alloc::Global;

/// The module of these items, in the order of the text, each with its place among all of them, and with a number for each
/// item of a function that has no name (LangRef, "Identifiers").
///
/// # Errors
///
/// [`NamesEnd::Name`] with the least line of a name that is used and not defined, or of a number that is
/// written and not the next one; [`NamesEnd::NoMemory`].
#[tactic(auto, using(crate::proofs::Lines::none_is_empty))]
pub fn resolve(alloc: Global, entities: Entities) -> Result<Module, NamesEnd>
    ensures module { IfOk result (λ m. m ≡ module_of (numbered_entities entities)) }
    ensures none { OnOk result (fault_lines (numbered_entities entities) ≡ []) }
    ensures fault { IfErr result (λ e. IsFirstFault entities e) }
{
    let Ok(numbered) = number_entities(alloc, entities) else {
        return Err(NamesEnd::NoMemory);
    };
    match first_fault(alloc, numbered.as_slice()) {
        Ok(None) => {}
        Ok(Some(line)) => return Err(NamesEnd::Name { line }),
        Err(_) => return Err(NamesEnd::NoMemory),
    }
    match module_from(alloc, numbered) {
        Ok(module) => Ok(module),
        Err(_) => Err(NamesEnd::NoMemory),
    }
}
