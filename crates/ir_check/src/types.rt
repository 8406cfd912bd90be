//! The types that a checked module is about.
ghost use Rattle.std.specs.Prelude.{◌≡◌, IfOk};
ghost use Rattle.ir_check.specs.Checks.{IsCheckedFrom};
ghost use Rattle.ir_mentions.specs.Mentions.{mentions};
ghost use Rattle.ir_plan.specs.Planned.{planned, planned_types};
ghost use Rattle.ir_syntax.specs.declared.module.Module.{Module};

use crate::checked::Checked;
use ir_plan::types_plan;
use std::alloc::{AllocError, Global};
use ty_core::{PlanEnd, TyPlan};

/// The types that a checked module is about: where a function is defined two integers and the pointer, the types of defined
/// variables, and those that defined functions write outside of constant addresses, each as often as it is written. They
/// are those of the module that was checked, in the blocks that some path reaches and with the names in them replaced.
///
/// # Errors
///
/// [`AllocError`].
pub fn types_of(alloc: Global, m: &Checked) -> Result<TyPlan, AllocError>
    ensures plan { IfOk result (λ plan. plan ≡ planned_types m.now) }
    ensures source { IfOk result (λ plan. (source : Module) → IsCheckedFrom source m.now → plan ≡ planned source.types (mentions source)) }
{
    match types_plan(alloc, m.module()) {
        Ok(plan) => Ok(plan),
        Err(PlanEnd::NoMemory) => Err(AllocError),
        Err(PlanEnd::TooMany { .. }) => unreachable!(),
    }
}
