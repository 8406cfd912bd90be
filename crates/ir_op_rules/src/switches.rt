//! The values of a `switch` (LangRef, "'switch' Instruction").
ghost use Rattle.std.specs.Prelude.{◌≡◌, ◌≤◌, IfOk, IfSome};
ghost use Rattle.ir_op_rules.specs.Switches.{all_differ, case_values, cases_differ, differ_at};

use indexmap::IndexSet;
use ir_syntax::{Case, Term};
use std::alloc::{AllocError, Global};

/// Whether no two values of a `switch` are one number of its type. The widest integers that the grammar has are those of 64
/// bits.
///
/// # Errors
///
/// [`AllocError`].
pub(crate) fn cases_differ(alloc: Global, term: &Term) -> Result<bool, AllocError>
    ensures { IfOk result (λ differ. differ ≡ cases_differ term.now) }
{
    match term {
        Term::Switch { ty, cases, .. } => differ_at(alloc, ty.width(), cases.as_slice()),
        Term::ReturnVoid { .. }
        | Term::Ret { .. }
        | Term::Br { .. }
        | Term::CondBr { .. }
        | Term::Unreachable { .. } => Ok(true),
    }
}

/// The same of cases of a width, if there is one.
fn differ_at(alloc: Global, bits: Option<u8>, cases: &[Case]) -> Result<bool, AllocError>
    requires { IfSome bits (λ bits. bits ≤ 64) }
    ensures { IfOk result (λ differ. differ ≡ differ_at bits cases.now) }
{
    match bits {
        Some(bits) => all_differ(alloc, bits, cases),
        None => Ok(false),
    }
}

fn all_differ(alloc: Global, bits: u8, cases: &[Case]) -> Result<bool, AllocError>
    requires { bits ≤ 64 }
    ensures { IfOk result (λ differ. differ ≡ all_differ (case_values bits cases.now)) }
{
    let mut seen = IndexSet::new(alloc);
    for case in cases {
        let is_new = seen.insert(case.value.wrapped(bits))?;
        if !is_new {
            return Ok(false);
        }
    }
    Ok(true)
}
