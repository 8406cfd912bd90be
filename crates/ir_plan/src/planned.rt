//! The plan of the types that a module is about.
ghost use Rattle.std.specs.Prelude.{◌≡◌, ◌++◌, ◌∷◌, ◌≤◌, [], IfErr, IfOk, OnOk, if◌then◌else◌, map, option_map};
ghost use Rattle.std.specs.List.{cons_option, list_any};
ghost use Rattle.ir_plan.specs.Planned.{IsTypesEnd, planned, planned_types};
ghost use Rattle.ir_syntax.specs.Definitions.{has_body};
ghost use Rattle.ty_core.specs.Plans.{all_places, plan_limit, trees_in};
ghost use Rattle.ty_core.specs.Tree.{int, ptr, tree_of};

use ir_mentions::{Mention, Which, is_any_defined, places_by, written_types};
use ir_sizes::NamedTypes;
use ir_syntax::{Function, Module};
use std::alloc::{AllocError, Global};
use ty_core::{PlanEnd, Ty, TyList, TyPlan};

/// The most places that the types of a plan may have.
const PLAN_LIMIT: u64 = 4_194_304;

/// The types that defined functions and variables of a module write, and before them those that functions need, each as
/// often as it is written, with the names in it replaced; types that have no size are left out (LangRef, "Structure
/// Type"). No type is made of a module that has too many.
///
/// # Errors
///
/// [`PlanEnd::TooMany`] where the types have more than 4,194,304 places in all, unless memory runs out before.
pub fn types_plan(alloc: Global, m: &Module) -> Result<TyPlan, PlanEnd>
    ensures ok { IfOk result (λ plan. plan ≡ planned_types m.now) }
    ensures within { IfOk result (λ plan. all_places plan ≤ plan_limit) }
    ensures err { IfErr result (IsTypesEnd (planned_types m.now)) }
{
    match places_by(alloc, m, Which::Every) {
        Ok(places) if places > PLAN_LIMIT => Err(PlanEnd::TooMany { places }),
        Ok(_) => made_plan(alloc, m),
        Err(_) => Err(PlanEnd::NoMemory),
    }
}

fn made_plan(alloc: Global, m: &Module) -> Result<TyPlan, PlanEnd>
    ensures ok { IfOk result (λ plan. plan ≡ planned_types m.now) }
    ensures within { IfOk result (λ plan. all_places plan ≤ plan_limit) }
    ensures err { IfErr result (IsTypesEnd (planned_types m.now)) }
{
    match planned_list(alloc, m) {
        Ok(types) => TyPlan::of(alloc, &types),
        Err(_) => Err(PlanEnd::NoMemory),
    }
}

fn planned_list(alloc: Global, m: &Module) -> Result<TyList, AllocError>
    ensures { IfOk result (λ types. trees_in types ≡ planned_types m.now) }
{
    let types = sized_types(alloc, m)?;
    let list = TyList::from_vec(alloc, types)?;
    Ok(list)
}

fn sized_types(alloc: Global, m: &Module) -> Result<Vec<Ty>, AllocError>
    ensures { IfOk result (λ types. map tree_of types.items ≡ planned_types m.now) }
{
    let named = NamedTypes::new(alloc, m.types.as_slice())?;
    let written = written_types(alloc, m, Which::Every)?;
    let mut types = needed_types(alloc, m.functions.as_slice())?;
    push_sized(alloc, &named, written.as_slice(), &mut types)?;
    Ok(types)
}

/// The types that are there wherever a function is defined: two integers and the pointer.
fn needed_types(alloc: Global, functions: &[Function]) -> Result<Vec<Ty>, AllocError>
    ensures { IfOk result (λ types. map tree_of types.items ≡ if list_any has_body functions.now then int 64 ∷ int 1 ∷ ptr ∷ [] else []) }
{
    let mut types = Vec::new(alloc);
    if is_any_defined(functions) {
        types.push(Ty::Int { bits: 64 })?;
        types.push(Ty::Int { bits: 1 })?;
        types.push(Ty::Ptr)?;
    }
    Ok(types)
}

/// Adds the types that have a size.
fn push_sized(
    alloc: Global,
    named: &NamedTypes<'_>,
    written: &[Mention<'_>],
    types: &mut Vec<Ty>,
) -> Result<(), AllocError>
    ensures { OnOk result (map tree_of types.new.items ≡ map tree_of types.old.items ++ planned named.now written.now) }
{
    for mention in written {
        let ty = named.replaced(alloc, mention.ty())?;
        push_some(types, ty)?;
    }
    Ok(())
}

/// Adds a type if there is one.
fn push_some(types: &mut Vec<Ty>, ty: Option<Ty>) -> Result<(), AllocError>
    ensures { OnOk result (map tree_of types.new.items ≡ map tree_of types.old.items ++ cons_option (option_map tree_of ty) []) }
{
    if let Some(ty) = ty {
        types.push(ty)?;
    }
    Ok(())
}
