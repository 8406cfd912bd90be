//! The places of types, and plans of them up to the limit and just beyond it.
use crate::layout_tests::{LAYOUTS, Shape, has_layout, structure, ty_of};
use std::alloc::{AllocError, Global};
use ty_core::{PlanEnd, Ty, TyList, TyPlan};

/// Types, and the places of each: an integer and a pointer have one, an array has one more than its element, a struct one
/// and for each field one more than the field.
const PLACES: &[(Shape, u64)] = &[
    (Shape::Int(1), 1),
    (Shape::Int(128), 1),
    (Shape::Ptr, 1),
    (Shape::Array(4, 32), 2),
    (Shape::Array(0, 8), 2),
    (Shape::Arrays(2, 3, 8), 3),
    (Shape::Pair(8, 32), 5),
    (Shape::Packed(8, 32), 5),
    (Shape::Tailed(8, 3, 8), 6),
    (Shape::Empty, 1),
];

/// So many structs of 32,767 pointers, which have 65,535 places each, and so many pointers behind them; and what their
/// plan is told to have. A plan has at most 4,194,304 places.
const PLANS: &[(usize, usize, Result<u64, PlanEnd>)] = &[
    (0, 0, Ok(0)),
    (0, 3, Ok(3)),
    (1, 1, Ok(65_536)),
    (64, 64, Ok(4_194_304)),
    (64, 65, Err(PlanEnd::TooMany { places: 4_194_305 })),
];

fn pointers(alloc: Global, count: usize) -> Result<Vec<Ty>, AllocError> {
    let mut types = Vec::new(alloc);
    for _ in 0..count {
        types.push(Ty::Ptr)?;
    }
    Ok(types)
}

/// So many structs of 32,767 pointers, and so many pointers behind them.
fn listed(alloc: Global, structs: usize, count: usize) -> Result<TyList, AllocError> {
    let mut types = Vec::new(alloc);
    for _ in 0..structs {
        types.push(structure(alloc, false, pointers(alloc, 32_767)?)?)?;
    }
    for _ in 0..count {
        types.push(Ty::Ptr)?;
    }
    TyList::from_vec(alloc, types)
}

fn planned_places(alloc: Global, types: Result<TyList, AllocError>) -> Result<u64, PlanEnd> {
    match types {
        Ok(types) => {
            let plan = TyPlan::of(alloc, &types)?;
            Ok(plan.places())
        }
        Err(_) => Err(PlanEnd::NoMemory),
    }
}

fn alone(alloc: Global, shape: Shape) -> Result<TyList, AllocError> {
    let mut types = Vec::new(alloc);
    types.push(ty_of(alloc, shape)?)?;
    TyList::from_vec(alloc, types)
}

/// The number of the first shape that has other places, or 0.
fn wrong_places(alloc: Global) -> usize {
    for at in 0..PLACES.len() {
        let (shape, places) = PLACES[at];
        if planned_places(alloc, alone(alloc, shape)) != Ok(places) {
            return at + 1;
        }
    }
    0
}

/// The number of the first plan that is told to have other places, or 0.
fn wrong_plan(alloc: Global) -> usize {
    for at in 0..PLANS.len() {
        let (structs, count, wanted) = PLANS[at];
        if planned_places(alloc, listed(alloc, structs, count)) != wanted {
            return at + 1;
        }
    }
    0
}

/// The types of all layouts, in their order.
fn measured_types(alloc: Global) -> Result<TyList, AllocError> {
    let mut types = Vec::new(alloc);
    for at in 0..LAYOUTS.len() {
        types.push(ty_of(alloc, LAYOUTS[at].0)?)?;
    }
    TyList::from_vec(alloc, types)
}

/// Another plan of the types of all layouts.
fn copied_plan(alloc: Global) -> Result<TyPlan, PlanEnd> {
    let types = measured_types(alloc).map_err(|_| PlanEnd::NoMemory)?;
    let plan = TyPlan::of(alloc, &types)?;
    plan.copy(alloc).map_err(|_| PlanEnd::NoMemory)
}

/// The number of the first of these types that has another layout, or 0.
fn wrong_type(types: &TyList) -> usize {
    for at in 0..LAYOUTS.len() {
        if !is_measured(types.get(at), LAYOUTS[at].1) {
            return at + 1;
        }
    }
    0
}

fn is_measured(ty: Option<&Ty>, wanted: Option<(u64, u64)>) -> bool {
    match ty {
        Some(ty) => has_layout(ty, wanted),
        None => false,
    }
}

/// The number of the first type that is wrong in a copy of a plan, or 0.
fn wrong_copy(alloc: Global) -> usize {
    match copied_plan(alloc) {
        Ok(plan) => wrong_type(plan.types()),
        Err(_) => LAYOUTS.len() + 1,
    }
}

#[test]
fn types_have_their_places(rt: HostRuntime) {
    assert_eq!(rt; wrong_places(rt.alloc()), 0);
}

#[test]
fn plans_have_a_limit(rt: HostRuntime) {
    assert_eq!(rt; wrong_plan(rt.alloc()), 0);
}

#[test]
fn copies_have_the_same_types(rt: HostRuntime) {
    assert_eq!(rt; wrong_copy(rt.alloc()), 0);
}
