//! The plans of the types that modules are about.
use crate::modules::{Piece, read_pieces};
use ir_plan::types_plan;
use ir_syntax::Module;
use std::alloc::Global;
use ty_core::PlanEnd;

/// Modules, each with the number of places of its types.
const MODULES: &[(u64, &[Piece])] = &[
    (0, &[(1, "@a = external global i8\ndeclare i8 @f(i8)\n")]),
    // A defined function has need of two integers and the pointer.
    (3, &[(1, "define void @f() { a: ret void }")]),
    // The types of blocks that no path reaches count.
    (
        4,
        &[(1, "define void @f() { a: ret void b: ret i8 undef }")],
    ),
    // A name is replaced by what it stands for.
    (
        5,
        &[(1, "%0 = type { i8, ptr }\n@a = global %0 zeroinitializer\n")],
    ),
    // A type that has no size is left out.
    (
        1,
        &[(
            1,
            "%0 = type { %0 }\n@a = global %0 zeroinitializer\n@b = global i8 0",
        )],
    ),
    // One place above the limit.
    (
        4_194_305,
        &[
            (1, "%0 = type { i8"),
            (32_766, ", i8"),
            (1, " }\n"),
            (64, "@a = global %0 zeroinitializer\n"),
            (65, "@a = global i8 0\n"),
        ],
    ),
];

/// Whether the types of a module have so many places, and a plan if these are few enough.
fn has_places(alloc: Global, module: &Module, places: u64) -> bool {
    match types_plan(alloc, module) {
        Ok(plan) => plan.places() == places,
        Err(PlanEnd::TooMany { places: found }) => found == places && places > 4_194_304,
        Err(PlanEnd::NoMemory) => false,
    }
}

#[test]
fn types_have_their_places(rt: HostRuntime) {
    for (places, pieces) in MODULES {
        let found = match read_pieces(rt.alloc(), pieces) {
            Some(module) => has_places(rt.alloc(), &module, *places),
            None => false,
        };
        assert!(rt; found, "{places}");
    }
}
