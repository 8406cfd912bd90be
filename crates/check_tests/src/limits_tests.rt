//! Modules at the limits and just beyond them.
use crate::modules::{Piece, push_pieces, read, text_of};
use ir_check::exceeded_limit;
use ir_syntax::{Count, Module};
use std::alloc::{AllocError, Global};

/// An instruction of a type of one place.
const FREEZE: &str = "freeze i1 undef\n";

/// A function of one terminator.
const SHORT: &[Piece] = &[(1, "define void @f() { unreachable }\n")];

/// A function of one terminator and 65 parameters.
const WIDE: &[Piece] = &[
    (1, "define void @f(ptr"),
    (64, ", ptr"),
    (1, ") { unreachable }\n"),
];

/// A function of 65,535 instructions and a terminator.
const LONG: &[Piece] = &[
    (1, "define void @f() {\n"),
    (65_535, FREEZE),
    (1, "unreachable }\n"),
];

/// A declared function.
const DECLARED: &[Piece] = &[(1, "declare void @g()\n")];

/// Functions, each as often as it stands there, and the limit that they exceed.
const FUNCTIONS: &[(&[(usize, &[Piece])], Option<Count>)] = &[
    // A module defines at most 4,096 functions; of two limits the first is told.
    (&[(1, DECLARED)], None),
    (&[(4096, SHORT), (1, DECLARED)], None),
    (&[(4097, WIDE), (1, DECLARED)], Some(Count::Functions)),
    // All functions have at most 262,144 instructions.
    (&[(4, LONG)], None),
    (&[(4, LONG), (1, WIDE)], Some(Count::Instructions)),
    // A function has at most 64 parameters.
    (
        &[(1, &[(1, "declare void @f(ptr"), (63, ", ptr"), (1, ")")])],
        None,
    ),
    (
        &[(1, &[(1, "declare void @f(ptr"), (64, ", ptr"), (1, ")")])],
        Some(Count::Arguments),
    ),
    (
        &[(
            1,
            &[
                (1, "define void @f(ptr"),
                (64, ", ptr"),
                (1, ") {\n"),
                (65_536, FREEZE),
                (1, "unreachable }"),
            ],
        )],
        Some(Count::OneFunction),
    ),
];

/// The text of a function, and the limit that it exceeds. It has at most 65,536 instructions that paths reach.
const BODIES: &[(&[Piece], Option<Count>)] = &[
    (LONG, None),
    (
        &[
            (1, "define void @f() {\n"),
            (65_536, FREEZE),
            (1, "unreachable }"),
        ],
        Some(Count::OneFunction),
    ),
    // No path reaches the long block.
    (
        &[
            (1, "define void @f() { unreachable\nlong:\n"),
            (65_536, FREEZE),
            (1, "unreachable }"),
        ],
        None,
    ),
    // Two blocks that lead to each other, and nothing else leads to them.
    (
        &[
            (1, "define void @f() { unreachable\nlong:\n"),
            (65_536, FREEZE),
            (1, "br label %b\nb: br label %long }"),
        ],
        None,
    ),
    // The same with a path to the second of them.
    (
        &[
            (1, "define void @f() { br label %b\nlong:\n"),
            (65_536, FREEZE),
            (1, "br label %b\nb: br label %long }"),
        ],
        Some(Count::OneFunction),
    ),
    // The second block of a label is never the next one.
    (
        &[
            (1, "define void @f() { br label %b\nb: unreachable\nb:\n"),
            (65_536, FREEZE),
            (1, "unreachable }"),
        ],
        None,
    ),
    (
        &[
            (
                1,
                "define void @f() { br i1 true, label %undefined, label %long\nlong:\n",
            ),
            (65_536, FREEZE),
            (1, "unreachable }"),
        ],
        Some(Count::OneFunction),
    ),
    // The last case of a switch.
    (
        &[
            (
                1,
                "define void @f() { switch i8 undef, label %a [ i8 0, label %b i8 0, label %long ]\nlong:\n",
            ),
            (65_536, FREEZE),
            (1, "unreachable }"),
        ],
        Some(Count::OneFunction),
    ),
    // All blocks count together.
    (
        &[
            (1, "define void @f() { br label %long\nlong:\n"),
            (65_535, FREEZE),
            (1, "unreachable }"),
        ],
        Some(Count::OneFunction),
    ),
];

/// Whether a module exceeds this limit first.
pub(crate) fn exceeds(alloc: Global, module: &Module, limit: Option<Count>) -> bool {
    match exceeded_limit(alloc, module) {
        Ok(found) => found == limit,
        Err(_) => false,
    }
}

/// Whether a text is read, and its module exceeds this limit first.
pub(crate) fn is_told(alloc: Global, text: &[u8], limit: Option<Count>) -> bool {
    match read(alloc, text) {
        Some(module) => exceeds(alloc, &module, limit),
        None => false,
    }
}

/// A text of functions, each so often.
fn functions_of(
    alloc: Global,
    functions: &[(usize, &'static [Piece])],
) -> Result<Vec<u8>, AllocError> {
    let mut text = Vec::new(alloc);
    for (times, function) in functions {
        for _time in 0..*times {
            push_pieces(&mut text, function)?;
        }
    }
    Ok(text)
}

/// Whether these functions exceed this limit first.
fn is_told_of(
    alloc: Global,
    functions: &[(usize, &'static [Piece])],
    limit: Option<Count>,
) -> bool {
    match functions_of(alloc, functions) {
        Ok(text) => is_told(alloc, text.as_slice(), limit),
        Err(_) => false,
    }
}

#[test]
fn the_first_limit_that_functions_exceed_is_told(rt: HostRuntime) {
    for (functions, limit) in FUNCTIONS {
        assert!(rt; is_told_of(rt.alloc(), functions, *limit), "{functions:?}");
    }
}

#[test]
fn a_function_has_at_most_65536_instructions_that_paths_reach(rt: HostRuntime) {
    for (body, limit) in BODIES {
        assert!(rt; is_told_of(rt.alloc(), &[(1, *body)], *limit), "{body:?}");
    }
}

/// A function of 4,194,304 places without its terminator: 3 that each module with a function has, 1,023 loads of a
/// struct of 4,095 places from a `ptr` of one, and once a struct of 4,093. A struct has 1 place, and 2 for each field of
/// `i8`. A type of a name that is not defined counts for nothing.
const FULL: &[Piece] = &[
    (1, "%0 = type { i8"),
    (2046, ", i8"),
    (1, " }\n%1 = type { i8"),
    (2045, ", i8"),
    (1, " }\ndefine void @f() {\n"),
    (1023, "load %0, ptr null\n"),
    (1, "freeze %1 undef\nfreeze %2 undef\n"),
];

/// Another block of that function, which writes a type of one place.
const BLOCK: &str = "\nb: freeze i1 undef\nunreachable }";

/// Terminators of that function, and the limit that it exceeds then.
const ENDS: &[(&str, Option<Count>)] = &[
    ("unreachable", None),
    ("br label %undefined", None),
    ("br label %b", Some(Count::TypePlaces)),
    (
        "br i1 true, label %undefined, label %none",
        Some(Count::TypePlaces),
    ),
];

/// The text of that function with this terminator, and of the block `b`.
fn text_with_end(alloc: Global, end: &'static str) -> Result<Vec<u8>, AllocError> {
    let mut text = text_of(alloc, FULL)?;
    push_pieces(&mut text, &[(1, end), (1, BLOCK)])?;
    Ok(text)
}

/// Whether that function exceeds this limit with this terminator.
fn is_told_of_end(alloc: Global, end: &'static str, limit: Option<Count>) -> bool {
    match text_with_end(alloc, end) {
        Ok(text) => is_told(alloc, text.as_slice(), limit),
        Err(_) => false,
    }
}

#[test]
fn all_mentioned_types_have_at_most_4194304_places(rt: HostRuntime) {
    for (end, limit) in ENDS {
        assert!(rt; is_told_of_end(rt.alloc(), end, *limit), "{end}");
    }
}
