//! Names that are defined twice, in small modules.
use crate::modules::{Piece, read_pieces};
use ir_naming::{item_names, repeated_lines};
use ir_syntax::Module;
use std::alloc::Global;

/// A function from line 1 to line 6.
const PLAIN: &str = "define void @f(
    ptr %x,
    ptr %y) {
entry:
    %z = freeze ptr null
    ret void }
";

/// A function of numbers, of six lines.
const OTHER: &str = "define void @g(
    ptr %x,
    ptr %0) {
1:
    %2 = freeze ptr null
    ret void }
";

/// Texts, and the lines at which a name of theirs is defined again.
const MODULES: &[(&[Piece], &[u32])] = &[
    (&[], &[]),
    // Types, functions and the names of each function are apart.
    (
        &[
            (1, PLAIN),
            (4, "\n"),
            (1, OTHER),
            (3, "\n"),
            (1, "%f = type {}\n%0 = type {}\n%x = type {}"),
        ],
        &[],
    ),
    (
        &[
            (
                1,
                "define void @f(ptr %x, ptr %y) { entry: %z = freeze ptr null ret void } ",
            ),
            (1, PLAIN),
            (4, "\n"),
            (1, OTHER),
        ],
        &[1],
    ),
    (
        &[
            (19, "\n"),
            (1, "%t = type {}\n%u = type {}\n%t = type {}\n%t = type {}"),
        ],
        &[22, 23],
    ),
    (
        &[(19, "\n"), (1, "%0 = type {}\n%1 = type {}\n%0 = type {}")],
        &[22],
    ),
    (
        &[(
            1,
            "define void @f(
    ptr %x,
    ptr %x) {
entry:
    %z = freeze ptr null
    ret void }",
        )],
        &[3],
    ),
    (
        &[(
            1,
            "define void @f(
    ptr %x,
    ptr %y) {
y:
    %z = freeze ptr null
    ret void }",
        )],
        &[4],
    ),
    (
        &[(
            1,
            "define void @f(
    ptr %x,
    ptr %y) {
entry:
    %x = freeze ptr null
    ret void }",
        )],
        &[5],
    ),
    (
        &[
            (10, "\n"),
            (
                1,
                "define void @g(
    ptr %x,
    ptr %0) {
1:
    %0 = freeze ptr null
    ret void }",
            ),
        ],
        &[15],
    ),
    // Types come first, then functions, then the names of each function.
    (
        &[
            (1, PLAIN),
            (4, "\n"),
            (
                1,
                "define void @f(
    ptr %x,
    ptr %0) {
1:
    %1 = freeze ptr null
    ret void }
",
            ),
            (3, "\n"),
            (1, "%t = type {}\n%t = type {}"),
        ],
        &[21, 11, 15],
    ),
];

/// Whether a module defines names again at these lines.
fn repeats_at(alloc: Global, module: &Module, lines: &[u32]) -> bool {
    let Ok(items) = item_names(alloc, module) else {
        return false;
    };
    match repeated_lines(alloc, module, items.as_slice()) {
        Ok(found) => found.as_slice() == lines,
        Err(_) => false,
    }
}

/// Whether a text of these pieces defines names again at these lines.
fn is_told_of(alloc: Global, pieces: &[Piece], lines: &[u32]) -> bool {
    match read_pieces(alloc, pieces) {
        Some(module) => repeats_at(alloc, &module, lines),
        None => false,
    }
}

#[test]
fn the_later_of_two_of_one_name_is_told(rt: HostRuntime) {
    for (text, lines) in MODULES {
        assert!(rt; is_told_of(rt.alloc(), text, lines), "{text:?}");
    }
}
