//! Ends of aliases, and names of functions as values.
use check_tests::modules::{Piece, read_pieces};
use ir_aliases::{AliasEnds, first_bad_alias, push_function_value_lines};
use ir_syntax::Module;
use std::alloc::{AllocError, Global};

/// A variable that is defined.
const G: &str = "@g = global i8 0\n";

/// Modules, and the place of the first alias that comes to no definition or is too far from it.
const ENDS: &[(&[Piece], Option<usize>)] = &[
    (&[], None),
    (&[(1, G), (1, "@x = alias i8, ptr @g")], None),
    (
        &[(1, G), (1, "@x = alias i8, ptr @y\n@y = alias i8, ptr @g")],
        None,
    ),
    (
        &[(
            1,
            "define void @f() { ret void }\n@x = alias void (), ptr @f",
        )],
        None,
    ),
    // A cycle, a declaration, and a name that nothing has.
    (
        &[(1, "@x = alias i8, ptr @y\n@y = alias i8, ptr @x")],
        Some(0),
    ),
    (&[(1, "@x = alias i8, ptr @x")], Some(0)),
    (
        &[(1, G), (1, "@a = alias i8, ptr @g\n@x = alias i8, ptr @x")],
        Some(1),
    ),
    (
        &[(1, "@e = external global i8\n@x = alias i8, ptr @e")],
        Some(0),
    ),
    (
        &[(1, "declare void @f()\n@x = alias void (), ptr @f")],
        Some(0),
    ),
    (&[(1, "@x = alias i8, ptr @nothing")], Some(0)),
    // Offsets from -2^29 to 2^29 - 1.
    (
        &[
            (1, G),
            (
                1,
                "@x = alias i8, getelementptr (i8, ptr @g, i64 536870911)",
            ),
        ],
        None,
    ),
    (
        &[
            (1, G),
            (
                1,
                "@x = alias i8, getelementptr (i8, ptr @g, i64 536870912)",
            ),
        ],
        Some(0),
    ),
    (
        &[
            (1, G),
            (
                1,
                "@x = alias i8, getelementptr (i8, ptr @g, i64 -536870912)",
            ),
        ],
        None,
    ),
    (
        &[
            (1, G),
            (
                1,
                "@x = alias i8, getelementptr (i8, ptr @g, i64 -536870913)",
            ),
        ],
        Some(0),
    ),
    // Those of a chain are added, whichever way round it is written.
    (
        &[
            (1, "@x = alias i8, getelementptr (i8, ptr @y, i64 -1)\n"),
            (1, "@y = alias i8, getelementptr (i8, ptr @z, i64 1)\n"),
            (
                1,
                "@z = alias i8, getelementptr (i8, ptr @g, i64 536870911)\n",
            ),
            (1, G),
        ],
        Some(1),
    ),
    (
        &[
            (1, G),
            (1, "@x = alias i8, getelementptr (i8, ptr @g, i64 0, i64 0)"),
        ],
        Some(0),
    ),
];

/// Modules, and the lines of what has a function's name as a value.
const VALUES: &[(&[Piece], &[u32])] = &[(
    &[
        (1, "declare void @f()\n@x = alias void (), ptr @h\n"),
        (1, "define void @h() { ret void }\n@g = global ptr @f\n"),
        (
            1,
            "@k = global [1 x ptr] [ ptr getelementptr (i8, ptr @x, i64 1) ]\n",
        ),
        (
            1,
            "define void @m(ptr %p) {\n  call void @f()\n  call void @x()\n",
        ),
        (
            1,
            "  store ptr @g, ptr %p\n  store ptr @x, ptr %p\n  ret void }",
        ),
    ],
    &[4, 5, 10],
)];

/// Whether an alias of a module is the first bad one, or none is.
fn is_first_bad(alloc: Global, pieces: &[Piece], place: Option<usize>) -> bool {
    let Some(module) = read_pieces(alloc, pieces) else {
        return false;
    };
    match first_bad_alias(alloc, &module) {
        Ok(found) => found == place,
        Err(_) => false,
    }
}

fn value_lines(alloc: Global, module: &Module) -> Result<Vec<u32>, AllocError> {
    let ends = AliasEnds::new(alloc, module)?;
    let mut lines = Vec::new(alloc);
    push_function_value_lines(alloc, &ends, &mut lines)?;
    Ok(lines)
}

fn is_told_of(alloc: Global, pieces: &[Piece], lines: &[u32]) -> bool {
    let Some(module) = read_pieces(alloc, pieces) else {
        return false;
    };
    match value_lines(alloc, &module) {
        Ok(found) => found.as_slice() == lines,
        Err(_) => false,
    }
}

#[test]
fn aliases_end_in_definitions(rt: HostRuntime) {
    for (text, place) in ENDS {
        assert!(rt; is_first_bad(rt.alloc(), text, *place), "{text:?}");
    }
}

#[test]
fn functions_are_no_values(rt: HostRuntime) {
    for (text, lines) in VALUES {
        assert!(rt; is_told_of(rt.alloc(), text, lines), "{text:?}");
    }
}
