//! Names for what has none.
use check_tests::modules::{Piece, read_pieces};
use ir_given::{alias_symbol, given_names};
use ir_syntax::Module;
use std::alloc::{AllocError, Global};

/// An alias, a variable and a function, none of which has a name.
const UNNAMED: &str = "@0 = alias i8, ptr @1\n@1 = global i8 0\ndefine void @2() { ret void }\n";

/// Modules, and the names that are given in them, each on a line.
const GIVEN: &[(&[Piece], &str)] = &[
    (&[], ""),
    (
        &[(
            1,
            "@g = global i8 0\n@x = alias i8, ptr @g\ndeclare void @f()",
        )],
        "",
    ),
    (
        &[(1, UNNAMED)],
        "__llvmsplit_unnamed\n__llvmsplit_unnamed.1\n__llvmsplit_unnamed.2\n",
    ),
    // Items of each kind have some of the names, defined and declared.
    (
        &[
            (1, "@__llvmsplit_unnamed = external global i8\n"),
            (1, "declare void @__llvmsplit_unnamed.2()\n"),
            (1, "@__llvmsplit_unnamed.3 = alias i8, ptr @0\n"),
            (1, UNNAMED),
        ],
        "__llvmsplit_unnamed.1\n__llvmsplit_unnamed.4\n__llvmsplit_unnamed.5\n",
    ),
    // These are no candidates.
    (
        &[
            (
                1,
                "@__llvmsplit_unnamed.0 = global i8 0\n@__llvmsplit_unnamed.01 = global i8 0\n",
            ),
            (1, "@0 = external global i8\n@1 = external global i8\n"),
        ],
        "__llvmsplit_unnamed\n__llvmsplit_unnamed.1\n",
    ),
    (
        &[
            (10, "@0 = external global i8\n"),
            (1, "declare void @1()\n"),
            (1, "@__llvmsplit_unnamed.9 = external global i8\n"),
        ],
        "__llvmsplit_unnamed\n__llvmsplit_unnamed.1\n__llvmsplit_unnamed.2\n__llvmsplit_unnamed.3\n__llvmsplit_unnamed.4\n\
        __llvmsplit_unnamed.5\n__llvmsplit_unnamed.6\n__llvmsplit_unnamed.7\n__llvmsplit_unnamed.8\n__llvmsplit_unnamed.10\n\
        __llvmsplit_unnamed.11\n",
    ),
];

/// Aliases with a name and without one, and more that has none.
const ALIASED: &[Piece] = &[
    (1, "@x = alias i8, ptr @1\n"),
    (1, "@__llvmsplit_unnamed.1 = alias i8, ptr @1\n"),
    (1, "@0 = alias i8, ptr @1\n"),
    (1, UNNAMED),
];

/// Modules, and the symbol of the alias at a place.
const ALIASES: &[(&[Piece], usize, Option<&str>)] = &[
    (&[(1, UNNAMED)], 0, Some("__llvmsplit_unnamed.2")),
    (&[(1, UNNAMED)], 1, None),
    (ALIASED, 0, Some("x")),
    (ALIASED, 1, Some("__llvmsplit_unnamed.1")),
    (ALIASED, 2, Some("__llvmsplit_unnamed.3")),
    (ALIASED, 3, Some("__llvmsplit_unnamed.4")),
    (ALIASED, 4, None),
];

/// The names that are given in a module, each on a line.
fn given_text(alloc: Global, module: &Module) -> Result<Vec<u8>, AllocError> {
    let given = given_names(alloc, module)?;
    let mut text = Vec::new(alloc);
    for name in given.as_slice() {
        text.extend_from_slice(name.as_slice())?;
        text.push(b'\n')?;
    }
    Ok(text)
}

fn is_given(alloc: Global, pieces: &[Piece], names: &str) -> bool {
    let Some(module) = read_pieces(alloc, pieces) else {
        return false;
    };
    match given_text(alloc, &module) {
        Ok(text) => text.as_slice() == names.as_bytes(),
        Err(_) => false,
    }
}

fn has_symbol(alloc: Global, pieces: &[Piece], place: usize, symbol: Option<&str>) -> bool {
    let Some(module) = read_pieces(alloc, pieces) else {
        return false;
    };
    match (alias_symbol(alloc, &module, place), symbol) {
        (Ok(Some(found)), Some(symbol)) => found.as_slice() == symbol.as_bytes(),
        (Ok(None), None) => true,
        _ => false,
    }
}

#[test]
fn unnamed_items_get_names(rt: HostRuntime) {
    for (text, names) in GIVEN {
        assert!(rt; is_given(rt.alloc(), text, names), "{text:?}");
    }
}

#[test]
fn aliases_have_symbols(rt: HostRuntime) {
    for (text, place, symbol) in ALIASES {
        assert!(rt; has_symbol(rt.alloc(), text, *place, *symbol), "{text:?}");
    }
}
