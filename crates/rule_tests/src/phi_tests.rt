//! Edges between blocks, and the entries of phis, in small modules.
use check_tests::modules::{Piece, read_pieces};
use ir_phis::push_phi_lines;
use ir_syntax::Module;
use std::alloc::{AllocError, Global};

/// A function of three blocks, whose last one two edges from the first lead to, and one from the second, from line 1 to 5.
const TWICE: &str = "define void @f(i1 %c) {
entry: br i1 %c, label %join, label %side
side: br i1 %c, label %join, label %join
join:
";

/// Texts, and the lines of what breaks a rule on edges.
const MODULES: &[(&[Piece], &[u32])] = &[
    (&[], &[]),
    (&[(1, "declare void @f()")], &[]),
    // One entry for each edge, in any order, with one value for each block.
    (
        &[
            (1, TWICE),
            (
                1,
                "%a = phi i8 [ 1, %entry ], [ 2, %side ], [ 2, %side ] ret void }",
            ),
        ],
        &[],
    ),
    (
        &[
            (1, TWICE),
            (
                1,
                "%a = phi i8 [ 2, %side ], [ 1, %entry ], [ 258, %side ] ret void }",
            ),
        ],
        &[],
    ),
    // An entry is missing, is one too many, or names a block that does not lead there.
    (
        &[
            (1, TWICE),
            (1, "%a = phi i8 [ 1, %entry ], [ 2, %side ]\nret void }"),
        ],
        &[5],
    ),
    (
        &[
            (1, TWICE),
            (
                1,
                "%a = phi i8 [ 1, %entry ], [ 1, %entry ], [ 2, %side ], [ 2, %side ] ret void }",
            ),
        ],
        &[5],
    ),
    (
        &[
            (1, TWICE),
            (
                1,
                "%a = phi i8 [ 1, %entry ], [ 1, %entry ], [ 2, %side ] ret void }",
            ),
        ],
        &[5],
    ),
    (
        &[
            (1, TWICE),
            (
                1,
                "%a = phi i8 [ 1, %entry ], [ 2, %side ], [ 2, %side ], [ 2, %join ] ret void }",
            ),
        ],
        &[5],
    ),
    // Each phi is told of, by its own line.
    (
        &[
            (1, TWICE),
            (1, "%a = phi i8 [ 1, %entry ]\n"),
            (1, "%b = phi i8 [ 1, %entry ], [ 2, %side ], [ 2, %side ]\n"),
            (
                1,
                "%d = phi i8 [ 1, %entry ], [ 2, %side ], [ 3, %side ]\nret void }",
            ),
        ],
        &[5, 7],
    ),
    // Two values of one block.
    (
        &[
            (1, TWICE),
            (
                1,
                "%a = phi i8 [ 1, %entry ], [ -1, %side ], [ 255, %side ] ret void }",
            ),
        ],
        &[],
    ),
    (
        &[
            (1, TWICE),
            (
                1,
                "%a = phi i16 [ 1, %entry ], [ -1, %side ], [ 255, %side ] ret void }",
            ),
        ],
        &[5],
    ),
    (
        &[
            (1, TWICE),
            (
                1,
                "%a = phi i64 [ 1, %entry ], [ -1, %side ], [ 18446744073709551615, %side ] ret void }",
            ),
        ],
        &[],
    ),
    (
        &[
            (1, TWICE),
            (
                1,
                "%a = phi i1 [ 1, %entry ], [ true, %side ], [ -1, %side ] ret void }",
            ),
        ],
        &[],
    ),
    (
        &[
            (1, TWICE),
            (
                1,
                "%a = phi i1 [ 1, %entry ], [ false, %side ], [ true, %side ] ret void }",
            ),
        ],
        &[5],
    ),
    (
        &[
            (1, TWICE),
            (
                1,
                "%a = phi i1 [ 1, %entry ], [ %c, %side ], [ %c, %side ] ret void }",
            ),
        ],
        &[],
    ),
    (
        &[
            (1, TWICE),
            (
                1,
                "%a = phi i1 [ 1, %entry ], [ %c, %side ], [ %d, %side ] ret void }",
            ),
        ],
        &[5],
    ),
    (
        &[
            (1, TWICE),
            (
                1,
                "%a = phi ptr [ null, %entry ], [ @g,\n%side ], [ @g, %side ] ret void }",
            ),
        ],
        &[],
    ),
    (
        &[
            (1, TWICE),
            (
                1,
                "%a = phi ptr [ null, %entry ], [ @g, %side ], [ null, %side ] ret void }",
            ),
        ],
        &[5],
    ),
    (
        &[
            (1, TWICE),
            (
                1,
                "%a = phi i8 [ 1, %entry ], [ undef, %side ], [ poison, %side ] ret void }",
            ),
        ],
        &[5],
    ),
    (
        &[
            (1, TWICE),
            (
                1,
                "%a = phi ptr [ null, %entry ], [ getelementptr ({i8, %t}, ptr @g, i32 0, i32 1),\n%side ], ",
            ),
            (
                1,
                "[ getelementptr ({i8, %t}, ptr @g, i32 0, i32 1), %side ] ret void }",
            ),
        ],
        &[],
    ),
    (
        &[
            (1, TWICE),
            (
                1,
                "%a = phi ptr [ null, %entry ], [ getelementptr ({i8, %t}, ptr @g, i32 0, i32 1), %side ], ",
            ),
            (
                1,
                "[ getelementptr ({i8, %u}, ptr @g, i32 0, i32 1), %side ] ret void }",
            ),
        ],
        &[5],
    ),
    (
        &[
            (1, TWICE),
            (
                1,
                "%a = phi ptr [ null, %entry ], [ getelementptr (i8, ptr @g, i32 0), %side ], ",
            ),
            (
                1,
                "[ getelementptr inbounds (i8, ptr @g, i32 0), %side ] ret void }",
            ),
        ],
        &[5],
    ),
    // A switch leads to a block once for its default and once for each case.
    (
        &[
            (
                1,
                "define void @f(i32 %c) {\nentry: switch i32 %c, label %end [\n",
            ),
            (
                1,
                "i32 1, label %end i32 2, label %side ]\nside: br label %end\nend:\n",
            ),
            (
                1,
                "%a = phi i8 [ 1, %entry ], [ 2, %side ], [ 1, %entry ] ret void }",
            ),
        ],
        &[],
    ),
    (
        &[
            (
                1,
                "define void @f(i32 %c) {\nentry: switch i32 %c, label %end [\n",
            ),
            (20000, "i32 1, label %end "),
            (1, "]\nend:\n%a = phi i8 [ 1, %entry ]"),
            (20000, ", [ 1, %entry ]"),
            (1, "\n%b = phi i8 [ 1, %entry ]"),
            (19999, ", [ 1, %entry ]"),
            (1, " ret void }"),
        ],
        &[6],
    ),
    // A block that nothing reaches leads to others, too.
    (
        &[
            (
                1,
                "define void @f() {\nentry: br label %end\nlost: br label %end\nend:\n",
            ),
            (1, "%a = phi i8 [ 1, %entry ] ret void }"),
        ],
        &[5],
    ),
    // Of several functions each has blocks of its own, and a block that nothing reaches leads to the first one, too.
    (
        &[
            (
                1,
                "define void @f() {\nentry: ret void\nlost:\nbr label %entry }\n",
            ),
            (
                1,
                "define void @g() {\nentry: br label %x\nx: br label %x }\n",
            ),
            (
                1,
                "define void @h() {\nentry: br i1 true, label %entry, label %entry }",
            ),
        ],
        &[4, 9],
    ),
    // Nothing leads to the first block: the line is that of the terminator.
    (
        &[(1, "define void @f() {\nentry:\nbr label\n%entry }")],
        &[3],
    ),
];

fn phi_lines(alloc: Global, module: &Module) -> Result<Vec<u32>, AllocError> {
    let mut lines = Vec::new(alloc);
    push_phi_lines(alloc, module, &mut lines)?;
    Ok(lines)
}

/// Whether these are the lines of a module.
fn has_lines(alloc: Global, module: &Module, lines: &[u32]) -> bool {
    match phi_lines(alloc, module) {
        Ok(found) => found.as_slice() == lines,
        Err(_) => false,
    }
}

/// Whether a text of these pieces breaks a rule at these lines.
fn is_told_of(alloc: Global, pieces: &[Piece], lines: &[u32]) -> bool {
    match read_pieces(alloc, pieces) {
        Some(module) => has_lines(alloc, &module, lines),
        None => false,
    }
}

#[test]
fn phis_have_an_entry_for_each_edge(rt: HostRuntime) {
    for (text, lines) in MODULES {
        assert!(rt; is_told_of(rt.alloc(), text, lines), "{text:?}");
    }
}
