//! Blocks that nothing reaches, and the entries of phis for them, in small modules.
use check_tests::modules::{Piece, read_pieces};
use ir_prune::prune;
use ir_syntax::{Block, Function, Module, Phi};
use std::alloc::{AllocError, Global};

/// Texts, and the lines that are left: of each block, and of each entry of its phis that of the block it names.
const MODULES: &[(&[Piece], &[u32])] = &[
    (&[], &[]),
    (&[(1, "declare void @f()")], &[]),
    (&[(1, "define void @f() {\nret void }")], &[2]),
    // Nothing is dropped: a loop, and two entries for one block.
    (
        &[
            (1, "define void @f(i1 %c) {\n0:\nbr label %1\n1:\n"),
            (1, "%a = phi i8 [ 1, %0 ], [ 2,\n%1 ], [ 2,\n%1 ]\n"),
            (1, "br i1 %c, label %1, label %1 }"),
        ],
        &[2, 4, 5, 6, 7],
    ),
    // A block that nothing reaches, with the entry for it; the other entries stay in order.
    (
        &[
            (1, "define void @f(i1 %c) {\nentry: br i1 %c, label %end,\n"),
            (1, "label %side\nlost: br label %end\nside: br label %end\n"),
            (
                1,
                "end: %a = phi i8 [ 1,\n%entry ], [ 2,\n%lost ], [ 3,\n%side ]\n",
            ),
            (1, "ret void }"),
        ],
        &[2, 5, 6, 7, 9],
    ),
    // Blocks that lead to each other, which no path from the first one reaches.
    (
        &[
            (1, "define void @f() {\nentry: br label %end\n"),
            (1, "a: br label %b\nb: br i1 true, label %a, label %end\n"),
            (1, "end: %x = phi i8 [ 1,\n%b ], [ 2,\n%entry ]\nret void }"),
        ],
        &[2, 5, 7],
    ),
    // A phi whose every entry is for such a block stands in one.
    (
        &[
            (1, "define void @f() {\nentry: ret void\na: br label %b\n"),
            (1, "b: %x = phi i8 [ 1,\n%a ]\nret void }\n"),
            (
                1,
                "define void @g() {\na: br label %b\nb: %x = phi i8 [ 1,\n%a ]\nret void }",
            ),
        ],
        &[2, 8, 9, 10],
    ),
    (
        &[
            (1, "define void @f() {\nentry: br label %end\n"),
            (3000, "br label %end\n"),
            (1, "end: ret void }"),
        ],
        &[2, 3003],
    ),
];

fn push_phi(lines: &mut Vec<u32>, phi: &Phi) -> Result<(), AllocError> {
    for entry in phi.entries.as_slice() {
        lines.push(entry.block.line)?;
    }
    Ok(())
}

fn push_block(lines: &mut Vec<u32>, block: &Block) -> Result<(), AllocError> {
    lines.push(block.line)?;
    for phi in block.phis.as_slice() {
        push_phi(lines, phi)?;
    }
    Ok(())
}

fn push_function(lines: &mut Vec<u32>, function: &Function) -> Result<(), AllocError> {
    if let Some(blocks) = &function.blocks {
        for block in blocks.as_slice() {
            push_block(lines, block)?;
        }
    }
    Ok(())
}

fn lines_of(alloc: Global, module: &Module) -> Result<Vec<u32>, AllocError> {
    let mut lines = Vec::new(alloc);
    for function in module.functions.as_slice() {
        push_function(&mut lines, function)?;
    }
    Ok(lines)
}

/// The lines that are left of a module.
fn kept_lines(alloc: Global, module: Module) -> Result<Vec<u32>, AllocError> {
    let module = prune(alloc, module)?;
    lines_of(alloc, &module)
}

/// Whether these lines are left of a text of these pieces.
fn leaves(alloc: Global, pieces: &[Piece], lines: &[u32]) -> bool {
    let Some(module) = read_pieces(alloc, pieces) else {
        return false;
    };
    match kept_lines(alloc, module) {
        Ok(found) => found.as_slice() == lines,
        Err(_) => false,
    }
}

#[test]
fn what_nothing_reaches_is_dropped(rt: HostRuntime) {
    for (text, lines) in MODULES {
        assert!(rt; leaves(rt.alloc(), text, lines), "{text:?}");
    }
}
