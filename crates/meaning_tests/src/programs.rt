//! Modules prepared for running: the functions, their blocks, and the slots of what these name.
use check_tests::modules::{Piece, read_pieces};
use ir_loaded::LoadedModule;
use ir_program::{BlockCode, FunctionCode, functions_of};
use ir_syntax::Module;
use std::alloc::Global;

/// A function that is declared, one with a loop, and one that names no value.
const TEXT: &[Piece] = &[
    (1, "declare i32 @__host_get()\n"),
    (1, "define i32 @f(i32 %a, ptr %b) {\n"),
    (1, "e: %c = add i32 %a, 1\n"),
    (1, "  store i32 %c, ptr %b\n"),
    (1, "  br label %l\n"),
    (1, "l: %d = phi i32 [ %c, %e ], [ %f, %l ]\n"),
    (1, "  %g = phi i8 [ 1, %e ], [ 2, %l ]\n"),
    (1, "  %f = sub i32 %d, 1\n"),
    (1, "  %h = icmp eq i32 %f, 0\n"),
    (1, "  br i1 %h, label %l, label %x\n"),
    (1, "x: ret i32 %f\n}\n"),
    (1, "define void @g() {\ne: ret void\n}\n"),
];

/// The slots of a block's phis, and of the results of its instructions.
type Slots = (&'static [Option<usize>], &'static [Option<usize>]);

/// How many slots each function has, and its blocks.
const FUNCTIONS: &[(usize, &[Slots])] = &[
    (0, &[]),
    (
        7,
        &[
            (&[], &[Some(2), None]),
            (&[Some(3), Some(4)], &[Some(5), Some(6)]),
            (&[], &[]),
        ],
    ),
    (0, &[(&[], &[])]),
];

fn has_slots(block: &BlockCode<'_>, slots: &Slots) -> bool {
    let (phis, results) = *slots;
    if block.phis.as_slice() != phis || block.instrs.len() != results.len() {
        return false;
    }
    for (place, instr) in block.instrs.iter().enumerate() {
        if instr.result != results[place] {
            return false;
        }
    }
    true
}

fn has_blocks(function: &FunctionCode<'_>, slots: usize, blocks: &[Slots]) -> bool {
    if function.slots != slots || function.blocks.len() != blocks.len() {
        return false;
    }
    for (place, block) in function.blocks.iter().enumerate() {
        if !has_slots(block, &blocks[place]) {
            return false;
        }
    }
    true
}

fn are_prepared(functions: &[FunctionCode<'_>]) -> bool {
    if functions.len() != FUNCTIONS.len() {
        return false;
    }
    for (place, function) in functions.iter().enumerate() {
        let (slots, blocks) = FUNCTIONS[place];
        if !has_blocks(function, slots, blocks) {
            return false;
        }
    }
    true
}

fn is_right(alloc: Global, l: &LoadedModule<'_>) -> bool {
    match functions_of(alloc, l) {
        Ok(functions) => are_prepared(functions.as_slice()),
        Err(_) => false,
    }
}

fn is_prepared(alloc: Global, m: &Module) -> bool {
    match LoadedModule::new(alloc, m, &[]) {
        Ok(l) => is_right(alloc, &l),
        Err(_) => false,
    }
}

#[test]
fn functions_have_their_blocks_and_slots(rt: HostRuntime) {
    let right = match read_pieces(rt.alloc(), TEXT) {
        Some(m) => is_prepared(rt.alloc(), &m),
        None => false,
    };
    assert!(rt; right);
}
