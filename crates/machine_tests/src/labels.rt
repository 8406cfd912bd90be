//! Texts with labels.
use asm_read::{AsmRefusal, assemble};
use rv_isa::{Line, UNIMP, decode};
use std::alloc::{AllocError, Global};

/// Texts, and the words of their instructions as LLVM's assembler makes them (`llvm-mc -mattr=+m,-relax`).
const LABELLED: &[(&[u8], &[u32])] = &[
    (b"\t.text\n.LBB0_1:\n", &[]),
    (
        b"\t.text\n\t.globl\tf\n\t.p2align\t2\nf:\n\tbeq\ta0, zero, .LBB0_2\n.LBB0_1:\n\
          \taddi\ta0, a0, -1\n\tbne\ta0, zero, .LBB0_1\n\tblt\ta0, a1, .LBB0_2\n\tbge\ta0, a1, .LBB0_1\n\
          \tbltu\ta0, a1, .LBB0_2\n\tbgeu\ta0, a1, .LBB0_1\n\tjal\tra, .LBB0_2\n\tj\t.LBB0_1\n.LBB0_2:\n\
          \tunimp\n\tj\t.LBB0_3\n.LBB0_3:\n\tret\n",
        &[
            0x0205_0263,
            0xfff5_0513,
            0xfe05_1ee3,
            0x00b5_4c63,
            0xfeb5_5ae3,
            0x00b5_6863,
            0xfeb5_76e3,
            0x0080_00ef,
            0xfe5f_f06f,
            0xc000_1073,
            0x0040_006f,
            0x0000_8067,
        ],
    ),
];

/// Whether a line has this word.
fn has_word(line: &Line, word: u32) -> bool {
    match line {
        Line::Plain(inst) => match decode(word) {
            Some(found) => found == *inst,
            None => false,
        },
        Line::Unimp => word == UNIMP,
        _ => false,
    }
}

/// Whether lines have these words.
fn have_words(lines: &[Line], words: &[u32]) -> bool {
    for at in 0..lines.len() {
        if at >= words.len() || !has_word(&lines[at], words[at]) {
            return false;
        }
    }
    lines.len() == words.len()
}

/// The number of the first text whose words are others than those beside it, or 0.
fn wrong_words(alloc: Global) -> usize {
    for at in 0..LABELLED.len() {
        let (text, words) = LABELLED[at];
        let Ok(object) = assemble(alloc, text) else {
            return at + 1;
        };
        if !have_words(object.words.as_slice(), words) {
            return at + 1;
        }
    }
    0
}

#[test]
fn branches_and_jumps_have_their_distance(rt: HostRuntime) {
    assert_eq!(rt; wrong_words(rt.alloc()), 0);
}

const FORWARD: &[u8] = b"\t.text\n\tbeq\ta0, a1, .LBB0_1\n";

const LABEL: &[u8] = b"\t.text\n.LBB0_1:\n";

/// Texts with so many instructions in their middle, and the line at which each is refused, or 0. LLVM's assembler finds a
/// distance out of range in the same four.
const FAR: &[(&[u8], usize, &[u8], u64)] = &[
    (FORWARD, 1022, b".LBB0_1:\n\tret\n", 0),
    (FORWARD, 1023, b".LBB0_1:\n\tret\n", 2),
    (LABEL, 1024, b"\tbeq\ta0, a1, .LBB0_1\n", 0),
    (LABEL, 1025, b"\tbeq\ta0, a1, .LBB0_1\n", 1028),
    (FORWARD, 1023, b".LBB0_1:\n\tret\n\tnop\n", 2), // a line is refused by itself behind the label, and before it
    (FORWARD, 1023, b"\tnop\n.LBB0_1:\n\tret\n", 1026),
];

/// A text with so many instructions in its middle.
fn text_of(alloc: Global, head: &[u8], count: usize, tail: &[u8]) -> Result<Vec<u8>, AllocError> {
    let mut text = Vec::from_slice(alloc, head)?;
    for _ in 0..count {
        text.extend_from_slice(b"\tret\n")?;
    }
    text.extend_from_slice(tail)?;
    Ok(text)
}

/// Whether a text is refused at this line, or at none where that is 0.
fn is_refused_at(alloc: Global, text: &[u8], line: u64) -> bool {
    match assemble(alloc, text) {
        Ok(_) => line == 0,
        Err(AsmRefusal::Line { line: found }) => found == line,
        Err(AsmRefusal::NoMemory) => false,
    }
}

/// The number of the first of these texts that is not refused at the line beside it, or 0.
fn wrong_reach(alloc: Global) -> usize {
    for at in 0..FAR.len() {
        let (head, count, tail, line) = FAR[at];
        let Ok(text) = text_of(alloc, head, count, tail) else {
            return at + 1;
        };
        if !is_refused_at(alloc, text.as_slice(), line) {
            return at + 1;
        }
    }
    0
}

#[test]
fn a_branch_reaches_4096_bytes_back_and_fewer_forward(rt: HostRuntime) {
    assert_eq!(rt; wrong_reach(rt.alloc()), 0);
}

/// Texts, and the line at which each is refused.
const REFUSED: &[(&[u8], u64)] = &[
    (b"\t.text\n\tj\t.LBB0_1\n", 2),
    (b"\t.text\n\tj\t.LBB0_1\n.LBB0_1:\n\tj\t.LBB0_2\n", 4),
    (b"\t.text\n.LBB0_1:\n\tret\n.LBB0_1:\n", 4),
    (b".LBB0_1:\n\t.text\n", 1),
    (b"\tunimp\n\t.text\n", 1),
    (b"\t.text\n\".LBB0_1\":\n", 2),
    (b"\t.text\n\t.globl\t.LBB0_1\n.LBB0_1:\n", 2),
    (b"\t.text\n\tjal\tzero, .LBB0_1\n.LBB0_1:\n", 2), // long for j
    (b"\t.text\n\tbeq\ta0, a1, a\na:\n", 2),
    (b"\t.text\n\tbeq\ta0, a1, .LBB00_1\n.LBB00_1:\n", 2),
    (b"\t.text\n\taddi\ta0, a1, .LBB0_1\n.LBB0_1:\n", 2),
];

/// The number of the first of these texts that is not refused at the line beside it, or 0.
fn wrong_refusal(alloc: Global) -> usize {
    for at in 0..REFUSED.len() {
        let (text, line) = REFUSED[at];
        if !is_refused_at(alloc, text, line) {
            return at + 1;
        }
    }
    0
}

#[test]
fn labels_stand_once_where_they_are_needed(rt: HostRuntime) {
    assert_eq!(rt; wrong_refusal(rt.alloc()), 0);
}
