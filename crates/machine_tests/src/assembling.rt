//! Texts that are assembled, and texts that are refused.
use crate::code::{Code, RET, is_code};
use crate::encoding::ENCODED;
use asm_read::{AsmRefusal, Object, ObjectSymbol, Section, assemble};
use rv_isa::{Line, Op};
use std::alloc::{AllocError, Global};

/// A symbol: its name, whether it is global, and its offset in the text.
type Symbol = (&'static [u8], bool, i128);

/// Texts, and the instructions and the symbols of their objects, which need no other symbol.
const ASSEMBLED: &[(&[u8], &[Code], &[Symbol])] = &[
    (b"", &[], &[]),
    (
        b"\t.text\n\t.globl\ta\n\t.p2align\t2\na:\n\tmv\tt0, a0\n\tmv\tt1, a1\n\tmv\ta0, t0\n\tret\n",
        &[
            (Op::Addi, 5, 10, 0, 0),
            (Op::Addi, 6, 11, 0, 0),
            (Op::Addi, 10, 5, 0, 0),
            RET,
        ],
        &[(b"a", true, 0)],
    ),
    (
        b"\t.text\n\t.p2align\t2\n.LBB0x:\n\tli\ta0, -2048\n\tret\n\"a\\\"\\\\ \\303\\251\":\n\tret\n",
        &[(Op::Addi, 10, 0, 0, -2048), RET, RET],
        &[(b".LBB0x", false, 0), (b"a\"\\ \xC3\xA9", false, 8)],
    ),
];

/// Whether a line is this instruction and needs no symbol.
fn is_plain(line: &Line, code: Code) -> bool {
    match line {
        Line::Plain(inst) => is_code(*inst, code),
        _ => false,
    }
}

/// Whether lines are these instructions, none of which needs a symbol.
fn are_plain(lines: &[Line], code: &[Code]) -> bool {
    for at in 0..lines.len() {
        if at >= code.len() || !is_plain(&lines[at], code[at]) {
            return false;
        }
    }
    lines.len() == code.len()
}

/// Whether a symbol is this one.
fn is_symbol(symbol: &ObjectSymbol, wanted: Symbol) -> bool {
    let place = (symbol.section == Section::Text) & (symbol.offset == wanted.2);
    (symbol.name.as_bytes() == wanted.0) & (symbol.global == wanted.1) & place
}

/// Whether symbols are these.
fn are_symbols(symbols: &[ObjectSymbol], wanted: &[Symbol]) -> bool {
    for at in 0..symbols.len() {
        if at >= wanted.len() || !is_symbol(&symbols[at], wanted[at]) {
            return false;
        }
    }
    symbols.len() == wanted.len()
}

/// Whether an object has these instructions and symbols, and needs no other symbol.
fn is_object(object: &Object, code: &[Code], symbols: &[Symbol]) -> bool {
    are_plain(object.words.as_slice(), code)
        & are_symbols(object.symbols.as_slice(), symbols)
        & object.needs.as_slice().is_empty()
}

/// Whether a text has an object with these instructions and symbols.
fn is_assembled(alloc: Global, text: &[u8], code: &[Code], symbols: &[Symbol]) -> bool {
    match assemble(alloc, text) {
        Ok(object) => is_object(&object, code, symbols),
        Err(_) => false,
    }
}

/// The number of the first text whose object is another than the one beside it, or 0.
fn wrong_object(alloc: Global) -> usize {
    for at in 0..ASSEMBLED.len() {
        let (text, code, symbols) = ASSEMBLED[at];
        if !is_assembled(alloc, text, code, symbols) {
            return at + 1;
        }
    }
    0
}

#[test]
fn texts_are_assembled(rt: HostRuntime) {
    assert_eq!(rt; wrong_object(rt.alloc()), 0);
}

/// Texts, and the line at which each is refused.
const REFUSED: &[(&[u8], u64)] = &[
    (
        b"\t.text\n\t.globl\ta\n\t.p2align\t2\na:\n\tmv\tt0, a0\n\taddi\tt0, t0, 2048\n\tret\n",
        6,
    ),
    (b"\t.text\n\tli\tt0, 2048\n", 2),
    (b"\t.text\n\tli\tt0, -2049\n", 2),
    (b"\t.text\n\tli\tt0, -0\n", 2),
    (b"\t.text\n\tli\tt0, 07\n", 2),
    (b"\t.text\n\tli\tt0,7\n", 2),
    (b"\t.text\n\tmv\ta0, zero\n", 2),
    (b"\t.text\n\"a\":\n", 2),
    (b"\t.text\n\n", 2),
    (b"\t.text\n\taddi\tt0, a0, 0\n", 2), // long for mv, li and ret
    (b"\t.text\n\taddi\tt0, zero, 5\n", 2),
    (b"\t.text\n\tjalr\tzero, 0(ra)\n", 2),
    (b"\t.text\n\tadd\ta0, a1\n", 2), // other operands
    (b"\t.text\n\tadd\ta0, a1, 2\n", 2),
    (b"\t.text\n\tadd\ta0, a1, a2, a3\n", 2),
    (b"\t.text\n\txori\ta0, a1, a2\n", 2),
    (b"\t.text\n\tld\ta0, a1\n", 2),
    (b"\t.text\n\tld\ta0, 8(a1) \n", 2),
    (b"\t.text\n\tld\ta0, 8(x1)\n", 2),
    (b"\t.text\n\tecall\t\n", 2),
    (b"\t.text\n\tnop\n", 2),
    (b"\t.text\n\tadd\ta0,a1,a2\n", 2), // blanks
    (b"\t.text\n add\ta0, a1, a2\n", 2),
    (b"\t.text\n\tslli\ta0, a1, 64\n", 2), // numbers out of range
    (b"\t.text\n\tslliw\ta0, a1, 32\n", 2),
    (b"\t.text\n\tsd\ta0, 2048(a1)\n", 2),
    (b"\t.text\n\tlui\ta0, 1048576\n", 2),
    (b"\t.text\n\tlui\ta0, -1\n", 2),
    (b"\t.text\n\tbeq\ta0, a1, 12\n", 2),
    (b"\t.text\n\txori\ta0, a1, +1\n", 2),
    (b"\t.text\n\tj\t8\n", 2),
    (b"\tecall\n\t.text\n", 1),
    (b"\t.p2align\t2\n\t.text\n", 1),
    (b"a:\n\t.text\n", 1),
    (b"\t.globl\ta\na:\n\t.text\n", 2),
    (b"\t.text\n\t.globl\tb\na:\n", 2),
    (b"\t.text\na:\n\tret\na:\n", 4),
    (b"\t.text\na:\n\tret", 3),
    (b"\t.text", 1),
];

/// The line at which a text is refused, or 0.
fn refused_line(alloc: Global, text: &[u8]) -> u64 {
    match assemble(alloc, text) {
        Err(AsmRefusal::Line { line }) => line,
        _ => 0,
    }
}

/// The number of the first text that is not refused at the line beside it, or 0.
fn wrong_refusal(alloc: Global) -> usize {
    for at in 0..REFUSED.len() {
        if refused_line(alloc, REFUSED[at].0) != REFUSED[at].1 {
            return at + 1;
        }
    }
    0
}

#[test]
fn the_first_bad_line_is_named(rt: HostRuntime) {
    assert_eq!(rt; wrong_refusal(rt.alloc()), 0);
}

/// A text of one line, the instruction of this assembly, whose distances are written as numbers.
fn text_of(alloc: Global, assembly: &str) -> Result<Vec<u8>, AllocError> {
    let mut text = Vec::from_slice(alloc, b"\t.text\n\t")?;
    let mut in_word = true;
    for byte in assembly.as_bytes() {
        match *byte {
            b' ' if in_word => {
                in_word = false;
                text.push(b'\t')?;
            }
            b'.' | b'+' => {}
            other => text.push(other)?,
        }
    }
    text.push(b'\n')?;
    Ok(text)
}

/// Whether a line of this instruction stands in a text: a branch goes by 8 there, and there is no jump by a number.
fn is_in_text(code: Code) -> bool {
    match code.0 {
        Op::Auipc | Op::Jal | Op::Fence | Op::Ebreak => false,
        Op::Beq | Op::Bne | Op::Blt | Op::Bge | Op::Bltu | Op::Bgeu => code.4 == 8,
        _ => true,
    }
}

/// Whether assembly is read as this instruction, or refused where it stands in no text.
fn is_read(alloc: Global, assembly: &str, code: Code) -> bool {
    let Ok(text) = text_of(alloc, assembly) else {
        return false;
    };
    if is_in_text(code) {
        is_assembled(alloc, text.as_slice(), &[code], &[])
    } else {
        refused_line(alloc, text.as_slice()) == 2
    }
}

/// The number of the first instruction of the table of words whose assembly is read as another, or 0.
fn wrong_line(alloc: Global) -> usize {
    for at in 0..ENCODED.len() {
        if !is_read(alloc, ENCODED[at].1, ENCODED[at].2) {
            return at + 1;
        }
    }
    0
}

#[test]
fn instructions_are_read_from_their_assembly(rt: HostRuntime) {
    assert_eq!(rt; wrong_line(rt.alloc()), 0);
}
