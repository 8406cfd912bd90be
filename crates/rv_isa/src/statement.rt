//! Statements of assembly.
use crate::inst::Inst;
use crate::symbol::SymName;

/// What one line of assembly says.
pub enum Statement {
    /// `.text`: what follows goes into the text section.
    Text,
    /// `.globl symbol`: other objects see the symbol.
    Global(SymName),
    /// `.p2align 2`: the next instruction lies at a multiple of four.
    Align,
    /// `symbol:`: the symbol is the address of the next instruction.
    Define(SymName),
    /// An instruction.
    Code(Inst),
    /// `unimp`: the word that no instruction has.
    Unimp,
    /// `.LBBf_b:`: the label is the place of the next instruction, within its text alone.
    Label(SymName),
    /// A branch or a jump to a label, its immediate 0.
    ToLabel(Inst, SymName),
}

impl Drop for Statement {
    fn drop(self) {
        match self {
            Statement::Global(symbol) => drop(symbol),
            Statement::Define(symbol) => drop(symbol),
            Statement::Label(label) => drop(label),
            Statement::ToLabel(_, label) => drop(label),
            Statement::Text | Statement::Align | Statement::Code(_) | Statement::Unimp => {}
        }
    }
}
