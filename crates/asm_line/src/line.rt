//! Lines of the grammar.
ghost use Rattle.std.specs.Prelude.{◌≡◌, ◌↔◌, IfOk, IsTrue};
ghost use Rattle.rv_isa.specs.Statements.{statement_line};
ghost use Rattle.rv_isa.specs.Symbol.{IsLabel, IsSymbol};
ghost use Rattle.asm_line.specs.Statements.{Says};
ghost use Rattle.asm_inst.specs.Readings.{Reads};
ghost use Rattle.asm_inst.specs.Targets.{target};
ghost use Rattle.asm_inst.specs.declared.target.Target.TheVariants as targets;

use crate::symbol::{is_label, read_symbol};
use asm_inst::{Target, after, before, read_inst, read_open, target_of};
use rv_isa::{Inst, Statement, SymName};
use std::alloc::{AllocError, Global};

/// The symbol of a line `.globl symbol`.
fn read_global(alloc: Global, line: &[u8]) -> Result<Option<SymName>, AllocError>
    ensures { IfOk result (λ read. Reads (λ n. IsSymbol n × (line.now ≡ statement_line (Statement.Global n))) read) }
{
    match after(line, b"\t.globl\t") {
        Some(operand) => read_symbol(alloc, operand),
        None => Ok(None),
    }
}

/// The symbol of a line `symbol:`.
fn read_define(alloc: Global, line: &[u8]) -> Result<Option<SymName>, AllocError>
    ensures { IfOk result (λ read. Reads (λ n. IsSymbol n × (line.now ≡ statement_line (Statement.Define n))) read) }
{
    match before(line, b":") {
        Some(name) => read_symbol(alloc, name),
        None => Ok(None),
    }
}

/// The label of a line `.LBBf_b:`.
fn read_label(alloc: Global, line: &[u8]) -> Result<Option<SymName>, AllocError>
    ensures { IfOk result (λ read. Reads (λ n. IsLabel n × (line.now ≡ statement_line (Statement.Label n))) read) }
{
    match before(line, b":") {
        Some(name) if is_label(name) => Ok(Some(SymName::from_vec(Vec::from_slice(alloc, name)?))),
        _ => Ok(None),
    }
}

/// The branch or jump of a line, and the label that it goes to.
fn read_to_label(alloc: Global, line: &[u8]) -> Result<Option<(Inst, SymName)>, AllocError>
    ensures { IfOk result (λ read. Reads (λ p. Says line.now (Statement.ToLabel p.0 p.1)) read) }
{
    let Some((inst, last)) = read_open(line) else {
        return Ok(None);
    };
    if is_to_label(inst, last) {
        let label = SymName::from_vec(Vec::from_slice(alloc, last)?);
        Ok(Some((inst, label)))
    } else {
        Ok(None)
    }
}

/// Whether a label may stand for the immediate.
fn goes_to_label(inst: Inst) -> bool
    ensures { IsTrue result ↔ (target inst.op ≡ Some targets.Label) }
{
    matches!(target_of(inst.op), Some(Target::Label))
}

/// Whether what stands for the immediate is a label, and may be.
fn is_to_label(inst: Inst, last: &[u8]) -> bool
    ensures { IsTrue result ↔ ((target inst.op ≡ Some targets.Label) × IsLabel last.now) }
{
    goes_to_label(inst) & is_label(last)
}

/// What a line says, without its line feed, or `None` where it is outside the grammar.
///
/// # Errors
///
/// `AllocError` where memory runs out.
pub fn read_line(alloc: Global, line: &[u8]) -> Result<Option<Statement>, AllocError>
    ensures { IfOk result (λ read. Reads (Says line.now) read) }
{
    if line == b"\t.text".as_slice() {
        return Ok(Some(Statement::Text));
    }
    if line == b"\t.p2align\t2".as_slice() {
        return Ok(Some(Statement::Align));
    }
    if let Some(inst) = read_inst(line) {
        return Ok(Some(Statement::Code(inst)));
    }
    if line == b"\tunimp".as_slice() {
        return Ok(Some(Statement::Unimp));
    }
    if let Some((inst, label)) = read_to_label(alloc, line)? {
        return Ok(Some(Statement::ToLabel(inst, label)));
    }
    if let Some(label) = read_label(alloc, line)? {
        return Ok(Some(Statement::Label(label)));
    }
    if let Some(name) = read_global(alloc, line)? {
        return Ok(Some(Statement::Global(name)));
    }
    if let Some(name) = read_define(alloc, line)? {
        return Ok(Some(Statement::Define(name)));
    }
    Ok(None)
}
