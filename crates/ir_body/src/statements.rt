//! What stands in a block before its terminator.
ghost use Rattle.std.specs.Prelude.{◌≡◌, ◌++◌, ◌∷◌, [], filter_map, OnOk};
ghost use Rattle.ir_body.specs.Blocks.{after_statement, block_parts, phi_or_ops, gives_result, instr_in, phi_in, phi_or_op, result_name, results, statement_of, statement_firsts, statements};
ghost use Rattle.ir_rules.specs.Reading.{Gives};
ghost use Rattle.ir_rules.specs.Rules.{has, option};
ghost use Rattle.ir_words.specs.declared.class.Class.TheVariants as Classes;

use crate::statement::{PhiOrOp, Place, Statement};
use ir_ident::Name;
use ir_ops::{begins_op, read_entry_op, read_plain_op};
use ir_rules::{End, word};
use ir_syntax::{Instr, Instrs, Op, Phi, Phis};
use ir_terms::read_phi;
use ir_types::read_local_name;
use ir_words::{Class, Cursor};
use std::alloc::{AllocError, Global};

/// Reads a name and `=` where a name stands.
fn read_result<'t>(alloc: Global, rest: Cursor<'t>) -> Result<(Option<Name>, Cursor<'t>), End>
    ensures { Gives (λ x. x) result ((option results).read rest.entry) }
{
    match rest.first() {
        Class::Local => {
            let (name, rest) = read_local_name(alloc, rest)?;
            let rest = word(rest, Class::Equal)?;
            Ok((Some(name), rest))
        }
        _ => Ok((None, rest)),
    }
}

/// Reads a phi, or an operation that isn't `alloca`.
#[tactic(auto, unfolding(crate::specs::Blocks::phi_or_op_forms))]
fn read_phi_or_op<'t>(alloc: Global, rest: Cursor<'t>) -> Result<(PhiOrOp, Cursor<'t>), End>
    ensures { Gives (λ x. x) result (phi_or_op.read rest.entry) }
{
    match rest.first() {
        Class::Phi => {
            let ((ty, entries), rest) = read_phi(alloc, rest)?;
            Ok((PhiOrOp::Phi(ty, entries), rest))
        }
        _ => {
            let (op, rest) = read_plain_op(alloc, rest)?;
            Ok((PhiOrOp::Op(op), rest))
        }
    }
}

/// Reads what may stand at a place, behind its name.
#[tactic(auto, unfolding(crate::specs::Blocks::phi_or_ops))]
fn read_at_place<'t>(
    alloc: Global,
    rest: Cursor<'t>,
    place: Place,
) -> Result<(PhiOrOp, Cursor<'t>), End>
    ensures { Gives (λ x. x) result ((phi_or_ops place).read rest.entry) }
{
    match place {
        Place::Entry => {
            let (op, rest) = read_entry_op(alloc, rest)?;
            Ok((PhiOrOp::Op(op), rest))
        }
        Place::PhisOnly => read_phi_or_op(alloc, rest),
        Place::AfterPhis => {
            let (op, rest) = read_plain_op(alloc, rest)?;
            Ok((PhiOrOp::Op(op), rest))
        }
    }
}

/// Whether an operation gives a result.
fn gives_result(op: &Op) -> bool
    ensures { result ≡ gives_result op.now }
{
    match op {
        Op::Store { .. } => false,
        Op::Call { result, .. } => result.is_some(),
        _ => true,
    }
}

/// The name of an operation's result.
fn result_name(name: Option<Name>, op: &Op) -> Option<Name>
    ensures { result ≡ result_name name op.now }
{
    match name {
        Some(name) => Some(name),
        None if gives_result(op) => Some(Name::Implicit),
        None => None,
    }
}

/// A statement on a line, behind a name or none.
fn statement_of(line: u32, name: Option<Name>, body: PhiOrOp) -> Statement
    ensures { result ≡ statement_of (line, (name, body)) }
{
    match body {
        PhiOrOp::Phi(ty, entries) => Statement::Phi(Phi {
            line,
            result: name.unwrap_or(Name::Implicit),
            ty,
            entries,
        }),
        PhiOrOp::Op(op) => match op {
            Some(op) => Statement::Instr(Instr {
                line,
                result: result_name(name, &op),
                op,
            }),
            None => Statement::Dropped,
        },
    }
}

/// Reads a phi, an instruction, or a call that is dropped.
#[tactic(auto, unfolding(crate::specs::Blocks::statement_forms))]
fn read_statement<'t>(
    alloc: Global,
    rest: Cursor<'t>,
    place: Place,
) -> Result<(Statement, Cursor<'t>), End>
    ensures { Gives (λ x. x) result ((statements place).read rest.entry) }
{
    let line = rest.line();
    let (name, rest) = read_result(alloc, rest)?;
    let (body, rest) = read_at_place(alloc, rest, place)?;
    Ok((statement_of(line, name, body), rest))
}

/// The place behind a statement.
fn after_statement(place: Place, statement: &Statement) -> Place
    ensures { result ≡ after_statement place statement.now }
{
    match place {
        Place::PhisOnly => match statement {
            Statement::Phi(_) => Place::PhisOnly,
            Statement::Instr(_) | Statement::Dropped => Place::AfterPhis,
        },
        Place::Entry => Place::Entry,
        Place::AfterPhis => Place::AfterPhis,
    }
}

/// Keeps a statement among the phis or the instructions.
fn keep_statement(
    phis: &mut Vec<Phi>,
    instrs: &mut Vec<Instr>,
    statement: Statement,
) -> Result<(), AllocError>
    ensures phis { OnOk result (phis.new.items ≡ phis.old.items ++ filter_map phi_in (statement ∷ [])) }
    ensures instrs { OnOk result (instrs.new.items ≡ instrs.old.items ++ filter_map instr_in (statement ∷ [])) }
{
    match statement {
        Statement::Phi(phi) => phis.push(phi)?,
        Statement::Instr(instr) => instrs.push(instr)?,
        Statement::Dropped => {}
    }
    Ok(())
}

/// Whether a token of a class begins the name of a result, a phi or an `alloca`.
fn begins_other_statement(class: Class) -> bool
    ensures { result ≡ has (Classes.Local ∷ Classes.Phi ∷ Classes.Alloca ∷ []) class }
{
    matches!(class, Class::Local | Class::Phi | Class::Alloca)
}

/// Whether a token of a class begins a statement.
pub(crate) fn begins_statement(class: Class) -> bool
    ensures { result ≡ has statement_firsts class }
{
    begins_other_statement(class) | begins_op(class)
}

/// Reads the phis and the instructions of a block.
#[tactic(auto, unfolding(crate::specs::Blocks::statement_lists))]
pub(crate) fn read_block_parts<'t>(
    alloc: Global,
    rest: Cursor<'t>,
    place: Place,
) -> Result<((Phis, Instrs), Cursor<'t>), End>
    ensures { Gives (λ x. x) result ((block_parts place).read rest.entry) }
{
    let mut rest = rest;
    let mut place = place;
    let mut phis = Vec::new(alloc);
    let mut instrs = Vec::new(alloc);
    while begins_statement(rest.first()) {
        let (statement, after) = read_statement(alloc, rest, place)?;
        place = after_statement(place, &statement);
        keep_statement(&mut phis, &mut instrs, statement)?;
        rest = after;
    }
    Ok(((Phis::from_vec(phis), Instrs::from_vec(instrs)), rest))
}
