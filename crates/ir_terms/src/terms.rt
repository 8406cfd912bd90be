//! Terminators (LangRef, "Terminator Instructions").
ghost use Rattle.std.specs.Prelude.{◌≡◌};
ghost use Rattle.ir_terms.specs.Terms.{branches, cases, conditionals, endings, returns, switches, targets, term_firsts, term_of, terms};
ghost use Rattle.ir_rules.specs.Reading.{Gives};
ghost use Rattle.ir_rules.specs.Rules.{each, has, ◌▷◌, ◌◁◌};
ghost use Rattle.ir_words.specs.declared.class.Class.TheVariants.{CloseSquare, Comma, OpenSquare};

use crate::term_body::TermBody;
use ir_attributes::skip_attachments;
use ir_ident::NameUse;
use ir_rules::{Element, End, read_each, word};
use ir_syntax::{Case, Cases, Term, TypedOperand};
use ir_types::{begins_type, read_literal, read_local_use, read_type};
use ir_values::read_typed_operand;
use ir_words::{Class, Cursor};
use std::alloc::Global;

/// Reads `label` and the name of a block.
fn read_target<'t>(alloc: Global, rest: Cursor<'t>) -> Result<(NameUse, Cursor<'t>), End>
    ensures { Gives (λ x. x) result (targets.read rest.entry) }
{
    let rest = word(rest, Class::LabelWord)?;
    read_local_use(alloc, rest)
}

/// Reads `label` and the name of a block behind a comma.
fn read_next_target<'t>(alloc: Global, rest: Cursor<'t>) -> Result<(NameUse, Cursor<'t>), End>
    ensures { Gives (λ x. x) result ((Comma ▷ targets).read rest.entry) }
{
    let rest = word(rest, Class::Comma)?;
    read_target(alloc, rest)
}

/// Reads `ret` (LangRef, "'ret' Instruction").
#[tactic(auto, unfolding(crate::specs::Terms::return_forms))]
fn read_return<'t>(alloc: Global, rest: Cursor<'t>) -> Result<(TermBody, Cursor<'t>), End>
    ensures { Gives (λ x. x) result (returns.read rest.entry) }
{
    let rest = word(rest, Class::Ret)?;
    match rest.first() {
        Class::Void => Ok((TermBody::ReturnVoid, rest.skip())),
        _ => {
            let (value, rest) = read_typed_operand(alloc, rest)?;
            Ok((TermBody::Return(value), rest))
        }
    }
}

/// Reads what a conditional branch says behind `br`.
#[tactic(auto, unfolding(crate::specs::Terms::conditional_forms))]
fn read_conditional<'t>(alloc: Global, rest: Cursor<'t>) -> Result<(TermBody, Cursor<'t>), End>
    ensures { Gives (λ x. x) result (conditionals.read rest.entry) }
{
    let (condition, rest) = read_typed_operand(alloc, rest)?;
    let (then_target, rest) = read_next_target(alloc, rest)?;
    let (else_target, rest) = read_next_target(alloc, rest)?;
    Ok((TermBody::Branch(condition, then_target, else_target), rest))
}

/// Reads `br` (LangRef, "'br' Instruction").
#[tactic(auto, unfolding(crate::specs::Terms::branch_forms))]
fn read_branch<'t>(alloc: Global, rest: Cursor<'t>) -> Result<(TermBody, Cursor<'t>), End>
    ensures { Gives (λ x. x) result (branches.read rest.entry) }
{
    let rest = word(rest, Class::Br)?;
    match rest.first() {
        Class::LabelWord => {
            let (target, rest) = read_target(alloc, rest)?;
            Ok((TermBody::Jump(target), rest))
        }
        _ => read_conditional(alloc, rest),
    }
}

/// Reads a case of a switch.
#[tactic(auto, unfolding(crate::specs::Terms::case_forms))]
fn read_case<'t>(alloc: Global, rest: Cursor<'t>) -> Result<(Case, Cursor<'t>), End>
    ensures { Gives (λ x. x) result (cases.read rest.entry) }
{
    let (ty, rest) = read_type(alloc, rest, 64)?;
    let (value, rest) = read_literal(rest)?;
    let (target, rest) = read_next_target(alloc, rest)?;
    Ok((Case { ty, value, target }, rest))
}

/// The reader of a case of a switch.
#[derive(Drop)]
struct CaseReader {
    alloc: Global,
}

impl Element for CaseReader {
    type Tree = Case;

    ghost rule = { λ _. cases };

    ghost takes_memory = { Unit {0} };

    fn begins(&self, class: Class) -> bool {
        begins_type(class)
    }

    fn read<'t>(&self, rest: Cursor<'t>) -> Result<(Case, Cursor<'t>), End> {
        read_case(self.alloc, rest)
    }
}

/// Reads the cases of a switch between square brackets.
#[tactic(auto, using(crate::proofs::TermLaws::cases_law))]
fn read_case_list<'t>(alloc: Global, rest: Cursor<'t>) -> Result<(Cases, Cursor<'t>), End>
    ensures { Gives (λ x. x) result ((OpenSquare ▷ each cases ◁ CloseSquare).read rest.entry) }
{
    let rest = word(rest, Class::OpenSquare)?;
    let (cases, rest) = read_each(alloc, &CaseReader { alloc }, rest)?;
    let rest = word(rest, Class::CloseSquare)?;
    Ok((Cases::from_vec(cases), rest))
}

/// Reads `switch` (LangRef, "'switch' Instruction").
#[tactic(auto, unfolding(crate::specs::Terms::switch_forms))]
fn read_switch<'t>(alloc: Global, rest: Cursor<'t>) -> Result<(TermBody, Cursor<'t>), End>
    ensures { Gives (λ x. x) result (switches.read rest.entry) }
{
    let rest = word(rest, Class::Switch)?;
    let (value, rest) = read_typed_operand(alloc, rest)?;
    let (default, rest) = read_next_target(alloc, rest)?;
    let (cases, rest) = read_case_list(alloc, rest)?;
    Ok((TermBody::Switch(value, default, cases), rest))
}

/// Reads a terminator without the metadata behind it.
fn read_ending<'t>(alloc: Global, rest: Cursor<'t>) -> Result<(TermBody, Cursor<'t>), End>
    ensures { Gives (λ x. x) result (endings.read rest.entry) }
{
    match rest.first() {
        Class::Ret => read_return(alloc, rest),
        Class::Br => read_branch(alloc, rest),
        Class::Switch => read_switch(alloc, rest),
        _ => {
            let rest = word(rest, Class::Unreachable)?;
            Ok((TermBody::Unreachable, rest))
        }
    }
}

/// The terminator that begins on a line.
fn term_of(line: u32, ending: TermBody) -> Term
    ensures { result ≡ term_of (line, ending) }
{
    match ending {
        TermBody::ReturnVoid => Term::ReturnVoid { line },
        TermBody::Return(operand) => {
            let TypedOperand { ty, value } = operand;
            Term::Ret { line, ty, value }
        }
        TermBody::Jump(target) => Term::Br { line, target },
        TermBody::Branch(operand, then_target, else_target) => {
            let TypedOperand {
                ty,
                value: condition,
            } = operand;
            Term::CondBr {
                line,
                ty,
                condition,
                then_target,
                else_target,
            }
        }
        TermBody::Switch(operand, default, cases) => {
            let TypedOperand { ty, value } = operand;
            Term::Switch {
                line,
                ty,
                value,
                default,
                cases,
            }
        }
        TermBody::Unreachable => Term::Unreachable { line },
    }
}

/// Whether a token of a class begins a terminator.
pub fn begins_term(class: Class) -> bool
    ensures { result ≡ has term_firsts class }
{
    matches!(
        class,
        Class::Ret | Class::Br | Class::Switch | Class::Unreachable
    )
}

/// Reads a terminator and the metadata behind it.
#[tactic(auto, unfolding(crate::specs::Terms::term_forms))]
pub fn read_term<'t>(alloc: Global, rest: Cursor<'t>) -> Result<(Term, Cursor<'t>), End>
    ensures { Gives (λ x. x) result (terms.read rest.entry) }
{
    let line = rest.line();
    let (ending, rest) = read_ending(alloc, rest)?;
    let rest = skip_attachments(rest)?;
    Ok((term_of(line, ending), rest))
}
