//! Values (LangRef, "Constants").
ghost use Rattle.std.specs.Prelude.{◌≡◌, false, Ok, true};
ghost use Rattle.ir_types.specs.Types.{types};
ghost use Rattle.ir_values.specs.Values.{constant_geps, constants, global_uses, operands, operands_within, scalars, typed_literals, typed_operands, word_values};
ghost use Rattle.ir_rules.specs.Leaves.{flag};
ghost use Rattle.ir_rules.specs.Reading.{Gives, GivesExactly};
ghost use Rattle.ir_rules.specs.Rules.{each, ◌▷◌, ◌◁◌};
ghost use Rattle.ir_words.specs.declared.class.Class.TheVariants as Classes;

use crate::globals::read_global_use;
use ir_ident::NameUse;
use ir_rules::{Element, End, bad, read_each_after_comma, word};
use ir_syntax::{ConstantGep, GepParts, Operand, TypedLiteral, TypedLiterals, TypedOperand};
use ir_types::{begins_type, read_literal, read_local_use, read_type};
use ir_words::{Class, Cursor};
use std::alloc::Global;

/// Reads a type of at most so many brackets, and an integer literal.
pub fn read_typed_literal<'t>(
    alloc: Global,
    rest: Cursor<'t>,
    depth: u8,
) -> Result<(TypedLiteral, Cursor<'t>), End>
    ensures { Gives (λ x. x) result ((typed_literals depth).read rest.entry) }
{
    let (ty, rest) = read_type(alloc, rest, depth)?;
    let (value, rest) = read_literal(rest)?;
    Ok((TypedLiteral { ty, value }, rest))
}

/// Reads whether `inbounds` stands here.
fn read_inbounds<'t>(rest: Cursor<'t>) -> (bool, Cursor<'t>)
    ensures { (flag Classes.Inbounds).read rest.entry ≡ Ok (result.0, result.1) }
{
    match rest.first() {
        Class::Inbounds => (true, rest.skip()),
        _ => (false, rest),
    }
}

/// The reader of an integer literal with its type, of at most so many brackets.
#[derive(Drop)]
struct IndexReader {
    alloc: Global,
    depth: u8,
}

impl Element for IndexReader {
    type Tree = TypedLiteral;

    ghost rule = { λ reader. typed_literals reader.depth };

    ghost takes_memory = { Unit {0} };

    fn begins(&self, class: Class) -> bool {
        begins_type(class)
    }

    fn read<'t>(&self, rest: Cursor<'t>) -> Result<(TypedLiteral, Cursor<'t>), End> {
        read_typed_literal(self.alloc, rest, self.depth)
    }
}

/// Reads integer literals with their types, each behind a comma.
fn read_indices<'t>(
    alloc: Global,
    rest: Cursor<'t>,
    depth: u8,
) -> Result<(TypedLiterals, Cursor<'t>), End>
    ensures { Gives (λ x. x) result ((each (Classes.Comma ▷ typed_literals depth)).read rest.entry) }
{
    let (list, rest) = read_each_after_comma(alloc, &IndexReader { alloc, depth }, rest)?;
    Ok((TypedLiterals::from_vec(list), rest))
}

/// Reads integer literals with their types, each behind a comma, and `)`.
fn read_last_indices<'t>(
    alloc: Global,
    rest: Cursor<'t>,
    depth: u8,
) -> Result<(TypedLiterals, Cursor<'t>), End>
    ensures { Gives (λ x. x) result ((each (Classes.Comma ▷ typed_literals depth) ◁ Classes.CloseRound).read rest.entry) }
{
    let (indices, rest) = read_indices(alloc, rest, depth)?;
    let rest = word(rest, Class::CloseRound)?;
    Ok((indices, rest))
}

/// Reads the address of a global behind a comma.
fn read_base<'t>(alloc: Global, rest: Cursor<'t>) -> Result<(NameUse, Cursor<'t>), End>
    ensures { Gives (λ x. x) result ((Classes.Comma ▷ Classes.Ptr ▷ global_uses).read rest.entry) }
{
    let rest = word(rest, Class::Comma)?;
    let rest = word(rest, Class::Ptr)?;
    read_global_use(alloc, rest)
}

/// Reads `getelementptr` of constants, its types of at most so many brackets.
///
/// # Errors
///
/// `Bad` at the first token with which none begins.
#[tactic(auto, unfolding(crate::specs::Values::gep_forms))]
pub fn read_constant_gep<'t>(
    alloc: Global,
    rest: Cursor<'t>,
    depth: u8,
) -> Result<(ConstantGep, Cursor<'t>), End>
    ensures { Gives (λ x. x) result ((constant_geps depth).read rest.entry) }
{
    let rest = word(rest, Class::Getelementptr)?;
    let (inbounds, rest) = read_inbounds(rest);
    let rest = word(rest, Class::OpenRound)?;
    let (ty, rest) = read_type(alloc, rest, depth)?;
    let (base, rest) = read_base(alloc, rest)?;
    let (indices, rest) = read_last_indices(alloc, rest, depth)?;
    let parts = GepParts {
        inbounds,
        ty,
        base,
        indices,
    };
    Ok((ConstantGep::new(alloc, parts)?, rest))
}

/// Reads a value that is a word.
#[tactic(auto, unfolding(crate::specs::Values::word_forms))]
fn read_word_value<'t>(rest: Cursor<'t>) -> Result<(Operand, Cursor<'t>), End>
    ensures { GivesExactly (λ x. x) result (word_values.read rest.entry) }
{
    let value = match rest.first() {
        Class::True => Operand::True,
        Class::False => Operand::False,
        Class::Null => Operand::Null,
        Class::Undef => Operand::Undef,
        Class::Poison => Operand::Poison,
        _ => return Err(bad(&rest)),
    };
    Ok((value, rest.skip()))
}

/// Reads a value that is no name.
#[tactic(auto, unfolding(crate::specs::Values::constant_forms))]
fn read_constant<'t>(rest: Cursor<'t>) -> Result<(Operand, Cursor<'t>), End>
    ensures { GivesExactly (λ x. x) result (constants.read rest.entry) }
{
    match rest.first() {
        Class::Int => {
            let (literal, rest) = read_literal(rest)?;
            Ok((Operand::Int(literal), rest))
        }
        _ => read_word_value(rest),
    }
}

/// Reads a value of one token.
///
/// # Errors
///
/// `Bad` at this token if it is none, `NoMemory` if memory runs out.
#[tactic(auto, unfolding(crate::specs::Values::scalar_forms))]
pub fn read_scalar<'t>(alloc: Global, rest: Cursor<'t>) -> Result<(Operand, Cursor<'t>), End>
    ensures { Gives (λ x. x) result (scalars.read rest.entry) }
{
    match rest.first() {
        Class::Local => {
            let (name, rest) = read_local_use(alloc, rest)?;
            Ok((Operand::Local(name), rest))
        }
        Class::Global | Class::MetadataIntrinsic | Class::DroppedIntrinsic | Class::Intrinsic => {
            let (name, rest) = read_global_use(alloc, rest)?;
            Ok((Operand::Global(name), rest))
        }
        _ => read_constant(rest),
    }
}

/// Reads a value, the types of a `getelementptr` in it of at most so many brackets.
#[tactic(auto, unfolding(crate::specs::Values::operand_forms))]
fn read_operand_within<'t>(
    alloc: Global,
    rest: Cursor<'t>,
    depth: u8,
) -> Result<(Operand, Cursor<'t>), End>
    ensures { Gives (λ x. x) result ((operands_within depth).read rest.entry) }
{
    match rest.first() {
        Class::Getelementptr => {
            let (gep, rest) = read_constant_gep(alloc, rest, depth)?;
            Ok((Operand::Gep(gep), rest))
        }
        _ => read_scalar(alloc, rest),
    }
}

/// Reads a value.
pub fn read_operand<'t>(alloc: Global, rest: Cursor<'t>) -> Result<(Operand, Cursor<'t>), End>
    ensures { Gives (λ x. x) result (operands.read rest.entry) }
{
    read_operand_within(alloc, rest, 64)
}

/// Reads a type and a value.
///
/// # Errors
///
/// `Bad` at the first token with which none begins.
#[tactic(auto, unfolding(crate::specs::Values::typed_forms))]
pub fn read_typed_operand<'t>(
    alloc: Global,
    rest: Cursor<'t>,
) -> Result<(TypedOperand, Cursor<'t>), End>
    ensures { Gives (λ x. x) result (typed_operands.read rest.entry) }
{
    let (ty, rest) = read_type(alloc, rest, 64)?;
    let (value, rest) = read_operand(alloc, rest)?;
    Ok((TypedOperand { ty, value }, rest))
}
