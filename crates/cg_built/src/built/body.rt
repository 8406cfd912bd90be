//! The body of a function that is built.
ghost use Rattle.std.specs.Prelude.{◌≡◌};
ghost use Rattle.cg_built.specs.Unbuilt.{is_built_block, is_built_body, is_built_operand, is_built_term, is_immediate, is_empty};

use crate::built::head::{bits_of, width_of};
use crate::params::place_among;
use ir_syntax::{Block, Function, Literal, Operand, Param, Term};

/// Whether the body is one block that returns a parameter or a number at once, as a value of the result's type.
pub fn is_built_body(function: &Function, first: &Block, more: &[Block]) -> bool
    ensures { result ≡ is_built_body function.now first.now more.now }
{
    is_empty(more) & is_built_block(function, first)
}

fn is_empty<T>(items: &[T]) -> bool
    ensures { result ≡ is_empty items.now }
{
    items.is_empty()
}

fn is_built_block(function: &Function, block: &Block) -> bool
    ensures { result ≡ is_built_block function.now block.now }
{
    is_empty(block.phis.as_slice())
        & is_empty(block.instrs.as_slice())
        & is_built_term(function, &block.term)
}

fn is_built_term(function: &Function, term: &Term) -> bool
    ensures { result ≡ is_built_term function.now term.now }
{
    match term {
        Term::Ret { ty, value, .. } => {
            (width_of(ty) == bits_of(&function.result))
                & is_built_operand(function.params.as_slice(), value)
        }
        _ => false,
    }
}

fn is_built_operand(params: &[Param], operand: &Operand) -> bool
    ensures { result ≡ is_built_operand params.now operand.now }
{
    match operand {
        Operand::Local(used) => place_among(&used.name, params).is_some(),
        Operand::Int(literal) => is_immediate(*literal),
        _ => false,
    }
}

fn is_immediate(literal: Literal) -> bool
    ensures { result ≡ is_immediate literal }
{
    if literal.negative {
        literal.magnitude <= 2048
    } else {
        literal.magnitude <= 2047
    }
}
