//! The code of a function that returns a constant or one of its arguments.
ghost use Rattle.std.specs.Prelude.{◌≡◌, ◌+◌, ◌-◌, ◌++◌, ◌∷◌, [], ◌≤◌, ◌<◌, length, pos, Some, OnOk, IfOk, All};
ghost use Rattle.ir_syntax.specs.Literals.{literal_value};
ghost use Rattle.rv_isa.specs.Encoding.{IsInst, IsSigned12};
ghost use Rattle.rv_isa.specs.Text.{is_zero};
ghost use Rattle.cg_built.specs.Built.{IsBuiltFunction, IsBuiltBody, IsBuiltOperand, IsBuiltTerm};
ghost use Rattle.cg_part.specs.Code.{copies, argument_code, value_code, constant_code, code_at, operand_code, term_code, body_code, function_code};
ghost use Rattle.cg_built.specs.Params.{place_of};

use cg_built::place_among;
use ir_ident::Name;
use ir_syntax::{Block, Blocks, Function, Literal, Operand, Param, Term};
use rv_isa::{A0, Inst, T0, T1};
use std::alloc::{AllocError, Global};

/// The code of a function of the built set.
pub fn code_of(alloc: Global, function: &Function) -> Result<Vec<Inst>, AllocError>
    requires { IsBuiltFunction function.now }
    ensures code { IfOk result (λ code. code.items ≡ function_code function.now) }
    ensures formed { IfOk result (λ code. All IsInst code.items) }
{
    let mut code = Vec::new(alloc);
    push_body(&mut code, function.params.as_slice(), &function.blocks)?;
    Ok(code)
}

fn push_body(
    code: &mut Vec<Inst>,
    params: &[Param],
    blocks: &Option<Blocks>,
) -> Result<(), AllocError>
    requires arguments { length params.now ≤ 8 }
    requires body { IsBuiltBody params.now blocks.now }
    ensures { OnOk result (code.new.items ≡ code.old.items ++ body_code params.now blocks.now) }
{
    match blocks {
        Some(blocks) => push_blocks(code, params, blocks.as_slice()),
        None => Ok(()),
    }
}

fn push_blocks(code: &mut Vec<Inst>, params: &[Param], blocks: &[Block]) -> Result<(), AllocError>
    requires arguments { length params.now ≤ 8 }
    requires body { IsBuiltBody params.now (Some blocks.now) }
    ensures { OnOk result (code.new.items ≡ code.old.items ++ body_code params.now (Some blocks.now)) }
{
    match blocks {
        [block] => push_term(code, params, &block.term),
        _ => Ok(()),
    }
}

fn push_term(code: &mut Vec<Inst>, params: &[Param], term: &Term) -> Result<(), AllocError>
    requires arguments { length params.now ≤ 8 }
    requires body { IsBuiltTerm params.now term.now }
    ensures { OnOk result (code.new.items ≡ code.old.items ++ term_code params.now term.now) }
{
    match term {
        Term::Ret { value, .. } => push_operand(code, params, value),
        _ => Ok(()),
    }
}

fn push_operand(code: &mut Vec<Inst>, params: &[Param], operand: &Operand) -> Result<(), AllocError>
    requires arguments { length params.now ≤ 8 }
    requires body { IsBuiltOperand params.now operand.now }
    ensures { OnOk result (code.new.items ≡ code.old.items ++ operand_code params.now operand.now) }
{
    match operand {
        Operand::Local(used) => push_parameter(code, params, &used.name),
        Operand::Int(literal) => push_constant(code, params.len() as u8, immediate_of(*literal)),
        _ => Ok(()),
    }
}

fn push_parameter(code: &mut Vec<Inst>, params: &[Param], name: &Name) -> Result<(), AllocError>
    requires { length params.now ≤ 8 }
    ensures { OnOk result (code.new.items
        ≡ code.old.items ++ code_at (length params.now) (place_of name.now params.now)) }
{
    match place_among(name, params) {
        Some(place) => push_argument(code, params.len() as u8, place as u8),
        None => Ok(()),
    }
}

fn immediate_of(literal: Literal) -> i64
    requires { IsSigned12 (literal_value literal) }
    ensures { result ≡ literal_value literal }
{
    if literal.negative {
        -(literal.magnitude as i64)
    } else {
        literal.magnitude as i64
    }
}

/// Returns the argument at a place: all up to it go into t0, so the last of these stays.
fn push_argument(code: &mut Vec<Inst>, count: u8, place: u8) -> Result<(), AllocError>
    requires inside { place < count }
    requires arguments { count ≤ 8 }
    ensures { OnOk result (code.new.items ≡ code.old.items ++ argument_code count place) }
{
    push_copies(code, T0, 0, place + 1)?;
    push_copies(code, T1, place + 1, count)?;
    code.push(Inst::mv(A0, T0))?;
    code.push(Inst::ret())?;
    Ok(())
}

/// Returns a constant.
fn push_constant(code: &mut Vec<Inst>, count: u8, value: i64) -> Result<(), AllocError>
    requires { count ≤ 8 }
    ensures { OnOk result (code.new.items ≡ code.old.items ++ constant_code count value) }
{
    push_copies(code, T0, 0, count)?;
    push_value(code, value)?;
    code.push(Inst::ret())?;
    Ok(())
}

fn push_value(code: &mut Vec<Inst>, value: i64) -> Result<(), AllocError>
    ensures { OnOk result (code.new.items ≡ code.old.items ++ value_code value) }
{
    if value == 0 {
        code.push(Inst::li(A0, 0))?;
    } else {
        code.push(Inst::li(T0, value))?;
        code.push(Inst::mv(A0, T0))?;
    }
    Ok(())
}

/// Copies the argument registers of the places from first to end into one register.
fn push_copies(code: &mut Vec<Inst>, rd: u8, first: u8, end: u8) -> Result<(), AllocError>
    requires order { first ≤ end }
    requires arguments { end ≤ 8 }
    ensures { OnOk result (code.new.items ≡ code.old.items ++ copies rd first (end - first)) }
{
    for place in first..end {
        code.push(Inst::mv(rd, A0 + place))?;
    }
    Ok(())
}
