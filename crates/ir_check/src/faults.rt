//! What breaks a rule of a module: on types, on the flow of control, and on aliases.
ghost use Rattle.std.specs.Prelude.{◌≡◌, ◌++◌, IfOk, MatchOption, None, OnOk, min};
ghost use Rattle.std.specs.List.{reduce};
ghost use Rattle.ir_aliases.specs.Ends.{first_bad_alias};
ghost use Rattle.ir_check.specs.Faults.{IsAliasFault, IsFirstFlowFault, first_type_fault, state_lines, type_lines, use_lines};
ghost use Rattle.ir_check.specs.Lesser.{lesser};

use crate::hosts::push_host_lines;
use ir_aliases::{AliasEnds, first_bad_alias, push_function_value_lines};
use ir_call_rules::push_call_lines;
use ir_defined::undefined_use;
use ir_geps::push_gep_lines;
use ir_given::alias_symbol;
use ir_global_rules::push_global_lines;
use ir_op_rules::push_op_lines;
use ir_phis::push_phi_lines;
use ir_sizes::unsized_lines;
use ir_syntax::{Bytes, Module};
use std::alloc::{AllocError, Global};

/// The least of these lines; none where there are none.
pub fn least_line(lines: &[u32]) -> Option<u32>
    ensures { result ≡ reduce min lines.now }
{
    lines.iter().copied().min()
}

/// The lines of types, variables, aliases, functions, and parts of these that break a rule on types.
fn state_lines(alloc: Global, m: &Module) -> Result<Vec<u32>, AllocError>
    ensures { IfOk result (λ lines. lines.items ≡ state_lines m.now) }
{
    let mut lines = unsized_lines(alloc, &m.types)?;
    push_global_lines(alloc, m, &mut lines)?;
    push_op_lines(alloc, m, &mut lines)?;
    push_gep_lines(alloc, m, &mut lines)?;
    push_host_lines(&mut lines, m)?;
    Ok(lines)
}

/// Adds the lines of what calls a function that it may not, or has one as a value.
fn push_use_lines(
    alloc: Global,
    ends: &AliasEnds<'_>,
    lines: &mut Vec<u32>,
) -> Result<(), AllocError>
    ensures { OnOk result (lines.new.items ≡ lines.old.items ++ use_lines ends.now) }
{
    push_call_lines(alloc, ends, lines)?;
    push_function_value_lines(alloc, ends, lines)
}

/// The lines of all that breaks a rule on types.
fn type_lines(alloc: Global, m: &Module) -> Result<Vec<u32>, AllocError>
    ensures { IfOk result (λ lines. lines.items ≡ type_lines m.now) }
{
    let mut lines = state_lines(alloc, m)?;
    let ends = AliasEnds::new(alloc, m)?;
    push_use_lines(alloc, &ends, &mut lines)?;
    Ok(lines)
}

/// The least line of what breaks a rule on types.
pub(crate) fn first_type_fault(alloc: Global, m: &Module) -> Result<Option<u32>, AllocError>
    ensures { IfOk result (λ line. line ≡ first_type_fault m.now) }
{
    let lines = type_lines(alloc, m)?;
    Ok(least_line(lines.as_slice()))
}

/// The lesser of two numbers, if there are any.
fn lesser(a: Option<u32>, b: Option<u32>) -> Option<u32>
    ensures { result ≡ lesser a b }
{
    match (a, b) {
        (Some(a), Some(b)) => Some(a.min(b)),
        (Some(only), None) | (None, Some(only)) => Some(only),
        (None, None) => None,
    }
}

/// The least line of what breaks a rule on the flow of control.
pub(crate) fn first_flow_fault(alloc: Global, m: &Module) -> Result<Option<u32>, AllocError>
    ensures { IfOk result (IsFirstFlowFault m.now) }
{
    let undefined = undefined_use(alloc, m)?;
    let mut lines = Vec::new(alloc);
    push_phi_lines(alloc, m, &mut lines)?;
    Ok(lesser(undefined, least_line(lines.as_slice())))
}

/// The name in the assembly of the first alias that has no end, or one too far from a definition.
#[tactic(auto, using(crate::proofs::AliasLemmas::symbol_told))]
pub(crate) fn first_alias_fault(alloc: Global, m: &Module) -> Result<Option<Bytes>, AllocError>
    ensures { IfOk result (λ name. MatchOption name (first_bad_alias m.now ≡ None) (IsAliasFault m.now)) }
{
    match first_bad_alias(alloc, m)? {
        Some(place) => alias_symbol(alloc, m, place),
        None => Ok(None),
    }
}

/// These bytes, copied.
pub(crate) fn copied(alloc: Global, bytes: &[u8]) -> Result<Bytes, AllocError>
    ensures { IfOk result (λ copy. copy ≡ bytes.now) }
{
    Ok(Bytes::from_vec(bytes.to_vec(alloc)?))
}
