//! What stands before the body of a function that is built.
ghost use Rattle.std.specs.Prelude.{◌≡◌, ◌==◌, ◌&&◌, Some};
ghost use Rattle.std.specs.List.{list_all};
ghost use Rattle.ir_ident.specs.Names.{name_bytes};
ghost use Rattle.rv_isa.specs.Symbol.{is_bare};
ghost use Rattle.cg_built.specs.Unbuilt.{bits_of, is_built_head, is_default, is_external, is_32_or_64};

use crate::linkage::{is_default, is_external};
use asm_line::is_bare;
use ir_naming::bytes_of;
use ir_syntax::{Function, Param, TyText, TypeTree};

/// The most parameters that have registers.
const ARGUMENT_LIMIT: usize = 8;

/// Whether every part of the program sees the function, its name needs no quotes, and it has up to eight parameters
/// of the type of its result, `i32` or `i64`.
pub fn is_built_head(function: &Function) -> bool
    ensures { result ≡ is_built_head function.now }
{
    let bits = bits_of(&function.result);
    let params = function.params.as_slice();
    is_seen(function)
        & is_32_or_64(bits)
        & are_of_width(params, bits)
        & (params.len() <= ARGUMENT_LIMIT)
}

fn is_seen(function: &Function) -> bool
    ensures { result ≡ (is_external function.now.linkage && is_default function.now.visibility
        && is_bare (name_bytes function.now.name)) }
{
    is_external(function.linkage)
        & is_default(function.visibility)
        & is_bare(bytes_of(&function.name))
}

fn is_32_or_64(bits: u8) -> bool
    ensures { result ≡ is_32_or_64 bits }
{
    (bits == 32) | (bits == 64)
}

fn are_of_width(params: &[Param], bits: u8) -> bool
    ensures { result ≡ list_all (λ p. bits_of p.ty == bits) params.now }
{
    params.iter().all(|param| bits_of(&param.ty) == bits)
}

/// The width of an integer type, 0 of another.
pub fn bits_of(ty: &Option<TyText>) -> u8
    ensures { result ≡ bits_of ty.now }
{
    match ty {
        Some(ty) => width_of(ty),
        None => 0,
    }
}

/// The same of a type that stands alone.
pub fn width_of(ty: &TyText) -> u8
    ensures { result ≡ bits_of (Some ty.now) }
{
    match ty.tree() {
        TypeTree::Int { bits } => *bits,
        _ => 0,
    }
}
