//! Types, and the names and the literals of which they are made (LangRef, "Type System").
ghost use Rattle.std.specs.Prelude.{◌≡◌, false, true};
ghost use Rattle.ir_types.specs.Types.{array_lengths, arrays, as_length, integer_types, literals, local_names, local_uses, packed_structs, plain_structs, result_types, simple_types, structs, types};
ghost use Rattle.ir_rules.specs.Reading.{Gives, GivesExactly};
ghost use Rattle.ir_rules.specs.Rules.{commas, either, has};
ghost use Rattle.ir_types.specs.Types.{type_firsts};

use crate::digits::small_number;
use crate::literals::literal_of;
use crate::names::{name_here, use_here};
use ir_ident::{Name, NameUse};
use ir_lex::rest_of;
use ir_rules::{End, bad, word};
use ir_syntax::{Literal, TyText, TypeTexts};
use ir_words::{Class, Cursor};
use std::alloc::Global;

/// Reads a name after `%`.
///
/// # Errors
///
/// `Bad` at this token if it is none.
pub fn read_local_name<'t>(alloc: Global, rest: Cursor<'t>) -> Result<(Name, Cursor<'t>), End>
    ensures { Gives (λ x. x) result (local_names.read rest.entry) }
{
    match rest.first() {
        Class::Local => Ok(name_here(alloc, rest)?),
        _ => Err(bad(&rest)),
    }
}

/// Reads a name after `%` where it is used, with its line.
///
/// # Errors
///
/// `Bad` at this token if it is none.
pub fn read_local_use<'t>(alloc: Global, rest: Cursor<'t>) -> Result<(NameUse, Cursor<'t>), End>
    ensures { Gives (λ x. x) result (local_uses.read rest.entry) }
{
    match rest.first() {
        Class::Local => Ok(use_here(alloc, rest)?),
        _ => Err(bad(&rest)),
    }
}

/// Reads an integer literal from -2^127 to 2^128 - 1.
///
/// # Errors
///
/// `Bad` at this token if it is none.
pub fn read_literal<'t>(rest: Cursor<'t>) -> Result<(Literal, Cursor<'t>), End>
    ensures { GivesExactly (λ x. x) result (literals.read rest.entry) }
{
    match rest.first() {
        Class::Int => match literal_of(rest.text()) {
            Some(literal) => Ok((literal, rest.skip())),
            None => Err(bad(&rest)),
        },
        _ => Err(bad(&rest)),
    }
}

/// A literal as the length of an array, or none where it is not from 0 to 4294967295.
fn as_length(literal: Option<Literal>) -> Option<u32>
    ensures { result ≡ as_length literal }
{
    let literal = literal?;
    if (literal.negative && literal.magnitude != 0) || literal.magnitude > u32::MAX as u128 {
        None
    } else {
        Some(literal.magnitude as u32)
    }
}

/// Reads the length of an array, from 0 to 4294967295.
fn read_array_length<'t>(rest: Cursor<'t>) -> Result<(u32, Cursor<'t>), End>
    ensures { GivesExactly (λ x. x) result (array_lengths.read rest.entry) }
{
    match rest.first() {
        Class::Int => match as_length(literal_of(rest.text())) {
            Some(len) => Ok((len, rest.skip())),
            None => Err(bad(&rest)),
        },
        _ => Err(bad(&rest)),
    }
}

/// Reads `i` and a width from 1 to 64.
#[tactic(auto, using(crate::proofs::IntegerWidths::fits))]
fn read_integer_type<'t>(rest: Cursor<'t>) -> Result<(TyText, Cursor<'t>), End>
    ensures { GivesExactly (λ x. x) result (integer_types.read rest.entry) }
{
    match rest.first() {
        Class::IntType => {
            let bits = small_number(rest_of(rest.text(), 1));
            Ok((TyText::int(bits), rest.skip()))
        }
        _ => Err(bad(&rest)),
    }
}

/// Reads a type without brackets.
#[tactic(auto, unfolding(crate::specs::Types::simple_forms))]
fn read_simple_type<'t>(alloc: Global, rest: Cursor<'t>) -> Result<(TyText, Cursor<'t>), End>
    ensures { Gives (λ x. x) result (simple_types.read rest.entry) }
{
    match rest.first() {
        Class::IntType => read_integer_type(rest),
        Class::Ptr => Ok((TyText::ptr(), rest.skip())),
        _ => {
            let (name, rest) = read_local_use(alloc, rest)?;
            Ok((TyText::named(alloc, name)?, rest))
        }
    }
}

/// Whether a token may begin a type.
pub fn begins_type(class: Class) -> bool
    ensures { result ≡ has type_firsts class }
{
    matches!(
        class,
        Class::OpenSquare
            | Class::OpenCurly
            | Class::OpenPacked
            | Class::IntType
            | Class::Ptr
            | Class::Local
    )
}

/// Reads `[`, a length, `x`, a type of at most so many brackets, and `]`.
#[cycle(types)]
fn read_array<'t>(alloc: Global, rest: Cursor<'t>, depth: u8) -> Result<(TyText, Cursor<'t>), End>
    ensures { Gives (λ x. x) result ((arrays (types depth)).read rest.entry) }
{
    let rest = word(rest, Class::OpenSquare)?;
    let (len, rest) = read_array_length(rest)?;
    let rest = word(rest, Class::Times)?;
    let (elem, rest) = read_type(alloc, rest, depth)?;
    let rest = word(rest, Class::CloseSquare)?;
    Ok((TyText::array(alloc, len, elem)?, rest))
}

/// Reads types of at most so many brackets, separated by commas, or none.
#[cycle(types)]
fn read_types<'t>(
    alloc: Global,
    rest: Cursor<'t>,
    depth: u8,
) -> Result<(TypeTexts, Cursor<'t>), End>
    ensures { Gives (λ x. x) result ((commas (types depth)).read rest.entry) }
{
    let mut list = Vec::new(alloc);
    if !begins_type(rest.first()) {
        return Ok((TypeTexts::from_vec(list), rest));
    }
    let (first, after) = read_type(alloc, rest, depth)?;
    list.push(first)?;
    let mut rest = after;
    while rest.first() == Class::Comma {
        let (ty, after) = read_type(alloc, rest.skip(), depth)?;
        list.push(ty)?;
        rest = after;
    }
    Ok((TypeTexts::from_vec(list), rest))
}

/// Reads `{`, fields, and `}`.
#[cycle(types)]
fn read_plain_struct<'t>(
    alloc: Global,
    rest: Cursor<'t>,
    depth: u8,
) -> Result<(TyText, Cursor<'t>), End>
    ensures { Gives (λ x. x) result ((plain_structs (types depth)).read rest.entry) }
{
    let rest = word(rest, Class::OpenCurly)?;
    let (fields, rest) = read_types(alloc, rest, depth)?;
    let rest = word(rest, Class::CloseCurly)?;
    Ok((TyText::structure(alloc, false, fields)?, rest))
}

/// Reads `<{`, fields, and `}>`.
#[cycle(types)]
fn read_packed_struct<'t>(
    alloc: Global,
    rest: Cursor<'t>,
    depth: u8,
) -> Result<(TyText, Cursor<'t>), End>
    ensures { Gives (λ x. x) result ((packed_structs (types depth)).read rest.entry) }
{
    let rest = word(rest, Class::OpenPacked)?;
    let (fields, rest) = read_types(alloc, rest, depth)?;
    let rest = word(rest, Class::ClosePacked)?;
    Ok((TyText::structure(alloc, true, fields)?, rest))
}

/// Reads a type, of at most so many brackets within its own.
#[cycle(types)]
fn read_bracketed<'t>(
    alloc: Global,
    rest: Cursor<'t>,
    depth: u8,
) -> Result<(TyText, Cursor<'t>), End>
    ensures { Gives (λ x. x) result ((either (arrays (types depth)) (either (structs (types depth)) simple_types)).read rest.entry) }
{
    match rest.first() {
        Class::OpenSquare => read_array(alloc, rest, depth),
        Class::OpenCurly => read_plain_struct(alloc, rest, depth),
        Class::OpenPacked => read_packed_struct(alloc, rest, depth),
        _ => read_simple_type(alloc, rest),
    }
}

/// Reads a type of at most so many brackets inside each other.
///
/// # Errors
///
/// `Bad` at the first token with which no type begins.
#[cycle(types)]
#[tactic(auto, unfolding(crate::specs::Types::types_in))]
pub fn read_type<'t>(
    alloc: Global,
    rest: Cursor<'t>,
    depth: u8,
) -> Result<(TyText, Cursor<'t>), End>
    ensures { Gives (λ x. x) result ((types depth).read rest.entry) }
{
    if depth == 0 {
        return read_simple_type(alloc, rest);
    }
    read_bracketed(alloc, rest, depth - 1)
}

/// Reads a struct whose fields have at most so many brackets inside each other.
///
/// # Errors
///
/// `Bad` at the first token that can't stand there, `NoMemory` if memory runs out.
pub fn read_struct<'t>(
    alloc: Global,
    rest: Cursor<'t>,
    depth: u8,
) -> Result<(TyText, Cursor<'t>), End>
    ensures { Gives (λ x. x) result ((structs (types depth)).read rest.entry) }
{
    match rest.first() {
        Class::OpenCurly => read_plain_struct(alloc, rest, depth),
        _ => read_packed_struct(alloc, rest, depth),
    }
}

/// Reads the type of a result, or `void`.
///
/// # Errors
///
/// `Bad` at the first token with which neither begins.
pub fn read_result_type<'t>(
    alloc: Global,
    rest: Cursor<'t>,
) -> Result<(Option<TyText>, Cursor<'t>), End>
    ensures { Gives (λ x. x) result (result_types.read rest.entry) }
{
    match rest.first() {
        Class::Void => Ok((None, rest.skip())),
        _ => {
            let (ty, rest) = read_type(alloc, rest, 64)?;
            Ok((Some(ty), rest))
        }
    }
}
