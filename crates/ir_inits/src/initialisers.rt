//! Initialisers of global variables (LangRef, "Global Variables" and "Complex Constants").
ghost use Rattle.std.specs.Prelude.{◌≡◌, IfOk};
ghost use Rattle.ir_inits.specs.Initialisers.{array_inits, bracketed_inits, character_arrays, characters_of, gep_inits, inits, packed_inits, parts, plain_inits, struct_inits};
ghost use Rattle.ir_rules.specs.Reading.{Gives};
ghost use Rattle.ir_rules.specs.Rules.{commas};

use ir_lex::{prefix_of, rest_of};
use ir_rules::{End, bad, word};
use ir_syntax::{Bytes, Init, Operand, TypedInit, TypedInits};
use ir_types::{begins_type, read_type, unescaped};
use ir_values::{read_constant_gep, read_scalar};
use ir_words::{Class, Cursor};
use std::alloc::{AllocError, Global};

/// What stands between the quotes of `c"..."`, its escapes read.
fn characters_of(alloc: Global, text: &[u8]) -> Result<Bytes, AllocError>
    ensures { IfOk result (λ bytes. bytes ≡ characters_of text.now) }
{
    let quoted = prefix_of(rest_of(text, 2), text.len().saturating_sub(3));
    Ok(Bytes::from_vec(unescaped(alloc, quoted)?))
}

/// Reads `c"..."`.
fn read_characters<'t>(alloc: Global, rest: Cursor<'t>) -> Result<(Bytes, Cursor<'t>), End>
    ensures { Gives (λ x. x) result (character_arrays.read rest.entry) }
{
    match rest.first() {
        Class::CStr => {
            let bytes = characters_of(alloc, rest.text())?;
            Ok((bytes, rest.skip()))
        }
        _ => Err(bad(&rest)),
    }
}

/// Reads an initialiser without brackets.
#[tactic(auto, unfolding(crate::specs::Initialisers::plain_forms))]
fn read_plain_init<'t>(alloc: Global, rest: Cursor<'t>) -> Result<(Init, Cursor<'t>), End>
    ensures { Gives (λ x. x) result (plain_inits.read rest.entry) }
{
    match rest.first() {
        Class::Zeroinitializer => Ok((Init::zero(), rest.skip())),
        Class::CStr => {
            let (bytes, rest) = read_characters(alloc, rest)?;
            Ok((Init::bytes(bytes), rest))
        }
        _ => {
            let (operand, rest) = read_scalar(alloc, rest)?;
            Ok((Init::value(operand), rest))
        }
    }
}

/// Reads an address at constant offsets as an initialiser, its types of at most so many brackets.
fn read_gep_init<'t>(alloc: Global, rest: Cursor<'t>, depth: u8) -> Result<(Init, Cursor<'t>), End>
    ensures { Gives (λ x. x) result ((gep_inits depth).read rest.entry) }
{
    let (gep, rest) = read_constant_gep(alloc, rest, depth)?;
    Ok((Init::value(Operand::Gep(gep)), rest))
}

/// Reads a type and an initialiser, each of at most so many brackets.
#[cycle(inits)]
fn read_part<'t>(alloc: Global, rest: Cursor<'t>, depth: u8) -> Result<(TypedInit, Cursor<'t>), End>
    ensures { Gives (λ x. x) result ((parts depth (inits depth)).read rest.entry) }
{
    let (ty, rest) = read_type(alloc, rest, depth)?;
    let (init, rest) = read_init(alloc, rest, depth)?;
    Ok((TypedInit { ty, init }, rest))
}

/// Reads parts behind commas, or none.
#[cycle(inits)]
fn read_parts<'t>(
    alloc: Global,
    rest: Cursor<'t>,
    depth: u8,
) -> Result<(TypedInits, Cursor<'t>), End>
    ensures { Gives (λ x. x) result ((commas (parts depth (inits depth))).read rest.entry) }
{
    let mut list = TypedInits::new();
    if !begins_type(rest.first()) {
        return Ok((list, rest));
    }
    let (first, after) = read_part(alloc, rest, depth)?;
    list = list.with(alloc, first)?;
    let mut rest = after;
    while rest.first() == Class::Comma {
        let (part, after) = read_part(alloc, rest.skip(), depth)?;
        list = list.with(alloc, part)?;
        rest = after;
    }
    Ok((list, rest))
}

/// Reads `[`, elements, and `]`.
#[cycle(inits)]
fn read_array_init<'t>(
    alloc: Global,
    rest: Cursor<'t>,
    depth: u8,
) -> Result<(Init, Cursor<'t>), End>
    ensures { Gives (λ x. x) result ((array_inits (parts depth (inits depth))).read rest.entry) }
{
    let rest = word(rest, Class::OpenSquare)?;
    let (elements, rest) = read_parts(alloc, rest, depth)?;
    let rest = word(rest, Class::CloseSquare)?;
    Ok((Init::array(elements), rest))
}

/// Reads `{`, fields, and `}`.
#[cycle(inits)]
fn read_struct_init<'t>(
    alloc: Global,
    rest: Cursor<'t>,
    depth: u8,
) -> Result<(Init, Cursor<'t>), End>
    ensures { Gives (λ x. x) result ((struct_inits (parts depth (inits depth))).read rest.entry) }
{
    let rest = word(rest, Class::OpenCurly)?;
    let (fields, rest) = read_parts(alloc, rest, depth)?;
    let rest = word(rest, Class::CloseCurly)?;
    Ok((Init::structure(fields), rest))
}

/// Reads `<{`, fields, and `}>`.
#[cycle(inits)]
fn read_packed_init<'t>(
    alloc: Global,
    rest: Cursor<'t>,
    depth: u8,
) -> Result<(Init, Cursor<'t>), End>
    ensures { Gives (λ x. x) result ((packed_inits (parts depth (inits depth))).read rest.entry) }
{
    let rest = word(rest, Class::OpenPacked)?;
    let (fields, rest) = read_parts(alloc, rest, depth)?;
    let rest = word(rest, Class::ClosePacked)?;
    Ok((Init::packed(fields), rest))
}

/// Reads an initialiser that may have brackets of its own, of at most so many within them.
#[cycle(inits)]
fn read_bracketed_init<'t>(
    alloc: Global,
    rest: Cursor<'t>,
    depth: u8,
) -> Result<(Init, Cursor<'t>), End>
    ensures { Gives (λ x. x) result ((bracketed_inits depth (inits depth)).read rest.entry) }
{
    match rest.first() {
        Class::OpenSquare => read_array_init(alloc, rest, depth),
        Class::OpenCurly => read_struct_init(alloc, rest, depth),
        Class::OpenPacked => read_packed_init(alloc, rest, depth),
        Class::Getelementptr => read_gep_init(alloc, rest, depth),
        _ => read_plain_init(alloc, rest),
    }
}

/// Reads an initialiser of at most so many brackets inside each other.
///
/// # Errors
///
/// `Bad` at the first token with which no initialiser begins, `NoMemory` if memory runs out.
#[cycle(inits)]
#[tactic(auto, unfolding(crate::specs::Initialisers::inits_in))]
pub fn read_init<'t>(alloc: Global, rest: Cursor<'t>, depth: u8) -> Result<(Init, Cursor<'t>), End>
    ensures { Gives (λ x. x) result ((inits depth).read rest.entry) }
{
    if depth == 0 {
        return read_plain_init(alloc, rest);
    }
    read_bracketed_init(alloc, rest, depth - 1)
}
