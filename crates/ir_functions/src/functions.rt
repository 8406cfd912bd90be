//! Functions, declared and defined (LangRef, "Functions").
ghost use Rattle.std.specs.Prelude.{◌≡◌, Some, None, false, if◌then◌else◌};
ghost use Rattle.ir_words.specs.declared.class.Class.TheVariants.{External};
ghost use Rattle.ir_rules.specs.Reading.{Gives, GivesExactly};
ghost use Rattle.ir_rules.specs.Rules.{option, word};
ghost use Rattle.ir_body.specs.Blocks.{blocks};
ghost use Rattle.ir_functions.specs.Functions.{block_lists, closed_blocks, declarations, definitions, opening_parts, function_of, openings};
ghost use Rattle.ir_prototypes.specs.Prototypes.{signature_of};

use crate::opening::Opening;
use ir_body::{begins_block, read_block};
use ir_entities::Entity;
use ir_globals::read_linkage;
use ir_ident::NameUse;
use ir_prototypes::{
    Prototype, read_declared_signature, read_defined_signature, skip_declared_ends,
    skip_defined_ends, skip_metadata,
};
use ir_rules::{Element, End, append_each, word};
use ir_syntax::{Block, Blocks, Function, Linkage};
use ir_words::{Class, Cursor};
use std::alloc::Global;

/// The function on a line; without blocks it is declared.
fn function_of(
    line: u32,
    linkage: Linkage,
    prototype: Prototype,
    blocks: Option<Blocks>,
) -> Function
    ensures { result ≡ function_of line linkage (signature_of prototype) blocks }
{
    let Prototype {
        visibility,
        result,
        name: place,
        params,
    } = prototype;
    let NameUse {
        line: name_line,
        name,
    } = place;
    Function {
        line,
        place: 0,
        name,
        name_line,
        linkage,
        visibility,
        result,
        params,
        blocks,
    }
}

/// Reads `external`, where it stands: whether it does.
fn read_external<'t>(rest: Cursor<'t>) -> Result<(bool, Cursor<'t>), End>
    ensures { GivesExactly (λ x. (if x.0 then Some tt else None, x.1)) result ((option (word External)).read rest.entry) }
{
    match rest.first() {
        Class::External => Ok((true, rest.skip())),
        _ => Ok((false, rest)),
    }
}

/// Reads the declaration of a function.
///
/// # Errors
///
/// `Bad` at the first token that can't stand there, `NoMemory` if memory runs out.
#[tactic(auto, unfolding(crate::specs::Functions::declaration_forms))]
pub fn read_declaration<'t>(alloc: Global, rest: Cursor<'t>) -> Result<(Entity, Cursor<'t>), End>
    ensures { Gives (λ x. (Some x.0, x.1)) result (declarations.read rest.entry) }
{
    let line = rest.line();
    let rest = word(rest, Class::Declare)?;
    let rest = skip_metadata(rest)?;
    let (_, rest) = read_external(rest)?;
    let (prototype, rest) = read_declared_signature(alloc, rest)?;
    let rest = skip_declared_ends(alloc, rest)?;
    let function = function_of(line, Linkage::External, prototype, None);
    Ok((Entity::Function(function), rest))
}

/// The reader of a block behind the first one.
#[derive(Drop)]
struct BlockReader {
    alloc: Global,
}

impl Element for BlockReader {
    type Tree = Block;

    ghost rule = { λ _. blocks false };

    ghost takes_memory = { Unit {0} };

    fn begins(&self, class: Class) -> bool {
        begins_block(class)
    }

    fn read<'t>(&self, rest: Cursor<'t>) -> Result<(Block, Cursor<'t>), End> {
        read_block(self.alloc, rest, false)
    }
}

/// Reads the blocks of a function.
fn read_blocks<'t>(alloc: Global, rest: Cursor<'t>) -> Result<(Vec<Block>, Cursor<'t>), End>
    ensures { Gives (λ x. (x.0.items, x.1)) result (block_lists.read rest.entry) }
{
    let (first, rest) = read_block(alloc, rest, true)?;
    let mut list = Vec::new(alloc);
    list.push(first)?;
    append_each(&BlockReader { alloc }, list, rest)
}

/// Reads the blocks of a function, and the bracket behind them.
#[tactic(auto, unfolding(crate::specs::Functions::closed_block_forms))]
fn read_closed_blocks<'t>(alloc: Global, rest: Cursor<'t>) -> Result<(Blocks, Cursor<'t>), End>
    ensures { Gives (λ x. x) result (closed_blocks.read rest.entry) }
{
    let (list, rest) = read_blocks(alloc, rest)?;
    let rest = word(rest, Class::CloseCurly)?;
    Ok((Blocks::from_vec(list), rest))
}

/// Reads a definition up to the bracket before its first block.
///
/// # Errors
///
/// `Bad` at the first token that can't stand there, `NoMemory` if memory runs out.
#[tactic(auto, unfolding(crate::specs::Functions::opening_forms))]
pub fn read_opening<'t>(alloc: Global, rest: Cursor<'t>) -> Result<(Opening, Cursor<'t>), End>
    ensures { Gives (λ x. (opening_parts x.0, x.1)) result (openings.read rest.entry) }
{
    let line = rest.line();
    let rest = word(rest, Class::Define)?;
    let (linkage, rest) = read_linkage(rest)?;
    let (prototype, rest) = read_defined_signature(alloc, rest)?;
    let rest = skip_defined_ends(alloc, rest)?;
    let rest = word(rest, Class::OpenCurly)?;
    let opening = Opening {
        line,
        linkage,
        prototype,
    };
    Ok((opening, rest))
}

/// Reads the definition of a function.
///
/// # Errors
///
/// `Bad` at the first token that can't stand there, `NoMemory` if memory runs out.
#[tactic(auto, unfolding(crate::specs::Functions::definition_forms))]
pub fn read_definition<'t>(alloc: Global, rest: Cursor<'t>) -> Result<(Entity, Cursor<'t>), End>
    ensures { Gives (λ x. (Some x.0, x.1)) result (definitions.read rest.entry) }
{
    let (opening, rest) = read_opening(alloc, rest)?;
    let (blocks, rest) = read_closed_blocks(alloc, rest)?;
    let Opening {
        line,
        linkage,
        prototype,
    } = opening;
    let function = function_of(line, linkage, prototype, Some(blocks));
    Ok((Entity::Function(function), rest))
}
