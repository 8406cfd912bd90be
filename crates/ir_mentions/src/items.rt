//! The types that the items of a module write.
ghost use Rattle.std.specs.Prelude.{◌≡◌, ◌++◌, IfOk, OnOk, Some};
ghost use Rattle.std.specs.List.{flat_map};
ghost use Rattle.ir_mentions.specs.Mentions.{body_by, function_types, global_types, written_types};
ghost use Rattle.ir_mentions.specs.PartTypes.{block_types, part_types};
ghost use Rattle.ir_walk.specs.Parts.{signature_parts};

use crate::blocks::push_blocks;
use crate::mention::{Mention, Mentions};
use crate::which::Which;
use ir_syntax::{Block, Function, Global as GlobalVariable, Module};
use ir_walk::{Visitor, walk_signature};
use std::alloc::{AllocError, Global};

/// The types of defined variables, and those that defined functions write, in order.
pub fn written_types(
    alloc: Global,
    m: &Module,
    which: Which,
) -> Result<Vec<Mention<'_>>, AllocError>
    ensures { IfOk result (λ types. types.items ≡ written_types which m.now) }
{
    let mut mentions = Mentions::new(alloc);
    push_globals(&mut mentions, m.globals.as_slice())?;
    push_functions(alloc, &mut mentions, which, m.functions.as_slice())?;
    Ok(mentions.types)
}

fn push_globals<'a>(
    mentions: &mut Mentions<'a>,
    globals: &'a [GlobalVariable],
) -> Result<(), AllocError>
    ensures { OnOk result (mentions.new.types.items ≡ mentions.old.types.items ++ flat_map global_types globals.now) }
{
    for global in globals {
        push_global(mentions, global)?;
    }
    Ok(())
}

fn push_global<'a>(
    mentions: &mut Mentions<'a>,
    global: &'a GlobalVariable,
) -> Result<(), AllocError>
    ensures { OnOk result (mentions.new.types.items ≡ mentions.old.types.items ++ global_types global.now) }
{
    if global.init.is_some() {
        mentions.ty(&global.ty)?;
    }
    Ok(())
}

fn push_functions<'a>(
    alloc: Global,
    mentions: &mut Mentions<'a>,
    which: Which,
    functions: &'a [Function],
) -> Result<(), AllocError>
    ensures { OnOk result (mentions.new.types.items ≡ mentions.old.types.items ++ flat_map (function_types which) functions.now) }
{
    for function in functions {
        push_function(alloc, mentions, which, function)?;
    }
    Ok(())
}

fn push_function<'a>(
    alloc: Global,
    mentions: &mut Mentions<'a>,
    which: Which,
    function: &'a Function,
) -> Result<(), AllocError>
    ensures { OnOk result (mentions.new.types.items ≡ mentions.old.types.items ++ function_types which function.now) }
{
    match &function.blocks {
        Some(blocks) => push_defined(alloc, mentions, which, function, blocks.as_slice()),
        None => Ok(()),
    }
}

fn push_defined<'a>(
    alloc: Global,
    mentions: &mut Mentions<'a>,
    which: Which,
    function: &'a Function,
    blocks: &'a [Block],
) -> Result<(), AllocError>
    ensures { OnOk result (mentions.new.types.items
        ≡ mentions.old.types.items ++ (flat_map part_types (signature_parts function.now) ++ flat_map block_types (body_by which (Some blocks.now)))) }
{
    walk_signature(function, mentions)?;
    push_blocks(alloc, mentions, which, blocks)
}
