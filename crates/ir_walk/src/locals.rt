//! The names that a function defines.
ghost use Rattle.std.specs.Prelude.{◌≡◌, ◌++◌, List, OnOk};
ghost use Rattle.std.specs.List.{flat_map};
ghost use Rattle.ir_walk.specs.Locals.{Local, in_block, in_body, in_function, in_instr, in_param, in_phi, in_result, label_local, value_local};

use ir_ident::Name;
use ir_syntax::{Block, Blocks, Function, Instr, Param, Phi};
use std::alloc::AllocError;

/// What finds something in each local name that it is shown, and keeps it in order.
pub trait LocalVisitor<'a> {
    /// What it finds.
    ghost Found: { Type 0 };

    /// What it finds in a name.
    ghost of_local: { Local → List Found };

    /// What it has found.
    ghost found: { Self → List Found };

    /// Shows it the name of a parameter or a result, the line of the first token of what it is for, and the line of
    /// its own token.
    ///
    /// # Errors
    ///
    /// [`AllocError`].
    fn value(&mut self, line: u32, name_line: u32, name: &'a Name) -> Result<(), AllocError>
        ensures { OnOk result (found self.new ≡ found self.old ++ of_local (value_local line name_line name.now)) };

    /// Shows it the label of a block, and the line of the block's first token.
    ///
    /// # Errors
    ///
    /// [`AllocError`].
    fn label(&mut self, line: u32, name: &'a Name) -> Result<(), AllocError>
        ensures { OnOk result (found self.new ≡ found self.old ++ of_local (label_local line name.now)) };
}

/// Shows the names that a function defines to a visitor, in order: parameters, blocks and results.
///
/// # Errors
///
/// [`AllocError`].
pub fn walk_locals<'a, V: LocalVisitor<'a>>(
    function: &'a Function,
    visitor: &mut V,
) -> Result<(), AllocError>
    ensures { OnOk result (V.found visitor.new ≡ V.found visitor.old ++ in_function V.of_local function.now) }
{
    walk_params(function.params.as_slice(), visitor)?;
    walk_body(&function.blocks, visitor)
}

fn walk_params<'a, V: LocalVisitor<'a>>(
    params: &'a [Param],
    visitor: &mut V,
) -> Result<(), AllocError>
    ensures { OnOk result (V.found visitor.new ≡ V.found visitor.old ++ flat_map (in_param V.of_local) params.now) }
{
    for param in params {
        visitor.value(param.line, param.name_line, &param.name)?;
    }
    Ok(())
}

fn walk_body<'a, V: LocalVisitor<'a>>(
    blocks: &'a Option<Blocks>,
    visitor: &mut V,
) -> Result<(), AllocError>
    ensures { OnOk result (V.found visitor.new ≡ V.found visitor.old ++ in_body V.of_local blocks.now) }
{
    match blocks {
        Some(blocks) => walk_blocks(blocks.as_slice(), visitor),
        None => Ok(()),
    }
}

fn walk_blocks<'a, V: LocalVisitor<'a>>(
    blocks: &'a [Block],
    visitor: &mut V,
) -> Result<(), AllocError>
    ensures { OnOk result (V.found visitor.new ≡ V.found visitor.old ++ flat_map (in_block V.of_local) blocks.now) }
{
    for block in blocks {
        walk_block(block, visitor)?;
    }
    Ok(())
}

fn walk_block<'a, V: LocalVisitor<'a>>(block: &'a Block, visitor: &mut V) -> Result<(), AllocError>
    ensures { OnOk result (V.found visitor.new ≡ V.found visitor.old ++ in_block V.of_local block.now) }
{
    visitor.label(block.line, &block.label)?;
    walk_phis(block.phis.as_slice(), visitor)?;
    walk_instrs(block.instrs.as_slice(), visitor)
}

fn walk_phis<'a, V: LocalVisitor<'a>>(phis: &'a [Phi], visitor: &mut V) -> Result<(), AllocError>
    ensures { OnOk result (V.found visitor.new ≡ V.found visitor.old ++ flat_map (in_phi V.of_local) phis.now) }
{
    for phi in phis {
        visitor.value(phi.line, phi.line, &phi.result)?;
    }
    Ok(())
}

fn walk_instrs<'a, V: LocalVisitor<'a>>(
    instrs: &'a [Instr],
    visitor: &mut V,
) -> Result<(), AllocError>
    ensures { OnOk result (V.found visitor.new ≡ V.found visitor.old ++ flat_map (in_instr V.of_local) instrs.now) }
{
    for instr in instrs {
        walk_result(instr.line, &instr.result, visitor)?;
    }
    Ok(())
}

fn walk_result<'a, V: LocalVisitor<'a>>(
    line: u32,
    name: &'a Option<Name>,
    visitor: &mut V,
) -> Result<(), AllocError>
    ensures { OnOk result (V.found visitor.new ≡ V.found visitor.old ++ in_result V.of_local line name.now) }
{
    match name {
        Some(name) => visitor.value(line, line, name),
        None => Ok(()),
    }
}
