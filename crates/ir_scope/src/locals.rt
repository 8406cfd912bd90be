//! The types of the values that a function names.
ghost use Rattle.std.specs.Prelude.{◌≡◌, ◌++◌, IfOk, List, OnOk};
ghost use Rattle.std.specs.List.{flat_map};
ghost use Rattle.ir_ident.specs.NameMaps.{value_of};
ghost use Rattle.ir_ident.specs.declared.name.Name.{Name};
ghost use Rattle.ir_scope.specs.Locals.{Adds, Value, block_values, body_values, instr_values, local_scalar, param_values, phi_values, result_values, typed};

use crate::results::op_scalar;
use crate::scalar::{Scalar, maybe_scalar, scalar_of};
use ir_ident::{Name, NameMap};
use ir_syntax::{Block, Blocks, Function, Instr, Param, Phi, value_count};
use std::alloc::{AllocError, Global};

/// The types of the parameters and results of a function by their names; where several have one name, of the first one. A
/// value of a type that no value has is left out.
///
/// # Errors
///
/// [`AllocError`].
pub fn local_scalars(alloc: Global, function: &Function) -> Result<NameMap<'_, Scalar>, AllocError>
    ensures { IfOk result (λ scalars. (name : Name) → value_of scalars name ≡ local_scalar function.now name) }
{
    let mut scalars = NameMap::with_room(alloc, room_for(function))?;
    add_all(function.params.as_slice(), &mut scalars)?;
    add_body(&function.blocks, &mut scalars)?;
    Ok(scalars)
}

/// How much room the names of a function's values may take.
fn room_for(function: &Function) -> usize {
    let params = function.params.as_slice();
    match &function.blocks {
        Some(blocks) => value_count(params, blocks.as_slice()),
        None => params.len(),
    }
}

/// What has values with names.
trait HasValues<'a> {
    /// Its values in order.
    ghost values: { Self → List Value };

    /// Adds the types of its values.
    fn add(&'a self, scalars: &mut NameMap<'a, Scalar>) -> Result<(), AllocError>
        ensures { OnOk result (Adds scalars.old scalars.new (values self.now)) };
}

/// Adds the types of the values of these.
fn add_all<'a, T: HasValues<'a>>(
    items: &'a [T],
    scalars: &mut NameMap<'a, Scalar>,
) -> Result<(), AllocError>
    ensures { OnOk result (Adds scalars.old scalars.new (flat_map T.values items.now)) }
{
    for item in items {
        item.add(scalars)?;
    }
    Ok(())
}

fn add_body<'a>(
    blocks: &'a Option<Blocks>,
    scalars: &mut NameMap<'a, Scalar>,
) -> Result<(), AllocError>
    ensures { OnOk result (Adds scalars.old scalars.new (body_values blocks.now)) }
{
    match blocks {
        Some(blocks) => add_all(blocks.as_slice(), scalars),
        None => Ok(()),
    }
}

fn add_block<'a>(block: &'a Block, scalars: &mut NameMap<'a, Scalar>) -> Result<(), AllocError>
    ensures { OnOk result (Adds scalars.old scalars.new (block_values block.now)) }
{
    add_all(block.phis.as_slice(), scalars)?;
    add_all(block.instrs.as_slice(), scalars)?;
    Ok(())
}

/// Adds the type of a value of this name, if it is one.
fn add_typed<'a>(
    name: &'a Name,
    scalar: Option<Scalar>,
    scalars: &mut NameMap<'a, Scalar>,
) -> Result<(), AllocError>
    ensures { OnOk result (Adds scalars.old scalars.new (typed name.now scalar)) }
{
    match scalar {
        Some(scalar) => scalars.add(name, scalar),
        None => Ok(()),
    }
}

fn add_result<'a>(
    name: &'a Option<Name>,
    scalar: Option<Scalar>,
    scalars: &mut NameMap<'a, Scalar>,
) -> Result<(), AllocError>
    ensures { OnOk result (Adds scalars.old scalars.new (result_values name.now scalar)) }
{
    match name {
        Some(name) => add_typed(name, scalar, scalars),
        None => Ok(()),
    }
}

impl<'a> HasValues<'a> for Param {
    ghost values = { param_values };

    fn add(&'a self, scalars: &mut NameMap<'a, Scalar>) -> Result<(), AllocError> {
        add_typed(&self.name, maybe_scalar(&self.ty), scalars)
    }
}

impl<'a> HasValues<'a> for Phi {
    ghost values = { phi_values };

    fn add(&'a self, scalars: &mut NameMap<'a, Scalar>) -> Result<(), AllocError> {
        add_typed(&self.result, scalar_of(&self.ty), scalars)
    }
}

impl<'a> HasValues<'a> for Instr {
    ghost values = { instr_values };

    fn add(&'a self, scalars: &mut NameMap<'a, Scalar>) -> Result<(), AllocError> {
        add_result(&self.result, op_scalar(&self.op), scalars)
    }
}

impl<'a> HasValues<'a> for Block {
    ghost values = { block_values };

    fn add(&'a self, scalars: &mut NameMap<'a, Scalar>) -> Result<(), AllocError> {
        add_block(self, scalars)
    }
}
