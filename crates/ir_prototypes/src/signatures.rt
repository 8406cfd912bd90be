//! What a function says before its body: its result, its name and its parameters (LangRef,
//! "Functions").
ghost use Rattle.ir_rules.specs.Reading.{Gives};
ghost use Rattle.ir_prototypes.specs.Prototypes.{metadata_names, other_names, declared_names, declared_signatures, defined_names, defined_signatures, signature_of};

use crate::parameters::read_params;
use crate::prototype::Prototype;
use ir_attributes::read_attributes;
use ir_globals::read_visibility;
use ir_ident::NameUse;
use ir_rules::End;
use ir_syntax::Params;
use ir_types::read_result_type;
use ir_values::{read_declared_use, read_global_use, read_metadata_intrinsic};
use ir_words::{Class, Cursor};
use std::alloc::Global;

/// Reads the name of an intrinsic that only carries metadata, and its parameters.
fn read_metadata_name<'t>(
    alloc: Global,
    rest: Cursor<'t>,
) -> Result<((NameUse, Params), Cursor<'t>), End>
    ensures { Gives (λ x. x) result (metadata_names.read rest.entry) }
{
    let (name, rest) = read_metadata_intrinsic(alloc, rest)?;
    let (params, rest) = read_params(alloc, rest, true)?;
    Ok(((name, params), rest))
}

/// Reads the name of another declared function, and its parameters.
fn read_other_name<'t>(
    alloc: Global,
    rest: Cursor<'t>,
) -> Result<((NameUse, Params), Cursor<'t>), End>
    ensures { Gives (λ x. x) result (other_names.read rest.entry) }
{
    let (name, rest) = read_declared_use(alloc, rest)?;
    let (params, rest) = read_params(alloc, rest, false)?;
    Ok(((name, params), rest))
}

/// Reads the name of a declared function and its parameters.
#[tactic(auto, unfolding(crate::specs::Prototypes::declared_name_forms))]
fn read_declared_name<'t>(
    alloc: Global,
    rest: Cursor<'t>,
) -> Result<((NameUse, Params), Cursor<'t>), End>
    ensures { Gives (λ x. x) result (declared_names.read rest.entry) }
{
    match rest.first() {
        Class::MetadataIntrinsic => read_metadata_name(alloc, rest),
        _ => read_other_name(alloc, rest),
    }
}

/// Reads the name of a defined function and its parameters.
#[tactic(auto, unfolding(crate::specs::Prototypes::defined_name_forms))]
fn read_defined_name<'t>(
    alloc: Global,
    rest: Cursor<'t>,
) -> Result<((NameUse, Params), Cursor<'t>), End>
    ensures { Gives (λ x. x) result (defined_names.read rest.entry) }
{
    let (name, rest) = read_global_use(alloc, rest)?;
    let (params, rest) = read_params(alloc, rest, false)?;
    Ok(((name, params), rest))
}

/// Reads the prototype of a declared function.
#[tactic(auto, unfolding(crate::specs::Prototypes::signature_forms))]
pub fn read_declared_signature<'t>(
    alloc: Global,
    rest: Cursor<'t>,
) -> Result<(Prototype, Cursor<'t>), End>
    ensures { Gives (λ x. (signature_of x.0, x.1)) result (declared_signatures.read rest.entry) }
{
    let (visibility, rest) = read_visibility(rest)?;
    let (_, rest) = read_attributes(alloc, rest)?;
    let (result, rest) = read_result_type(alloc, rest)?;
    let ((name, params), rest) = read_declared_name(alloc, rest)?;
    let prototype = Prototype {
        visibility,
        result,
        name,
        params,
    };
    Ok((prototype, rest))
}

/// Reads the prototype of a defined function.
#[tactic(auto, unfolding(crate::specs::Prototypes::signature_forms))]
pub fn read_defined_signature<'t>(
    alloc: Global,
    rest: Cursor<'t>,
) -> Result<(Prototype, Cursor<'t>), End>
    ensures { Gives (λ x. (signature_of x.0, x.1)) result (defined_signatures.read rest.entry) }
{
    let (visibility, rest) = read_visibility(rest)?;
    let (_, rest) = read_attributes(alloc, rest)?;
    let (result, rest) = read_result_type(alloc, rest)?;
    let ((name, params), rest) = read_defined_name(alloc, rest)?;
    let prototype = Prototype {
        visibility,
        result,
        name,
        params,
    };
    Ok((prototype, rest))
}
