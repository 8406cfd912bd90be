//! Parameters of functions (LangRef, "Functions" and "Parameter Attributes").
ghost use Rattle.std.specs.Prelude.{◌≡◌, Some, None};
ghost use Rattle.ir_syntax.specs.Types.{TextTree};
ghost use Rattle.ir_words.specs.declared.class.Class.TheVariants.{Metadata};
ghost use Rattle.ir_rules.specs.Leaves.{means};
ghost use Rattle.ir_rules.specs.Reading.{Gives};
ghost use Rattle.ir_rules.specs.Rules.{either, made};
ghost use Rattle.ir_types.specs.Types.{types};
ghost use Rattle.ir_prototypes.specs.Prototypes.{bracketed, metadata_params, param_names, param_of, params, params_in};

use ir_attributes::read_attributes;
use ir_calls::begins_metadata_or_type;
use ir_ident::Name;
use ir_rules::{Element, End, read_commas, word};
use ir_syntax::{Param, Params, TyText};
use ir_types::{begins_type, read_local_name, read_type};
use ir_words::{Class, Cursor};
use std::alloc::Global;

/// An alignment, and a name with its line.
type ParamName = (Option<u64>, Option<(u32, Name)>);

/// Reads attributes and a name, where one stands.
#[tactic(auto, unfolding(crate::specs::Prototypes::param_name_forms))]
fn read_param_name<'t>(alloc: Global, rest: Cursor<'t>) -> Result<(ParamName, Cursor<'t>), End>
    ensures { Gives (λ x. x) result (param_names.read rest.entry) }
{
    let (align, rest) = read_attributes(alloc, rest)?;
    match rest.first() {
        Class::Local => {
            let line = rest.line();
            let (name, rest) = read_local_name(alloc, rest)?;
            Ok(((align, Some((line, name))), rest))
        }
        _ => Ok(((align, None), rest)),
    }
}

/// The parameter on a line, with the name that is written, on its own line, or none.
fn param_of(line: u32, ty: Option<TyText>, name: Option<(u32, Name)>) -> Param
    ensures { result ≡ param_of (line, (ty, (None, name))) }
{
    match name {
        Some((name_line, name)) => Param {
            line,
            ty,
            name,
            name_line,
        },
        None => Param {
            line,
            ty,
            name: Name::Implicit,
            name_line: line,
        },
    }
}

/// Reads a parameter of a type.
#[tactic(auto, unfolding(crate::specs::Prototypes::param_forms))]
fn read_typed_param<'t>(alloc: Global, rest: Cursor<'t>) -> Result<(Param, Cursor<'t>), End>
    ensures { Gives (λ x. x) result (params.read rest.entry) }
{
    let line = rest.line();
    let (ty, rest) = read_type(alloc, rest, 64)?;
    let ((_, name), rest) = read_param_name(alloc, rest)?;
    Ok((param_of(line, Some(ty), name), rest))
}

/// Reads a type, or `metadata`.
fn read_param_type<'t>(alloc: Global, rest: Cursor<'t>) -> Result<(Option<TyText>, Cursor<'t>), End>
    ensures { Gives (λ x. x) result ((either (means Metadata None) (made (λ (t : TextTree). Some t) (types 64))).read rest.entry) }
{
    match rest.first() {
        Class::Metadata => Ok((None, rest.skip())),
        _ => {
            let (ty, rest) = read_type(alloc, rest, 64)?;
            Ok((Some(ty), rest))
        }
    }
}

/// Reads a parameter of a type, or of metadata.
#[tactic(auto, unfolding(crate::specs::Prototypes::metadata_param_forms))]
fn read_metadata_param<'t>(alloc: Global, rest: Cursor<'t>) -> Result<(Param, Cursor<'t>), End>
    ensures { Gives (λ x. x) result (metadata_params.read rest.entry) }
{
    let line = rest.line();
    let (ty, rest) = read_param_type(alloc, rest)?;
    let ((_, name), rest) = read_param_name(alloc, rest)?;
    Ok((param_of(line, ty, name), rest))
}

/// Reads a parameter, which may be of metadata or not.
fn read_param<'t>(
    alloc: Global,
    rest: Cursor<'t>,
    metadata: bool,
) -> Result<(Param, Cursor<'t>), End>
    ensures { Gives (λ x. x) result ((params_in metadata).read rest.entry) }
{
    if metadata {
        read_metadata_param(alloc, rest)
    } else {
        read_typed_param(alloc, rest)
    }
}

/// The reader of a parameter, which may be of metadata or not.
#[derive(Drop)]
struct ParamReader {
    alloc: Global,
    metadata: bool,
}

impl Element for ParamReader {
    type Tree = Param;

    ghost rule = { λ reader. params_in reader.metadata };

    ghost takes_memory = { Unit {0} };

    fn begins(&self, class: Class) -> bool {
        if self.metadata {
            begins_metadata_or_type(class)
        } else {
            begins_type(class)
        }
    }

    fn read<'t>(&self, rest: Cursor<'t>) -> Result<(Param, Cursor<'t>), End> {
        read_param(self.alloc, rest, self.metadata)
    }
}

/// Reads `(`, parameters, and `)`.
pub(crate) fn read_params<'t>(
    alloc: Global,
    rest: Cursor<'t>,
    metadata: bool,
) -> Result<(Params, Cursor<'t>), End>
    ensures { Gives (λ x. x) result ((bracketed (params_in metadata)).read rest.entry) }
{
    let rest = word(rest, Class::OpenRound)?;
    let (list, rest) = read_commas(alloc, &ParamReader { alloc, metadata }, rest)?;
    let rest = word(rest, Class::CloseRound)?;
    Ok((Params::from_vec(list), rest))
}
