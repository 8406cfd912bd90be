//! Places where a name stands in the text.
ghost use Rattle.std.specs.Prelude.{◌≡◌, ◌++◌, ◌∷◌, [], OnOk};

use ir_ident::{Name, NameUse};
use std::alloc::{AllocError, Global};
use std::marker::Model;

/// What a name is of: names of two kinds are never one (LangRef, "Identifiers").
#[derive(Clone, Copy, PartialEq, Eq)]
pub enum NameKind {
    /// A named type.
    NamedType,
    /// A global variable, a function or an alias.
    Global,
    /// A parameter of a function or the result of an instruction.
    Value,
    /// A block of a function.
    Block,
}

/// A place where a name is defined or used. Contracts see its kind, and its line and name as those of a use.
#[derive(Drop)]
pub struct Site<'a> {
    /// What the name is of.
    pub kind: NameKind,
    /// The line, counted from 1.
    pub line: u32,
    /// The name.
    pub name: &'a Name,
}

impl<'a> Model for Site<'a> {
    ghost use Rattle.ir_entities.specs.Sites.{Site, site_code};

    ghost Value = { Site };

    ghost coded = { site_code };

    ghost view = { λ s. (s.kind, record { line = s.line; name = s.name.now }) };
}

/// Places where names stand, in order, as walks find them.
#[derive(Drop)]
pub(crate) struct Sites<'a> {
    pub(crate) sites: Vec<Site<'a>>,
}

impl<'a> Sites<'a> {
    /// No places.
    pub(crate) fn new(alloc: Global) -> Sites<'a>
        ensures { result.sites.items ≡ [] }
    {
        Sites {
            sites: Vec::new(alloc),
        }
    }
}

/// Adds a place at the end.
pub(crate) fn push_site<'a>(
    sites: &mut Vec<Site<'a>>,
    kind: NameKind,
    line: u32,
    name: &'a Name,
) -> Result<(), AllocError>
    ensures { OnOk result (sites.new.items ≡ sites.old.items ++ (kind, record { line = line; name = name.now }) ∷ []) }
{
    sites.push(Site { kind, line, name })?;
    Ok(())
}

/// Adds a use of a name at the end.
pub(crate) fn push_use<'a>(
    sites: &mut Vec<Site<'a>>,
    kind: NameKind,
    used: &'a NameUse,
) -> Result<(), AllocError>
    ensures { OnOk result (sites.new.items ≡ sites.old.items ++ (kind, used.now) ∷ []) }
{
    push_site(sites, kind, used.line, &used.name)
}
