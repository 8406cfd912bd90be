//! Names with the lines of what they are defined for.
ghost use Rattle.std.specs.Prelude.{◌≡◌, ◌++◌, ◌∷◌, [], map, IfOk, OnOk};
ghost use Rattle.ir_ident.specs.declared.name.NameUse.{NameUse};
ghost use Rattle.ir_naming.specs.Items.{item_use};
ghost use Rattle.ir_naming.specs.Repeated.{defined_at, local_names, names_in, type_name};

use crate::item_name::ItemName;
use ir_ident::Name;
use ir_syntax::{Function, TypeDef};
use ir_walk::{LocalVisitor, walk_locals};
use std::alloc::{AllocError, Global};
use std::marker::Model;

/// A name, and the line of the first token of what it is defined for. Contracts see it as a name that is used.
#[derive(Drop)]
pub(crate) struct Defined<'a> {
    pub(crate) line: u32,
    pub(crate) name: &'a Name,
}

impl<'a> Model for Defined<'a> {
    ghost use Rattle.ir_ident.specs.declared.name.NameUse.{NameUse};
    ghost use Rattle.ir_naming.specs.Repeated.{defined_code};

    ghost Value = { NameUse };

    ghost coded = { defined_code };

    ghost view = { λ d. record { line = d.line; name = d.name.now } };
}

/// Adds a name at the end.
fn push<'a>(names: &mut Vec<Defined<'a>>, line: u32, name: &'a Name) -> Result<(), AllocError>
    ensures { OnOk result (names.new.items ≡ names.old.items ++ defined_at line name.now ∷ []) }
{
    names.push(Defined { line, name })?;
    Ok(())
}

/// Adds the names of types, in order.
pub(crate) fn push_types<'a>(
    names: &mut Vec<Defined<'a>>,
    types: &'a [TypeDef],
) -> Result<(), AllocError>
    ensures { OnOk result (names.new.items ≡ names.old.items ++ map type_name types.now) }
{
    for ty in types {
        push(names, ty.line, &ty.name)?;
    }
    Ok(())
}

/// Adds the names of items, in order.
pub(crate) fn push_items<'a>(
    names: &mut Vec<Defined<'a>>,
    items: &[ItemName<'a>],
) -> Result<(), AllocError>
    ensures { OnOk result (names.new.items ≡ names.old.items ++ map item_use items.now) }
{
    for item in items {
        push(names, item.line, item.name)?;
    }
    Ok(())
}

/// Names that a walk finds, in order.
#[derive(Drop)]
pub(crate) struct Names<'a> {
    pub(crate) names: Vec<Defined<'a>>,
}

impl<'a> LocalVisitor<'a> for Names<'a> {
    ghost Found = { NameUse };

    ghost of_local = { names_in };

    ghost found = { λ n. n.names.items };

    fn value(&mut self, line: u32, _name_line: u32, name: &'a Name) -> Result<(), AllocError> {
        push(&mut self.names, line, name)
    }

    fn label(&mut self, line: u32, name: &'a Name) -> Result<(), AllocError> {
        push(&mut self.names, line, name)
    }
}

/// The local names of a function, in order.
pub(crate) fn locals_of<'a>(
    alloc: Global,
    function: &'a Function,
) -> Result<Vec<Defined<'a>>, AllocError>
    ensures { IfOk result (λ names. names.items ≡ local_names function.now) }
{
    let mut locals = Names {
        names: Vec::new(alloc),
    };
    walk_locals(function, &mut locals)?;
    Ok(locals.names)
}
