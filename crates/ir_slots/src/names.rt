//! The names of a function's values in the order of the text.
ghost use Rattle.std.specs.Prelude.{◌≡◌, IfOk};
ghost use Rattle.ir_slots.specs.Slots.{slot_names};

use ir_ident::Name;
use ir_syntax::Function;
use ir_walk::{LocalVisitor, walk_locals};
use std::alloc::{AllocError, Global};
use std::marker::Model;

/// A name of a value. Contracts see the name.
#[derive(Drop)]
pub(crate) struct ValueName<'a> {
    pub(crate) name: &'a Name,
}

impl<'a> Model for ValueName<'a> {
    ghost use Rattle.ir_ident.specs.declared.name.Name.{Name};
    ghost use Rattle.ir_ident.specs.contracts.name.Name as names;

    ghost Value = { Name };

    ghost coded = { names.the_row.coded };

    ghost view = { λ n. n.name.now };
}

/// Names of values that a walk finds, in order.
#[derive(Drop)]
struct ValueNames<'a> {
    names: Vec<ValueName<'a>>,
}

impl<'a> LocalVisitor<'a> for ValueNames<'a> {
    ghost use Rattle.ir_ident.specs.declared.name.Name.{Name};
    ghost use Rattle.ir_slots.specs.Slots.{value_names};

    ghost Found = { Name };

    ghost of_local = { value_names };

    ghost found = { λ v. v.names.items };

    fn value(&mut self, _line: u32, _name_line: u32, name: &'a Name) -> Result<(), AllocError> {
        self.names.push(ValueName { name })?;
        Ok(())
    }

    fn label(&mut self, _line: u32, _name: &'a Name) -> Result<(), AllocError> {
        Ok(())
    }
}

/// The names of the parameters and results of a function.
///
/// # Errors
///
/// [`AllocError`].
pub(crate) fn slot_names<'a>(
    alloc: Global,
    function: &'a Function,
) -> Result<Vec<ValueName<'a>>, AllocError>
    ensures { IfOk result (λ names. names.items ≡ slot_names function.now) }
{
    let mut found = ValueNames {
        names: Vec::new(alloc),
    };
    walk_locals(function, &mut found)?;
    Ok(found.names)
}
