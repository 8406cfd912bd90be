//! The names of the items of a module in the order of the text.
ghost use Rattle.std.specs.Prelude.{◌≡◌, ◌++◌, ◌≤◌, IfOk, OnOk, drop, length, map, nat_le};
ghost use Rattle.ir_naming.specs.Items.{NamedItem, alias_item, function_item, merged, named_items, variable_item};

use crate::item_name::ItemName;
use ir_syntax::{Alias, Function, Global as Variable, Module};
use std::alloc::{AllocError, Global};

/// The names of the variables, functions and aliases of a module, in the order of their places.
///
/// # Errors
///
/// [`AllocError`].
pub fn item_names(alloc: Global, m: &Module) -> Result<Vec<ItemName<'_>>, AllocError>
    ensures { IfOk result (λ names. names.items ≡ named_items m.now) }
{
    let variables = names_of(alloc, m.globals.as_slice())?;
    let functions = names_of(alloc, m.functions.as_slice())?;
    let aliases = names_of(alloc, m.aliases.as_slice())?;
    let rest = merged(alloc, functions.as_slice(), aliases.as_slice())?;
    merged(alloc, variables.as_slice(), rest.as_slice())
}

/// An item that has a name.
trait Named {
    /// Its name, and what is known of it.
    ghost item: { Self → NamedItem };

    /// Its name, and what is known of it.
    fn item_name(&self) -> ItemName<'_>
        ensures { result ≡ item self.now };
}

impl Named for Variable {
    ghost item = { variable_item };

    fn item_name(&self) -> ItemName<'_> {
        ItemName {
            place: self.place,
            line: self.line,
            defined: self.init.is_some(),
            name: &self.name,
        }
    }
}

impl Named for Function {
    ghost item = { function_item };

    fn item_name(&self) -> ItemName<'_> {
        ItemName {
            place: self.place,
            line: self.line,
            defined: self.blocks.is_some(),
            name: &self.name,
        }
    }
}

impl Named for Alias {
    ghost item = { alias_item };

    fn item_name(&self) -> ItemName<'_> {
        ItemName {
            place: self.place,
            line: self.line,
            defined: true,
            name: &self.name,
        }
    }
}

/// The names of these items.
fn names_of<T: Named>(alloc: Global, items: &[T]) -> Result<Vec<ItemName<'_>>, AllocError>
    ensures { IfOk result (λ names. names.items ≡ map T.item items.now) }
{
    let mut names = Vec::with_capacity(alloc, items.len())?;
    for item in items {
        names.push(item.item_name())?;
    }
    Ok(names)
}

/// Two lists of items in the order of their places, each in this order by itself.
fn merged<'a>(
    alloc: Global,
    left: &[ItemName<'a>],
    right: &[ItemName<'a>],
) -> Result<Vec<ItemName<'a>>, AllocError>
    ensures { IfOk result (λ names. names.items ≡ merged left.now right.now) }
{
    let mut names = Vec::with_capacity(alloc, left.len().saturating_add(right.len()))?;
    let mut taken = 0;
    let mut other = 0;
    while taken < left.len() && other < right.len() {
        let first = &left[taken];
        let second = &right[other];
        if is_before(first, second) {
            names.push(first.copy())?;
            taken += 1;
        } else {
            names.push(second.copy())?;
            other += 1;
        }
    }
    push_all(&mut names, rest_of(left, taken))?;
    push_all(&mut names, rest_of(right, other))?;
    Ok(names)
}

/// Whether the first item stands before the second in the text.
fn is_before(first: &ItemName<'_>, second: &ItemName<'_>) -> bool
    ensures { result ≡ nat_le first.now.place second.now.place }
{
    first.place <= second.place
}

/// The items from a place in the list on.
fn rest_of<'s, 'a>(items: &'s [ItemName<'a>], from: usize) -> &'s [ItemName<'a>]
    requires { from ≤ length items.now }
    ensures { result.now ≡ drop from items.now }
{
    &items[from..]
}

/// Adds items at the end.
fn push_all<'a>(names: &mut Vec<ItemName<'a>>, items: &[ItemName<'a>]) -> Result<(), AllocError>
    ensures { OnOk result (names.new.items ≡ names.old.items ++ items.now) }
{
    for item in items {
        names.push(item.copy())?;
    }
    Ok(())
}
