//! Functions that aliases stand for.
ghost use Rattle.std.specs.Prelude.{◌≡◌};
ghost use Rattle.std.specs.Option.{option_and_then};
ghost use Rattle.ir_aliases.specs.Ends.{called_at, called_function, function_place, names_function};

use crate::ends::AliasEnds;
use crate::position::End;
use ir_ident::Name;
use ir_scope::GlobalItem;

impl<'a> AliasEnds<'a> {
    /// The place of the function that a callee stands for: the function of this name, or that in which the chain of an
    /// alias ends, at offset 0.
    pub fn called_function(&self, name: &Name) -> Option<usize>
        ensures { result ≡ called_function self.now name.now }
    {
        match self.item(name) {
            Some(GlobalItem::Function(place)) => Some(place),
            Some(GlobalItem::Alias(_)) => called_at(self.end(name)),
            Some(GlobalItem::Variable(_)) | None => None,
        }
    }

    /// Whether a name is that of a function, or of an alias whose chain ends in one.
    pub fn names_function(&self, name: &Name) -> bool
        ensures { result ≡ names_function self.now name.now }
    {
        match self.item(name) {
            Some(GlobalItem::Function(_)) => true,
            Some(GlobalItem::Alias(_)) => end_function(self.end(name)).is_some(),
            Some(GlobalItem::Variable(_)) | None => false,
        }
    }
}

fn function_place(item: GlobalItem) -> Option<usize>
    ensures { result ≡ function_place item }
{
    match item {
        GlobalItem::Function(place) => Some(place),
        GlobalItem::Variable(_) | GlobalItem::Alias(_) => None,
    }
}

/// The place of the function in which a chain ends, at any offset.
fn end_function(end: Option<End>) -> Option<usize>
    ensures { result ≡ option_and_then (λ e. function_place e.item) end }
{
    function_place(end?.item)
}

/// The place of the function at whose begin a chain ends.
fn called_at(end: Option<End>) -> Option<usize>
    ensures { result ≡ called_at end }
{
    match end {
        Some(End { item, offset: 0 }) => function_place(item),
        Some(_) | None => None,
    }
}
