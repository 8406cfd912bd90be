//! Names that are defined twice (LangRef, "Identifiers").
ghost use Rattle.std.specs.Prelude.{◌≡◌, ◌++◌, ◌||◌, IfOk, OnOk, map};
ghost use Rattle.std.specs.List.{flat_map};
ghost use Rattle.ir_ident.specs.NameMaps.{has_name};
ghost use Rattle.ir_ident.specs.Names.{same_name};
ghost use Rattle.ir_ident.specs.declared.name.Name.{Name};
ghost use Rattle.ir_naming.specs.Items.{item_use, named_items};
ghost use Rattle.ir_naming.specs.Repeated.{is_among, local_names, repeated_lines, repeats, type_name};
ghost use Rattle.ir_syntax.specs.Lines.{line_if};

use crate::defined::{Defined, locals_of, push_items, push_types};
use crate::item_name::ItemName;
use ir_ident::{Name, NameSet};
use ir_syntax::{Function, Module, TypeDef, push_line_if};
use std::alloc::{AllocError, Global};

/// The lines, from 1, of what defines or declares a name for the second time: a variable's, a function's or an alias's, a
/// type's, or a local name of one function. Each is the line of the first token of the later of two. `items` are those of the
/// module.
///
/// # Errors
///
/// [`AllocError`].
pub fn repeated_lines(
    alloc: Global,
    m: &Module,
    items: &[ItemName<'_>],
) -> Result<Vec<u32>, AllocError>
    requires { items.now ≡ named_items m.now }
    ensures { IfOk result (λ lines. lines.items ≡ repeated_lines m.now) }
{
    let mut lines = Vec::new(alloc);
    push_repeated_types(alloc, &mut lines, m.types.as_slice())?;
    push_repeated_items(alloc, &mut lines, items)?;
    push_repeated_locals(alloc, &mut lines, m.functions.as_slice())?;
    Ok(lines)
}

fn push_repeated_types(
    alloc: Global,
    lines: &mut Vec<u32>,
    types: &[TypeDef],
) -> Result<(), AllocError>
    ensures { OnOk result (lines.new.items ≡ lines.old.items ++ repeats (map type_name types.now)) }
{
    let mut names = Vec::new(alloc);
    push_types(&mut names, types)?;
    push_repeats(alloc, lines, names.as_slice())
}

fn push_repeated_items(
    alloc: Global,
    lines: &mut Vec<u32>,
    items: &[ItemName<'_>],
) -> Result<(), AllocError>
    ensures { OnOk result (lines.new.items ≡ lines.old.items ++ repeats (map item_use items.now)) }
{
    let mut names = Vec::new(alloc);
    push_items(&mut names, items)?;
    push_repeats(alloc, lines, names.as_slice())
}

fn push_repeated_locals(
    alloc: Global,
    lines: &mut Vec<u32>,
    functions: &[Function],
) -> Result<(), AllocError>
    ensures { OnOk result (lines.new.items ≡ lines.old.items ++ flat_map (λ f. repeats (local_names f)) functions.now) }
{
    for function in functions {
        push_repeated_in(alloc, lines, function)?;
    }
    Ok(())
}

fn push_repeated_in(
    alloc: Global,
    lines: &mut Vec<u32>,
    function: &Function,
) -> Result<(), AllocError>
    ensures { OnOk result (lines.new.items ≡ lines.old.items ++ repeats (local_names function.now)) }
{
    let names = locals_of(alloc, function)?;
    push_repeats(alloc, lines, names.as_slice())
}

/// The most names that are compared with each other: for more of them a set is faster.
const FEW: usize = 32;

/// Adds the lines of the names that are among those before them.
fn push_repeats(
    alloc: Global,
    lines: &mut Vec<u32>,
    names: &[Defined<'_>],
) -> Result<(), AllocError>
    ensures { OnOk result (lines.new.items ≡ lines.old.items ++ repeats names.now) }
{
    if names.len() <= FEW {
        return push_few_repeats(lines, names);
    }
    push_many_repeats(alloc, lines, names)
}

/// Adds the lines of the names that are among those before them, by comparing each with these.
fn push_few_repeats(lines: &mut Vec<u32>, names: &[Defined<'_>]) -> Result<(), AllocError>
    ensures { OnOk result (lines.new.items ≡ lines.old.items ++ repeats names.now) }
{
    for place in 0..names.len() {
        push_if_among(lines, &names[..place], &names[place])?;
    }
    Ok(())
}

/// Adds the line of a name if it is among those before it.
fn push_if_among(
    lines: &mut Vec<u32>,
    before: &[Defined<'_>],
    defined: &Defined<'_>,
) -> Result<(), AllocError>
    ensures { OnOk result (lines.new.items
        ≡ lines.old.items ++ line_if (is_among before.now defined.now.name) defined.now.line) }
{
    push_line_if(lines, is_among(before, defined.name), defined.line)
}

/// Whether a name is one of these.
fn is_among(names: &[Defined<'_>], name: &Name) -> bool
    ensures { result ≡ is_among names.now name.now }
{
    names.iter().any(|defined| is_name_of(defined, name))
}

fn is_name_of(defined: &Defined<'_>, name: &Name) -> bool
    ensures { result ≡ same_name name.now defined.now.name }
{
    name.is_same(defined.name)
}

/// Adds the lines of the names that are among those before them, by a set of these.
fn push_many_repeats(
    alloc: Global,
    lines: &mut Vec<u32>,
    names: &[Defined<'_>],
) -> Result<(), AllocError>
    ensures { OnOk result (lines.new.items ≡ lines.old.items ++ repeats names.now) }
{
    let mut seen = NameSet::with_room(alloc, names.len())?;
    for defined in names {
        push_if_seen(lines, &seen, defined)?;
        see(&mut seen, defined)?;
    }
    Ok(())
}

/// Adds the line of a name if it was seen before.
fn push_if_seen(
    lines: &mut Vec<u32>,
    seen: &NameSet<'_>,
    defined: &Defined<'_>,
) -> Result<(), AllocError>
    ensures { OnOk result (lines.new.items
        ≡ lines.old.items ++ line_if (has_name seen.now defined.now.name) defined.now.line) }
{
    push_line_if(lines, seen.has(defined.name), defined.line)
}

fn see<'a>(seen: &mut NameSet<'a>, defined: &Defined<'a>) -> Result<(), AllocError>
    ensures { OnOk result ((other : Name) → has_name seen.new other ≡ (has_name seen.old other || same_name other defined.now.name)) }
{
    seen.insert(defined.name)
}
