//! The first fault of names.
ghost use Rattle.std.specs.Prelude.{◌≡◌, ◌++◌, ◌&&◌, ◌||◌, IfOk, if◌then◌else◌};
ghost use Rattle.std.specs.List.{flat_map};
ghost use Rattle.ir_names.specs.Faults.{entity_faults, fault_lines, is_defined, is_other, line_if, number_faults, use_faults};
ghost use Rattle.ir_numbers.specs.Unnamed.{is_counted, is_unnamed};
ghost use Rattle.ir_names.specs.Least.{least};
ghost use Rattle.ir_names.specs.Sets.{knows};

use crate::definitions::Definitions;
use crate::least::earlier;
use ir_entities::{Entity, NameKind, Site, locals_of, push_top_level, uses_of};
use ir_ident::Name;
use std::alloc::{AllocError, Global};

/// The least line of a fault in these items of a module.
pub(crate) fn first_fault(alloc: Global, entities: &[Entity]) -> Result<Option<u32>, AllocError>
    ensures { IfOk result (λ line. line ≡ least (fault_lines entities.now)) }
{
    let mut sites = Vec::new(alloc);
    push_top_level(&mut sites, entities)?;
    fault_by(alloc, sites.as_slice(), entities)
}

/// The least line of a fault in these items of a module, which are defined at these sites.
fn fault_by(
    alloc: Global,
    sites: &[Site<'_>],
    entities: &[Entity],
) -> Result<Option<u32>, AllocError>
    ensures { IfOk result (λ line. line ≡ least (number_faults sites.now ++ flat_map (entity_faults (is_defined sites.now)) entities.now)) }
{
    let defined = Definitions::at(alloc, sites)?;
    let uses = entities_fault(alloc, &defined, entities)?;
    Ok(earlier(number_fault(sites), uses))
}

/// The least line of a fault inside these items, where this is what the module defines.
fn entities_fault(
    alloc: Global,
    defined: &Definitions<'_>,
    entities: &[Entity],
) -> Result<Option<u32>, AllocError>
    ensures { IfOk result (λ line. line ≡ least (flat_map (entity_faults (knows defined.now)) entities.now)) }
{
    let mut first = None;
    for entity in entities {
        first = earlier(first, entity_fault(alloc, defined, entity)?);
    }
    Ok(first)
}

fn entity_fault(
    alloc: Global,
    defined: &Definitions<'_>,
    entity: &Entity,
) -> Result<Option<u32>, AllocError>
    ensures { IfOk result (λ line. line ≡ least (entity_faults (knows defined.now) entity.now)) }
{
    let items = locals_of(alloc, entity)?;
    let uses = uses_of(alloc, entity)?;
    fault_among(alloc, defined, items.as_slice(), uses.as_slice())
}

/// The least line of a fault in an item that defines and uses names at these sites.
fn fault_among(
    alloc: Global,
    defined: &Definitions<'_>,
    items: &[Site<'_>],
    uses: &[Site<'_>],
) -> Result<Option<u32>, AllocError>
    ensures { IfOk result (λ line. line
        ≡ least (number_faults items.now ++ flat_map (use_faults (λ s. knows defined.now s || is_defined items.now s)) uses.now)) }
{
    let own = Definitions::at(alloc, items)?;
    Ok(earlier(number_fault(items), use_fault(defined, &own, uses)))
}

/// The least line of a use of a name that neither knows.
fn use_fault(defined: &Definitions<'_>, own: &Definitions<'_>, uses: &[Site<'_>]) -> Option<u32>
    ensures { result ≡ least (flat_map (use_faults (λ s. knows defined.now s || knows own.now s)) uses.now) }
{
    let mut first = None;
    for site in uses {
        let known = is_known(defined, own, site);
        first = earlier(first, line_where(!known, site));
    }
    first
}

/// Whether one of the two knows the name of a site. A function's own names are looked for in it first.
fn is_known(defined: &Definitions<'_>, own: &Definitions<'_>, site: &Site<'_>) -> bool
    ensures { result ≡ (knows defined.now site.now || knows own.now site.now) }
{
    match site.kind {
        NameKind::Value | NameKind::Block => own.has(site) || defined.has(site),
        NameKind::NamedType | NameKind::Global => defined.has(site) || own.has(site),
    }
}

/// The least line of a number that is not the next one.
fn number_fault(sites: &[Site<'_>]) -> Option<u32>
    ensures { result ≡ least (number_faults sites.now) }
{
    let mut first = None;
    let mut next = 0u64;
    for site in sites {
        first = earlier(first, line_where(is_misnumbered(next, site), site));
        next += counted(site);
    }
    first
}

/// The line of a site, if it is a fault.
fn line_where(fault: bool, site: &Site<'_>) -> Option<u32>
    ensures { result ≡ least (line_if fault site.now) }
{
    if fault { Some(site.line) } else { None }
}

/// Whether a site's number is written, and is another one than this.
fn is_misnumbered(next: u64, site: &Site<'_>) -> bool
    ensures { result ≡ (is_counted site.now.0 && is_other next site.now.1.name) }
{
    let other = match site.name {
        Name::Unnamed(number) => number.to_u64() != Some(next),
        Name::Named(_) | Name::Implicit => false,
    };
    is_counted(site.kind) & other
}

/// How many unnamed items a site counts for.
fn counted(site: &Site<'_>) -> u64
    ensures { result ≡ (if is_unnamed site.now then 1 else 0) }
{
    if is_unnamed(site) { 1 } else { 0 }
}

/// Whether a site is one of an unnamed item.
fn is_unnamed(site: &Site<'_>) -> bool
    ensures { result ≡ is_unnamed site.now }
{
    let number = match site.name {
        Name::Unnamed(_) | Name::Implicit => true,
        Name::Named(_) => false,
    };
    is_counted(site.kind) & number
}

/// Whether unnamed items of a kind are counted.
fn is_counted(kind: NameKind) -> bool
    ensures { result ≡ is_counted kind }
{
    match kind {
        NameKind::NamedType => false,
        NameKind::Global | NameKind::Value | NameKind::Block => true,
    }
}
