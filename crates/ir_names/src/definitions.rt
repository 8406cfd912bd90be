//! What is defined at some sites.
ghost use Rattle.std.specs.Prelude.{◌≡◌, ◌||◌, false, IfOk, OnOk};
ghost use Rattle.ir_names.specs.Faults.{is_defined, same_site};
ghost use Rattle.ir_names.specs.Sets.{knows};
ghost use Rattle.ir_entities.specs.Sites.{Site};

use ir_entities::{NameKind, Site};
use ir_ident::NameSet;
use std::alloc::{AllocError, Global};

/// The names of each kind that are defined.
pub(crate) struct Definitions<'a> {
    pub(crate) types: NameSet<'a>,
    pub(crate) globals: NameSet<'a>,
    pub(crate) values: NameSet<'a>,
    pub(crate) blocks: NameSet<'a>,
}

impl<'a> Drop for Definitions<'a> {
    fn drop(self) {
        let Definitions {
            types,
            globals,
            values,
            blocks,
        } = self;
        drop(types);
        drop(globals);
        drop(values);
        drop(blocks);
    }
}

impl<'a> Definitions<'a> {
    /// What is defined at these sites.
    pub(crate) fn at(alloc: Global, sites: &[Site<'a>]) -> Result<Definitions<'a>, AllocError>
        ensures { IfOk result (λ d. (site : Site) → knows d site ≡ is_defined sites.now site) }
    {
        let mut all = Definitions::with_room_for(alloc, sites)?;
        for site in sites {
            all.insert(site)?;
        }
        Ok(all)
    }

    /// No names, with room for those of these sites.
    fn with_room_for(alloc: Global, sites: &[Site<'a>]) -> Result<Definitions<'a>, AllocError>
        ensures { IfOk result (λ d. (site : Site) → knows d site ≡ false) }
    {
        Ok(Definitions {
            types: NameSet::with_room(alloc, count_of(sites, NameKind::NamedType))?,
            globals: NameSet::with_room(alloc, count_of(sites, NameKind::Global))?,
            values: NameSet::with_room(alloc, count_of(sites, NameKind::Value))?,
            blocks: NameSet::with_room(alloc, count_of(sites, NameKind::Block))?,
        })
    }

    fn insert(&mut self, site: &Site<'a>) -> Result<(), AllocError>
        ensures { OnOk result ((other : Site) → knows self.new other ≡ (knows self.old other || same_site other site.now)) }
    {
        match site.kind {
            NameKind::NamedType => self.types.insert(site.name),
            NameKind::Global => self.globals.insert(site.name),
            NameKind::Value => self.values.insert(site.name),
            NameKind::Block => self.blocks.insert(site.name),
        }
    }

    /// Whether the name of a site is defined.
    pub(crate) fn has(&self, site: &Site<'_>) -> bool
        ensures { result ≡ knows self.now site.now }
    {
        match site.kind {
            NameKind::NamedType => self.types.has(site.name),
            NameKind::Global => self.globals.has(site.name),
            NameKind::Value => self.values.has(site.name),
            NameKind::Block => self.blocks.has(site.name),
        }
    }
}

/// How many sites name something of a kind.
fn count_of(sites: &[Site<'_>], kind: NameKind) -> usize {
    sites.iter().filter(|site| site.kind == kind).count()
}
