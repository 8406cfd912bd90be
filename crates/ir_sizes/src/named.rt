//! The types that names stand for (LangRef, "Structure Type").
ghost use Rattle.std.specs.Prelude.{◌≡◌, ◌≤◌, IfOk, IfSome, option_copied, option_map};
ghost use Rattle.ir_sizes.specs.Extents.{IsExtent};
ghost use Rattle.ir_sizes.specs.Measured.{measured};
ghost use Rattle.ir_sizes.specs.Named.{first_def, struct_in, written_out};
ghost use Rattle.ir_sizes.specs.Sized.{body_of, is_sized, layout_in};
ghost use Rattle.ir_syntax.specs.Types.{tree_of};
ghost use Rattle.ty_core.specs.Size.{IsAlign, size_limit};

use crate::rounds::table_of;
use crate::sized::{extent_of, tree_extent_of};
use crate::table::Table;
use ir_ident::Name;
use ir_syntax::{TyText, TypeDef, TypeTree};
use std::alloc::{AllocError, Global};
use std::marker::Model;
use ty_core::Layout;

/// The named types of a module, found by their names, with what is measured of them. Contracts see their definitions.
pub struct NamedTypes<'a> {
    defs: &'a [TypeDef],
    table: Table<'a>,
}

impl<'a> Drop for NamedTypes<'a> {
    fn drop(self) {
        let NamedTypes { defs: _, table } = self;
        drop(table);
    }
}

impl<'a> Model for NamedTypes<'a> {
    ghost use Rattle.std.specs.Prelude.{List};
    ghost use Rattle.std.specs.Coded.{coded_list};
    ghost use Rattle.ir_sizes.specs.Measured.{AreExtents, IsTable};
    ghost use Rattle.ir_sizes.specs.Sized.{level_limit};
    ghost use Rattle.ir_syntax.specs.declared.type_def.TypeDef.{TypeDef};
    ghost use Rattle.ir_syntax.specs.contracts.type_def.TypeDef as type_def;

    ghost Value = { List TypeDef };

    ghost coded = { coded_list type_def.the_row.coded };

    ghost view = { λ t. t.defs.now };

    ghost invariant = { λ t. IsTable t.defs.now level_limit t.table × AreExtents t.table.extents.items };
}

impl<'a> NamedTypes<'a> {
    /// The named types of these definitions.
    pub fn new(alloc: Global, defs: &'a [TypeDef]) -> Result<NamedTypes<'a>, AllocError>
        ensures { IfOk result (λ types. types ≡ defs.now) }
    {
        let table = table_of(alloc, defs)?;
        Ok(NamedTypes { defs, table })
    }

    /// The first definition of a name.
    fn def(&self, name: &Name) -> Option<&'a TypeDef>
        ensures { option_copied result ≡ first_def self.now name.now }
    {
        let place = self.table.place(name)?;
        self.defs.get(place)
    }

    /// The struct that a name stands for.
    #[tactic(auto, using(crate::proofs::BodyLemmas::body_first))]
    pub(crate) fn body(&self, name: &Name) -> Option<&'a TypeTree>
        ensures { option_map tree_of (option_copied result) ≡ struct_in (body_of self.now name.now) }
    {
        let tree = self.def(name)?.body.tree();
        match tree {
            TypeTree::Struct { .. } => Some(tree),
            TypeTree::Int { .. } | TypeTree::Ptr | TypeTree::Array { .. } | TypeTree::Named(_) => {
                None
            }
        }
    }

    /// A type itself, or the struct that a name stands for (LangRef, "Structure Type").
    pub fn written_out(&self, ty: &'a TypeTree) -> Option<&'a TypeTree>
        ensures { option_map tree_of (option_copied result) ≡ written_out self.now (tree_of ty.now) }
    {
        match ty {
            TypeTree::Named(place) => self.body(&place.name),
            TypeTree::Int { .. }
            | TypeTree::Ptr
            | TypeTree::Array { .. }
            | TypeTree::Struct { .. } => Some(ty),
        }
    }

    /// Whether a type has a size (LangRef, "Structure Type" and "Data Layout").
    pub fn is_sized(&self, ty: &TyText) -> bool
        ensures { result ≡ is_sized self.now ty.now }
    {
        extent_of(&self.table, ty).is_some()
    }

    /// The layout of a type that has a size (LangRef, "Data Layout").
    pub fn layout(&self, ty: &TypeTree) -> Option<Layout>
        ensures value { result ≡ layout_in self.now (tree_of ty.now) }
        ensures size { IfSome result (λ layout. layout.size ≤ size_limit) }
        ensures aligned { IfSome result (λ layout. IsAlign layout.align) }
    {
        let extent = tree_extent_of(&self.table, ty)?;
        Some(extent.layout)
    }
}
